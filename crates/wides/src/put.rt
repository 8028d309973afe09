// The activities of a procedure, written into its row.
ghost use Rattle.std.specs.Prelude.{◌+◌, ◌<◌, set};
ghost use Rattle.parts.specs.Beside.{beside};
ghost use Rattle.frames.specs.Layout.{row_at};
ghost use Rattle.frames.specs.Put.{Puts};

// Byte 2 of row i; past the end of the area nothing is written.
pub fn put_wide(t: &mut [u8], i: u16, x: u8)
    requires { i < 4096 }
    ensures { Puts t.old t.new (set (beside t.old).names (row_at i + 2) x) }
{
    let j = 32766 - usize::from(i) * 4;
    if j < t.len() {
        t[j] = x;
    }
}
