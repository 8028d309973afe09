// Frames written behind the tree; past the end of the area nothing is.
ghost use Rattle.std.specs.Prelude.{◌≡◌, ◌+◌, ◌-◌, ◌*◌, ◌<◌, set};
ghost use Rattle.parts.specs.Beside.{beside};
ghost use Rattle.frames.specs.Put.{Puts, half_in, frame_in, actual_in, wiped, zero_from};

use crate::area;

// Byte o behind the tree.
fn put_byte(t: &mut [u8], o: u32, x: u8)
    ensures { Puts t.old t.new (set (beside t.old).names o x) }
{
    let i = 16384 + o as usize;
    if i < t.len() {
        t[i] = x;
    }
}

// Two bytes, the low one first.
fn put_half(t: &mut [u8], o: u32, x: u16)
    requires { o < 1000000 }
    ensures { Puts t.old t.new (half_in (beside t.old).names o x) }
{
    let [low, high] = x.to_le_bytes();
    put_byte(t, o, low);
    put_byte(t, o + 1, high);
}

// The caller's frame, and the place of the procedure's name.
pub fn put_frame(t: &mut [u8], top: u16, caller: u16, p: u16)
    ensures { Puts t.old t.new (frame_in (beside t.old).names top caller p) }
{
    let o = u32::from(top);
    put_half(t, o, caller);
    put_half(t, o + 2, p);
}

// An actual by its number: where its text begins, its parts and its levels.
pub fn put_actual(t: &mut [u8], top: u16, i: u16, place: u16, parts: u16, levels: u8)
    ensures { Puts t.old t.new (actual_in (beside t.old).names (top + 4 + i * 4) place parts levels) }
{
    let o = u32::from(top) + 4 + u32::from(i) * 4;
    put_byte(t, o, (place % 256) as u8);
    put_byte(t, o + 1, (place / 256 % 32 + parts % 8 * 32) as u8);
    put_byte(t, o + 2, (parts / 8 % 256) as u8);
    put_byte(t, o + 3, levels);
}

// Whether the bytes between two places are zero.
pub fn clean(t: &[u8], from: u16, to: u16) -> bool
    ensures { result ≡ zero_from (beside t.now).names from (to - from) }
{
    for i in from..to {
        if area::byte_at(t, u32::from(i)) != 0 {
            return false;
        }
    }
    true
}

// They are made zero.
pub fn clear(t: &mut [u8], from: u16, to: u16)
    ensures { Puts t.old t.new (wiped (beside t.old).names from (to - from)) }
{
    for i in from..to {
        put_byte(t, u32::from(i), 0);
    }
}
