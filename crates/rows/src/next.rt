// The next numbers, 64 to a state.
ghost use Rattle.std.specs.Prelude.{◌≡◌, ◌<◌, length};
ghost use Rattle.rows.specs.Area.{most_rows, next_at, next_in};
ghost use Rattle.rows.specs.Nexts.{NextPut};

const NEXTS_AT: usize = 9728;

// The number of the next state from state i by input x.
pub fn read(area: &[u8], i: usize, x: usize) -> usize
    requires { next_at i x < length area.now }
    ensures { (result ≡ next_in area.now i x) × (result < most_rows) }
{
    let at = NEXTS_AT + 64 * i + x;
    usize::from(area[at])
}

// A byte holds v, which is below 256: `as`, since u8 has no From of a usize and TryFrom would add a case that never comes.
pub fn put(area: &mut [u8], i: usize, x: usize, v: usize)
    requires { (next_at i x < length area.old) × (x < 64) × (v < most_rows) }
    ensures { NextPut area.old i x v area.new }
{
    let at = NEXTS_AT + 64 * i + x;
    area[at] = v as u8;
}
