// A state's row: eight places of two bytes, eight bytes of clocks left, and the word.
ghost use Rattle.std.specs.Prelude.{◌≡◌, ◌+◌, ◌*◌, ◌≤◌, ◌<◌, length};
ghost use Rattle.rows.specs.Area.{row_at, row_in, SameRow, Changed};

use crate::bytes;
use clock::State;
use runs::Entry;

const ROWS_AT: usize = 2560;

const ROW: usize = 28;

// Whether row i is s.
pub fn same(area: &[u8], i: usize, s: State) -> bool
    requires { (row_at (i + 1) ≤ length area.now) × (length s.entries ≡ 8) }
    ensures { SameRow area.now i s result }
{
    let at = ROWS_AT + ROW * i;
    if bytes::full_at(area, at + 24) != s.word {
        return false;
    }
    for (e, x) in s.entries.iter().enumerate() {
        if bytes::half_at(area, at + 2 * e) != x.place || area[at + 16 + e] != x.left {
            return false;
        }
    }
    true
}

pub fn read(area: &[u8], i: usize) -> State
    requires { row_at (i + 1) ≤ length area.now }
    ensures { result ≡ row_in area.now i }
{
    let at = ROWS_AT + ROW * i;
    let mut entries = [Entry::NOWHERE; 8];
    for e in 0..8 {
        entries[e] = Entry {
            place: bytes::half_at(area, at + 2 * e),
            left: area[at + 16 + e],
        };
    }
    State {
        entries,
        word: bytes::full_at(area, at + 24),
    }
}

// The word of row i.
pub fn word(area: &[u8], i: usize) -> u32
    requires { row_at (i + 1) ≤ length area.now }
    ensures { result ≡ (row_in area.now i).word }
{
    bytes::full_at(area, ROWS_AT + ROW * i + 24)
}

pub fn put(area: &mut [u8], i: usize, s: State)
    requires { (row_at (i + 1) ≤ length area.old) × (length s.entries ≡ 8) }
    ensures { Changed (row_at i) (row_at (i + 1)) area.old area.new × (row_in area.new i ≡ s) }
{
    let at = ROWS_AT + ROW * i;
    for (e, x) in s.entries.iter().enumerate() {
        bytes::put_half(area, at + 2 * e, x.place);
        area[at + 16 + e] = x.left;
    }
    bytes::put_full(area, at + 24, s.word);
}
