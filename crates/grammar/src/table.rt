// The two tables of the grammar, read at any place.
ghost use Rattle.std.specs.Prelude.{◌≡◌, ◌-◌, ◌≤◌, length, get_or};
ghost use Rattle.ll1.specs.Rows.{first_part, start_of};
ghost use Rattle.grammar_law.specs.Tables.{row_bytes, cell_count};

use tables::{Rows, Starts};

// A symbol below this is a kind of word, this opens a level, the next closes one, and all behind it are parts.
pub const OPENING: u8 = 126;

pub const CLOSING: u8 = 127;

// The byte of the rows at a place; 0 past their end.
pub fn symbol_at(rows: &Rows, p: usize) -> u8
    requires { length rows.now ≤ row_bytes }
    ensures { result ≡ get_or rows.now p 0 }
{
    rows.get(p).copied().unwrap_or(0)
}

// Where the row of part b begins that a word of kind t calls for; 0 where there is none, as the table and `start_of` have it.
pub fn start_at(starts: &Starts, b: u8, t: u8) -> u16
    requires { (first_part ≤ b) × (length starts.now ≤ cell_count) }
    ensures { result ≡ start_of starts.now (b - first_part) t }
{
    if t >= 128 {
        return 0;
    }
    let at = (usize::from(b) - 128) * 128 + usize::from(t);
    starts.get(at).copied().unwrap_or(0)
}
