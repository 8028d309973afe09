// The two tables of the grammar: its rows, and where the row begins that a word calls for.
#![tactic(auto)]

ghost use Rattle.std.specs.Prelude.{◌≡◌};
ghost use Rattle.grammar_law.specs.Tables.{rows};
ghost use Rattle.grammar_law.specs.Starts.{starts};
ghost use Rattle.tables.specs.Laying.{Called, Filled};

mod calls;
mod rows;

// How many bytes the rows have, and how many cells the table of starts has.
pub const ROW_BYTES: usize = rows::LENGTH;

pub const CELLS: usize = calls::CELLS;

pub type Rows = [u8; ROW_BYTES];

pub type Starts = [u16; CELLS];

type Calls = [u16; calls::COUNT];

// Puts in where each row begins that a word calls for.
fn fill(t: &mut Starts, called: &Calls, places: &Calls)
    requires { Called t.old called.now places.now }
    ensures { Filled called.now places.now t.old t.new }
{
    for (at, place) in called.iter().zip(places) {
        t[usize::from(*at)] = *place;
    }
}

// The rows.
pub fn all_rows() -> Rows
    ensures { result ≡ rows }
{
    rows::ROWS
}

// The table of starts.
pub fn all_starts() -> Starts
    ensures { result ≡ starts }
{
    let called = calls::CALLED;
    let places = calls::PLACES;
    let mut t = [0u16; CELLS];
    fill(&mut t, &called, &places);
    t
}
