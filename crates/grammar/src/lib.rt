// Is a text a program? Refusals 3, 4 and 5, with their places.
#![tactic(auto)]

ghost use Rattle.std.specs.Prelude.{◌≡◌, ◌≤◌, length, Err};
ghost use Rattle.ll1.specs.Rows.{row};
ghost use Rattle.grammar_law.specs.Codes.{codes};
ghost use Rattle.language.specs.Texts.{most_bytes};
ghost use Rattle.grammar.specs.Meaning.{Fault, Says};
ghost use Rattle.grammar.specs.Reading.{Left, Stands, Serves, Turned, Ready, Meets};

use refusals::{Cause, Refusal};
use tables::{Rows, Starts};
use words::Next;

mod table;

// "Source 8,192 bytes"
const MOST_BYTES: usize = 8192;

// "levels 32"
const MOST_LEVELS: u8 = 32;

// The word to be read next: its kind's number in the rows (0 where the words end, as `code_of` and the rows have it), how many words stand before it, its place, and the place behind it.
#[derive(Clone, Copy)]
struct Here {
    kind: u8,
    number: usize,
    place: usize,
    next: usize,
}

// What a symbol of a row calls for: the row has ended; the word may not stand there; it is read; a level opens or closes, with so many left;
// the row of a part, the last of its own; or the row of a part, and then the rest of its own.
#[derive(Clone, Copy)]
enum Turn {
    End,
    Stop,
    Word,
    Level(u8),
    Last(usize),
    Call(usize),
}

// The word from a place on, or kind 0 where the words end: at the text's end, or at a 4.
fn word_from(s: &[u8], from: usize, number: usize) -> Here
    requires { Left s.now from number }
    ensures { Stands s.now result × (result.number ≡ number) }
{
    match words::next_word(s, from) {
        Next::Found(w) => Here {
            kind: w.kind + 1,
            number,
            place: w.start,
            next: w.end,
        },
        Next::Stops(e) => Here {
            kind: 0,
            number,
            place: e,
            next: from,
        },
        Next::Over => Here {
            kind: 0,
            number,
            place: s.len(),
            next: from,
        },
    }
}

// What the symbol at p of the rows calls for, before a word of this kind, with k levels left.
fn next_turn(rows: &Rows, starts: &Starts, p: usize, kind: u8, k: u8) -> Turn
    requires { Serves rows.now starts.now p k }
    ensures { Turned rows.now starts.now p kind k result }
{
    let b = table::symbol_at(rows, p);
    match b {
        0 => Turn::End,
        1..table::OPENING => { if kind == b { Turn::Word } else { Turn::Stop } }
        table::OPENING => match k {
            0 => Turn::Stop,
            _ => Turn::Level(k - 1),
        },
        table::CLOSING => Turn::Level(k + 1),
        _ => {
            let q = usize::from(table::start_at(starts, b, kind));
            if q == 0 {
                Turn::Stop
            } else if table::symbol_at(rows, p + 1) == 0 {
                Turn::Last(q)
            } else {
                Turn::Call(q)
            }
        }
    }
}

// Reads the row at a place from the word `first` on, with so many levels left: the word where it was left, after its end or before. Its stack is bounded: a row's last part is read in the same call,
// so 16 * levels + the calls that the row needs before a level opens falls with each call. The start has 16 * 32 + 9: 522 calls at most stand
// open, of 240 bytes on x86-64.
fn read(
    rows: &Rows,
    starts: &Starts,
    s: &[u8],
    at: usize,
    first: Here,
    levels: u8,
) -> Result<Here, Here>
    requires { Ready rows.now starts.now s.now at first levels }
    ensures { Meets (row codes rows.now at) s.now first levels result }
{
    let mut p = at;
    let mut w = first;
    let mut k = levels;
    loop {
        match next_turn(rows, starts, p, w.kind, k) {
            Turn::End => return Ok(w),
            Turn::Stop => return Err(w),
            Turn::Word => {
                w = word_from(s, w.next, w.number + 1);
                p += 1;
            }
            Turn::Level(left) => {
                k = left;
                p += 1;
            }
            Turn::Last(row) => p = row,
            Turn::Call(row) => {
                w = read(rows, starts, s, row, w, k)?;
                p += 1;
            }
        }
    }
}

// The refusal of a text with fault 5 at a word: a 4 wins, and it can only stand behind that word.
fn refusal(text: &[u8], w: Here) -> Refusal<u32>
    requires { Fault text.now w.place w.next }
    ensures { Says text.now (Err result) }
{
    match words::stop_from(text, w.next) {
        Some(e) => Refusal {
            cause: Cause::NoWord,
            place: e as u32,
        },
        None => Refusal {
            cause: Cause::NoProgram,
            place: w.place as u32,
        },
    }
}

// Refusals 4 and 5: the words are met once, up to the first of them.
fn read_all(text: &[u8]) -> Result<(), Refusal<u32>>
    requires { length text.now ≤ most_bytes }
    ensures { Says text.now result }
{
    let rows = tables::all_rows();
    let starts = tables::all_starts();
    let first = word_from(text, 0, 0);
    match read(&rows, &starts, text, 1, first, MOST_LEVELS) {
        Ok(w) if w.place == text.len() => Ok(()),
        Ok(w) => Err(refusal(text, w)),
        Err(w) => Err(refusal(text, w)),
    }
}

// Whether any text is a program: 3 for more than 8,192 bytes, a 4 anywhere before any 5.
pub fn check(text: &[u8]) -> Result<(), Refusal<u32>>
    ensures { Says text.now result }
{
    if text.len() > MOST_BYTES {
        return Err(Refusal {
            cause: Cause::TooLong,
            place: 0,
        });
    }
    read_all(text)
}
