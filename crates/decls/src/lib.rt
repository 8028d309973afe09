// Declarations read from a text: an entry a declared name and a row a procedure in lent bytes, and what is noted of them.
#![tactic(auto)]

ghost use Rattle.std.specs.Prelude.{◌≡◌, ◌≤◌, length};
ghost use Rattle.decls.specs.Came.{Ready, OutputsCame, EnterCame, Came};

use hand::Here;
use names::{Item, Kind, Marks, enter};
use words::kinds;

mod rows;
mod step;

// Where a reader of declarations is: at a name of a list of one kind, or with no list behind them.
#[derive(Clone, Copy)]
pub struct At {
    pub list: Option<Kind>,
    pub word: Here,
}

// An initial value, and the word behind it.
#[derive(Clone, Copy)]
pub struct Started {
    pub word: Here,
    pub value: u16,
}

// A declared name, and the word behind all that belongs to it.
#[derive(Clone, Copy)]
pub struct Named {
    pub item: Item,
    pub word: Here,
}

// A declared name, and where the next one is.
#[derive(Clone, Copy)]
pub struct Turn {
    pub item: Item,
    pub at: At,
}

// The marks of all declarations, how many are procedures, and the word behind them.
#[derive(Clone, Copy)]
pub struct Read {
    pub marks: Marks,
    pub procedures: u16,
    pub word: Here,
}

// How many outputs are left, up to 255.
fn outputs(s: &[u8], first: At) -> u8
    requires { Ready s.now first }
    ensures { OutputsCame s.now first result }
{
    let mut at = first;
    let mut n: u8 = 0;
    loop {
        let Some(kind) = at.list else {
            return n;
        };
        if at.word.kind != kinds::NAME {
            return n;
        }
        let t = step::step(s, kind, at.word);
        n = enter::counted(n, t.item.kind, Kind::Output);
        at = t.at;
    }
}

// All that is left entered.
fn enter_all(s: &[u8], t: &mut [u8], first: At, marks: Marks) -> Read
    requires { Ready s.now first × (16384 ≤ length t.old) × (marks.names ≡ 0) }
    ensures { EnterCame s.now first marks t.old t.new result }
{
    let mut at = first;
    let mut m = marks;
    let mut n: u16 = 0;
    loop {
        let here = Read {
            marks: m,
            procedures: n,
            word: at.word,
        };
        let Some(kind) = at.list else {
            return here;
        };
        if at.word.kind != kinds::NAME {
            return here;
        }
        let x = step::step(s, kind, at.word);
        match x.item.kind {
            Kind::Procedure => {
                m = rows::procedure_in(s, t, m, n, x.item);
                n += 1;
            }
            _ => m = rows::variable_in(s, t, m, n, x.item),
        }
        at = x.at;
    }
}

// The declarations of a text that is a program.
pub fn declared(s: &[u8], t: &mut [u8]) -> Read
    requires { (length s.now ≤ 8192) × (16384 ≤ length t.old) }
    ensures { Came s.now t.old t.new result }
{
    let first = step::begin(s);
    let low = outputs(s, first);
    enter_all(s, t, first, enter::start_marks(low))
}
