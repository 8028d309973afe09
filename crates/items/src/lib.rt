// Statements as they are read: the structs, and the small steps of what is noted of them.
#![tactic(auto)]

ghost use Rattle.std.specs.Prelude.{◌≡◌};
ghost use Rattle.items.specs.Under.{inside_at};

use frames::Under;
use hand::Here;
use parts::Notes;

pub mod noted;
pub mod targets;

// The notes, the least place of fault 8 (65,535: none), the statements and the nodes so far, and the activities. No Option: a place of none is above every other, so that the least of two is `min`.
#[derive(Clone, Copy)]
pub struct Marks {
    pub notes: Notes,
    pub eight: u16,
    pub statements: u16,
    pub nodes: u16,
    pub acts: u8,
}

// What was read: the word behind it, and the marks.
#[derive(Clone, Copy)]
pub struct Read {
    pub word: Here,
    pub marks: Marks,
}

// A test: the word behind the one that ends it, the number of its part, and the input bits that it reads.
#[derive(Clone, Copy)]
pub struct Tried {
    pub word: Here,
    pub marks: Marks,
    pub root: u16,
    pub looks: u8,
}

pub fn made(word: Here, marks: Marks) -> Read
    ensures { (result.word ≡ word) × (result.marks ≡ marks) }
{
    Read { word, marks }
}

// Under which the call whose name stands at p is read.
pub fn inside(u: Under, p: u16) -> Under
    ensures { result ≡ inside_at u p }
{
    Under {
        at: frames::told(u, p),
        ..u
    }
}
