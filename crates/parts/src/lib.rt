// The parts of expressions: what is noted of them while they are read, and how they are written into lent bytes.
#![tactic(auto)]

pub mod found;
pub mod leaves;
pub mod marks;
mod operators;
pub mod seen;

use hand::Here;

// The least place of each fault so far (65,535: none), and how many parts there are. No Option: a place of none is above every other, so that the least of two is `min`.
#[derive(Clone, Copy)]
pub struct Notes {
    pub six: u16,
    pub seven: u16,
    pub nine: u16,
    pub ten: u16,
    pub parts: u16,
}

// What was read: the word behind it, the notes, the number of its part, whether it is a truth, its worst size, and the input bits that it reads.
#[derive(Clone, Copy)]
pub struct Got {
    pub word: Here,
    pub notes: Notes,
    pub root: u16,
    pub truth: bool,
    pub size: u32,
    pub looks: u8,
}
