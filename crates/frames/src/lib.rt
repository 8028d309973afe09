// The calls that are open while a body is read: their frames, and the procedures that can be called, in the bytes behind the tree.
#![tactic(auto)]

ghost use Rattle.std.specs.Prelude.{◌≡◌};
ghost use Rattle.frames_law.specs.Frames.{told_at};

pub mod area;
pub mod find;
pub mod follow;
pub mod list;
pub mod put;

// `at` stays a number: `told_at` of frames_law/specs/Frames compares it with `no_place`, and `own` of told_law/proofs/Whole is on it.
// Under which call a text is read: the place told (65,535: the word's own), the frame, how many calls are open, how many procedures can be called, and where the next frame is written.
#[derive(Clone, Copy)]
pub struct Under {
    pub at: u16,
    pub frame: u16,
    pub depth: u16,
    pub seen: u16,
    pub top: u16,
}

// The parts and the levels of an actual, counted no further than one too many.
#[derive(Clone, Copy)]
pub struct Sizes {
    pub parts: u16,
    pub levels: u8,
}

// What a name stands for where it is changed or indexed: a name from a to b, bit j of it, or neither.
#[derive(Clone, Copy)]
pub enum Meant {
    Name { a: u16, b: u16 },
    Bit { a: u16, b: u16, j: u16 },
    Neither,
}

// P9: the place told under u, the outermost call's or the word's own.
#[tactic(auto, unfolding(frames_law::specs::Frames::told_at))]
pub fn told(u: Under, p: u16) -> u16
    ensures { result ≡ told_at u.at p }
{
    if u.at < 65535 { u.at } else { p }
}
