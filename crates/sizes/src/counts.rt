// Parts and levels counted, no further than one too many.
ghost use Rattle.std.specs.Prelude.{◌≡◌, ◌+◌, min};
ghost use Rattle.sizes.specs.Counts.{leaf_of, formal_of, over_of, inside_of, joined_of};

use crate::Extent;
use frames::Sizes;
use hand::Here;

// Two counts of parts, and one part more.
fn parts(a: u16, b: u16) -> u16
    ensures { result ≡ min (a + b + 1) 1025 }
{
    a.saturating_add(b).saturating_add(1).min(1025)
}

// One level more.
pub fn deeper(levels: u8) -> u8
    ensures { result ≡ min (levels + 1) 33 }
{
    levels.saturating_add(1).min(33)
}

// One part.
pub fn leaf(word: Here) -> Extent
    ensures { result ≡ leaf_of word }
{
    Extent {
        word,
        parts: 1,
        levels: 0,
    }
}

// A formal: what its actual has, a level deeper.
pub fn formal(word: Here, z: Sizes) -> Extent
    ensures { result ≡ formal_of word z }
{
    Extent {
        word,
        parts: z.parts,
        levels: deeper(z.levels),
    }
}

// A part and a level around what was read.
pub fn over(word: Here, g: Extent) -> Extent
    ensures { result ≡ over_of word g }
{
    Extent {
        word,
        parts: parts(g.parts, 0),
        levels: deeper(g.levels),
    }
}

// A level around it.
pub fn inside(word: Here, g: Extent) -> Extent
    ensures { result ≡ inside_of word g }
{
    Extent {
        word,
        parts: g.parts,
        levels: deeper(g.levels),
    }
}

// An operator between two operands.
pub fn joined(a: Extent, b: Extent) -> Extent
    ensures { result ≡ joined_of a b }
{
    Extent {
        word: b.word,
        parts: parts(a.parts, b.parts),
        levels: a.levels.max(b.levels),
    }
}
