// The ends of an expression: its parts written, and what is noted of them.
ghost use Rattle.std.specs.Prelude.{◌≡◌, true, false, List, ℕ, ◌+◌, ◌*◌, ◌/◌, ◌%◌, ◌≤◌, length, set};
ghost use Rattle.names.specs.Came.{variable_of};
ghost use Rattle.parts.specs.Sum.{put_part, sum_of, leaf_sum, name_sum, bit_sum, around_sum, join_sum};

use crate::{Got, Notes, found, marks, operators};
use hand::Here;
use names::Variable;

// A number in two bytes, the low one first.
pub fn put_half(t: &mut [u8], o: usize, x: u16)
    requires { o + 2 ≤ length t.old }
    ensures { t.new ≡ set (set t.old o (x % 256)) (o + 1) (x / 256) }
{
    t[o..o + 2].copy_from_slice(&x.to_le_bytes());
}

// One part, where it fits. What it is is the number of its first byte, as the definition put_part takes it: an enum would be turned back into it here, and nowhere read.
#[tactic(auto, unfolding(crate::specs::Sum::put_part))]
fn put_part(t: &mut [u8], i: u16, kind: u8, c: u8, p: u16, a: u16, b: u16)
    ensures { t.new ≡ put_part t.old i kind c p a b }
{
    if i >= 1024 {
        return;
    }
    let at = 8192 + usize::from(i) * 8;
    if at + 8 > t.len() {
        return;
    }
    t[at] = kind;
    t[at + 1] = c;
    put_half(t, at + 2, p);
    put_half(t, at + 4, a);
    put_half(t, at + 6, b);
}

// Nothing was read: no program has this.
pub fn nothing(h: Here, n: Notes) -> Got
    ensures { result.word ≡ h }
{
    Got {
        word: h,
        notes: n,
        root: 0,
        truth: false,
        size: 0,
        looks: 0,
    }
}

// A literal.
#[tactic(auto, unfolding(crate::specs::Sum::leaf_sum))]
pub fn leaf(
    t: &mut [u8],
    n: Notes,
    kind: u8,
    x: u16,
    p: u16,
    truth: bool,
    size: u32,
    word: Here,
) -> Got
    ensures { (result.word ≡ word) × (sum_of result t.new ≡ leaf_sum n t.old kind x p truth size) }
{
    let i = n.parts;
    put_part(t, i, kind, 0, p, x, 0);
    Got {
        word,
        notes: marks::counted(n, p),
        root: i,
        truth,
        size,
        looks: 0,
    }
}

// `!` or `int` around what was read.
#[tactic(auto, unfolding(crate::specs::Sum::around_sum))]
fn around(
    t: &mut [u8],
    n: Notes,
    kind: u8,
    p: u16,
    word: Here,
    g: Got,
    truth: bool,
    size: u32,
) -> Got
    ensures { (result.word ≡ word) × (sum_of result t.new ≡ around_sum n (sum_of g t.old) kind p truth size) }
{
    put_part(t, n.parts, kind, 0, p, g.root, 0);
    Got {
        word,
        notes: marks::at_seven(g.notes, !g.truth, p),
        root: n.parts,
        truth,
        size,
        ..g
    }
}

pub fn negated(t: &mut [u8], n: Notes, p: u16, g: Got) -> Got
    ensures { (result.word ≡ g.word) × (sum_of result t.new ≡ around_sum n (sum_of g t.old) 7 p true 0) }
{
    around(t, n, 7, p, g.word, g, true, 0)
}

pub fn int_of(t: &mut [u8], n: Notes, p: u16, word: Here, g: Got) -> Got
    ensures { (result.word ≡ word) × (sum_of result t.new ≡ around_sum n (sum_of g t.old) 8 p false 1) }
{
    around(t, n, 8, p, word, g, false, 1)
}

// The same, up to a later word.
pub fn behind(word: Here, g: Got) -> Got
    ensures { (result.word ≡ word) × ((u : List ℕ) → sum_of result u ≡ sum_of g u) }
{
    Got { word, ..g }
}

// An operator at p between two operands.
#[tactic(auto, unfolding(crate::specs::Sum::join_sum, crate::specs::Sum::truth_at))]
pub fn joined(t: &mut [u8], kind: u8, p: u16, a: Got, b: Got) -> Got
    ensures { (result.word ≡ b.word) × ((u : List ℕ) → sum_of result t.new ≡ join_sum kind p (sum_of a u) (sum_of b t.old)) }
{
    let i = a.notes.parts;
    let size = operators::size(kind, a.size, b.size);
    let fine = operators::fine(kind, a.truth, b.truth);
    put_part(
        t,
        i,
        operators::group(kind),
        operators::order(kind),
        p,
        a.root,
        b.root,
    );
    let n = marks::at_seven(b.notes, !fine, p);
    Got {
        word: b.word,
        notes: marks::at_ten(n, size > 2147483647, p),
        root: i,
        truth: kind < 21,
        size,
        looks: a.looks | b.looks,
    }
}

// A name.
pub fn named(t: &mut [u8], n: Notes, p: u16, v: Option<Variable>, word: Here) -> Got
    ensures { (result.word ≡ word) × (sum_of result t.new ≡ name_sum n t.old (variable_of v) p) }
{
    let i = n.parts;
    put_part(
        t,
        i,
        found::kind_of(v),
        found::width_of(v),
        p,
        found::number_of(v),
        0,
    );
    Got {
        word,
        notes: marks::at_six(marks::counted(n, p), found::unknown(v), p),
        root: i,
        truth: found::truth_of(v),
        size: found::size_of(v),
        looks: found::looks_of(v),
    }
}

// A bit of a name.
pub fn indexed(t: &mut [u8], n: Notes, p: u16, v: Option<Variable>, j: u16, word: Here) -> Got
    ensures { (result.word ≡ word) × (sum_of result t.new ≡ bit_sum n t.old (variable_of v) p j) }
{
    let i = n.parts;
    put_part(t, i, 6, found::width_of(v), p, found::number_of(v), j);
    let m = marks::at_six(marks::counted(n, p), found::unknown(v), p);
    Got {
        word,
        notes: marks::at_seven(m, !found::has_bit(v, j), p),
        root: i,
        truth: true,
        size: 0,
        looks: 0,
    }
}
