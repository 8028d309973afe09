// Nodes written into lent bytes when a statement or a branch ends.
#![tactic(auto)]

ghost use Rattle.std.specs.Prelude.{◌≡◌};
ghost use Rattle.items.specs.Walk.{put_node, put_branch, end_for};
ghost use Rattle.items.specs.Came.{Finished, Branched};

use hand::Here;
use items::{Marks, Read};
use parts::leaves::put_half;

// The node i, where it fits: what it is, its place, the number behind it, and four numbers. What it is is the number of its first byte, as the definition put_node takes it: an enum would be turned back into it here, and `end_for` alone asks for one.
#[tactic(auto, unfolding(items::specs::Walk::put_node, items::specs::Walk::set_half))]
fn put_node(t: &mut [u8], i: u16, kind: u8, p: u16, e: u16, a: u16, b: u16, c: u16, d: u16)
    ensures { t.new ≡ put_node t.old i kind p e a b c d }
{
    if i >= 512 {
        return;
    }
    let o = usize::from(i) * 16;
    if o + 16 > t.len() {
        return;
    }
    t[o] = kind;
    put_half(t, o + 2, p);
    put_half(t, o + 4, e);
    put_half(t, o + 8, a);
    put_half(t, o + 10, b);
    put_half(t, o + 12, c);
    put_half(t, o + 14, d);
}

// The branch that begins with the node i: its activities and the number behind it.
#[tactic(auto, unfolding(items::specs::Walk::put_branch, items::specs::Walk::set_half))]
fn put_branch(t: &mut [u8], i: u16, acts: u8, e: u16)
    ensures { t.new ≡ put_branch t.old i acts e }
{
    if i >= 512 {
        return;
    }
    let o = usize::from(i) * 16;
    if o + 16 > t.len() {
        return;
    }
    t[o + 1] = acts;
    put_half(t, o + 6, e);
}

// The number behind a node's own part: a case test has none.
#[tactic(auto, unfolding(items::specs::Walk::end_for))]
fn end_for(kind: u8, nodes: u16) -> u16
    ensures { result ≡ end_for kind nodes }
{
    if kind == 13 { 0 } else { nodes }
}

// A statement that ends: its node is i.
pub fn finish(
    t: &mut [u8],
    i: u16,
    kind: u8,
    p: u16,
    word: Here,
    marks: Marks,
    a: u16,
    b: u16,
    c: u16,
    d: u16,
) -> Read
    ensures { Finished i kind p a b c d word marks t.old t.new result }
{
    let e = end_for(kind, marks.nodes);
    put_node(t, i, kind, p, e, a, b, c, d);
    Read { word, marks }
}

// A branch that ends: it began with these marks.
pub fn branched(t: &mut [u8], marks: Marks, r: Read) -> Read
    ensures { Branched marks r t.old t.new result }
{
    let m = r.marks;
    put_branch(t, marks.nodes, m.acts, m.nodes);
    Read {
        marks: items::noted::with_acts(m, items::noted::summed(marks.acts, m.acts)),
        ..r
    }
}
