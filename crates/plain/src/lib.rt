// Statements with no statement inside, and tests.
#![tactic(auto)]

ghost use Rattle.std.specs.Prelude.{◌≡◌, Bool, length, ◌+◌, ◌*◌, ◌≤◌, ◌<◌};
ghost use Rattle.hand.specs.Along.{Begins};
ghost use Rattle.parts.specs.Beside.{beside};
ghost use Rattle.tiers.specs.Choose.{plain_number};
ghost use Rattle.items.specs.Came.{Ready, TestCame, RowCame};
ghost use Rattle.plain.specs.Aim.{Changes};

use crate::aim::Aim;
use frames::Under;
use hand::Here;
use items::{Marks, Read, Tried};
use tiers::PlainRow;
use words::kinds;

mod aim;
pub mod stays;

// A test from its first word on, and the word behind it; a fault 7 is at p.
pub fn test(
    s: &[u8],
    count: u16,
    t: &mut [u8],
    u: Under,
    first: Here,
    marks: Marks,
    p: u16,
    levels: u8,
) -> Tried
    requires { Ready s.now (beside t.old) count levels first }
    ensures { TestCame s.now (beside t.old).names count u levels first marks p t.old t.new result }
{
    let g = exprs::expr(s, count, t, u, 0, first, marks.notes, levels);
    let after = hand::word_from(s, g.word.next);
    let m = items::noted::tested(marks, g, p);
    Tried {
        word: after,
        marks: m,
        root: g.root,
        looks: g.looks,
    }
}

// What is changed: the statement at p has begun with the node i, its name is told at q.
fn changed(
    s: &[u8],
    count: u16,
    t: &mut [u8],
    row: u8,
    i: u16,
    p: u16,
    q: u16,
    g: Aim,
    word: Here,
    marks: Marks,
) -> Read
    requires { 16384 + count * 4 ≤ length t.old }
    ensures { Changes s.now (beside t.old).names count row i p q g word marks t.old t.new result }
{
    let v = parts::seen::find(s, t, count, g.a, g.b);
    let low = parts::found::number_of(v);
    let width = items::targets::width_of(v);
    match g.bit {
        Some(j) => {
            let k = items::targets::bit_changed(marks, v, j, q);
            written::finish(t, i, row, p, word, k, low, width, j, 0)
        }
        None => {
            let k = items::targets::changed(marks, v, q, p);
            written::finish(t, i, row, p, word, k, low, width, 0, 0)
        }
    }
}

// `raise`, `lower`, `invert`: the nodes 2, 3 and 4.
fn change(
    s: &[u8],
    count: u16,
    t: &mut [u8],
    u: Under,
    row: u8,
    first: Here,
    marks: Marks,
    levels: u8,
) -> Read
    requires { (2 ≤ row) × (row < 5) × Ready s.now (beside t.old) count levels first }
    ensures { (l b : Bool) → RowCame s.now (beside t.old).names count u levels l b row first marks t.old t.new result }
{
    let i = marks.nodes;
    let p = frames::told(u, first.place);
    let m = items::noted::begun(marks, p);
    let open = hand::word_from(s, first.next);
    let name = hand::word_from(s, open.next);
    let q = frames::told(u, name.place);
    let v = frames::follow::meant(s, t, u, name.place, name.next);
    let after = hand::word_from(s, name.next);
    let second = hand::word_from(s, after.next);
    if after.kind != kinds::LEFT {
        let g = aim::whole_of(v);
        return changed(s, count, t, row, i, p, q, g, second, m);
    }
    let close = hand::word_from(s, second.next);
    let last = hand::word_from(s, close.next);
    let next = hand::word_from(s, last.next);
    let g = aim::part_of(v, second.value);
    changed(s, count, t, row, i, p, q, g, next, m)
}

// An assignment: the word behind its name is no `(`.
pub fn assign(
    s: &[u8],
    count: u16,
    t: &mut [u8],
    u: Under,
    first: Here,
    second: Here,
    marks: Marks,
    levels: u8,
) -> Read
    requires { (¬ (second.kind ≡ 14)) × Begins s.now first.next second × Ready s.now (beside t.old) count levels first }
    ensures { (l b : Bool) → RowCame s.now (beside t.old).names count u levels l b 5 first marks t.old t.new result }
{
    let i = marks.nodes;
    let p = frames::told(u, first.place);
    let m = items::noted::begun(marks, p);
    let to = aim::name_of(frames::follow::meant(s, t, u, first.place, first.next));
    let third = hand::word_from(s, second.next);
    let x = exprs::expr(s, count, t, u, 0, third, m.notes, levels);
    let v = parts::seen::find(s, t, count, to.a, to.b);
    let low = parts::found::number_of(v);
    let width = items::targets::width_of(v);
    let k = items::targets::assigned(m, x, v, p);
    written::finish(
        t,
        i,
        5,
        p,
        x.word,
        k,
        low,
        width,
        u16::from(x.looks),
        x.root,
    )
}

// A statement with no statement inside that does not begin with a name.
pub fn plain(
    s: &[u8],
    count: u16,
    t: &mut [u8],
    u: Under,
    row: PlainRow,
    first: Here,
    marks: Marks,
    lp: bool,
    br: bool,
    levels: u8,
) -> Read
    requires { Ready s.now (beside t.old) count levels first }
    ensures { RowCame s.now (beside t.old).names count u levels lp br (plain_number row) first marks t.old t.new result }
{
    let i = marks.nodes;
    let p = frames::told(u, first.place);
    let m = items::noted::begun(marks, p);
    let second = hand::word_from(s, first.next);
    match row {
        PlainRow::Skip => written::finish(t, i, 0, p, second, m, 0, 0, 0, 0),
        PlainRow::Delay => {
            let after = hand::word_from(s, second.next);
            let q = frames::told(u, second.place);
            let k = items::noted::delayed(m, second.value, q);
            written::finish(t, i, 1, p, after, k, q, second.value, 0, 0)
        }
        PlainRow::Raise => change(s, count, t, u, 2, first, marks, levels),
        PlainRow::Lower => change(s, count, t, u, 3, first, marks, levels),
        PlainRow::Invert => change(s, count, t, u, 4, first, marks, levels),
        PlainRow::Exit => {
            let k = items::noted::leaves(m, lp, p);
            written::finish(t, i, 9, p, second, k, 0, 0, 0, 0)
        }
        PlainRow::Break => {
            let k = items::noted::leaves(m, br, p);
            written::finish(t, i, 10, p, second, k, 0, 0, 0, 0)
        }
    }
}
