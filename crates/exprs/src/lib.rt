// Expressions read from a text, by the tiers of the operators.
#![tactic(auto)]

ghost use Rattle.std.proofs.Math.ListN.{get_elem?};
ghost use Rattle.language.specs.Grammar.{binding};
ghost use Rattle.parts.specs.Beside.{beside};
ghost use Rattle.tiers.specs.declared.How.TheVariants.{Operand, Between};
ghost use Rattle.tiers.specs.Choose.{IsHow};
ghost use Rattle.exprs.specs.Came.{Ready, Named, CameUnder, PlainUnder};

use frames::{Under, find};
use hand::Here;
use parts::{Got, Notes, leaves, marks};
use tiers::{How, OperandRow};
use words::kinds;

mod single;

// What each reader is lent and given (s, count, t, u) stands in no struct: t is lent on from call to call, and the contracts name s.now, t.old and t.new each by itself.

// An expression of the operators that bind at `tier` or higher, from the word `first` on, with so many levels left.
#[cycle(between_expr_name_operand)]
pub fn expr(
    s: &[u8],
    count: u16,
    t: &mut [u8],
    u: Under,
    tier: u8,
    first: Here,
    notes: Notes,
    levels: u8,
) -> Got
    requires { Ready s.now (beside t.old) count tier levels first }
    ensures { CameUnder s.now (beside t.old).names count u tier levels first notes t.old t.new result }
{
    match tiers::strength_at(tier) {
        How::Before(op) => {
            if first.kind != op {
                return expr(s, count, t, u, tier + 1, first, notes, levels);
            }
            if levels == 0 {
                return leaves::nothing(first, notes);
            }
            let inner = hand::word_from(s, first.next);
            let p = frames::told(u, first.place);
            let n = marks::counted(notes, p);
            let g = expr(s, count, t, u, tier, inner, n, levels - 1);
            leaves::negated(t, notes, p, g)
        }
        How::Between => between(s, count, t, u, tier, first, notes, levels),
        How::Operand => operand(s, count, t, u, tier, first, notes, levels),
    }
}

// An operand, and those that operators of this strength join to it, from left to right; p is where the next operator would stand.
#[cycle(between_expr_name_operand)]
fn between(
    s: &[u8],
    count: u16,
    t: &mut [u8],
    u: Under,
    tier: u8,
    first: Here,
    notes: Notes,
    levels: u8,
) -> Got
    requires { Ready s.now (beside t.old) count tier levels first × IsHow (get_elem? binding tier) Between }
    ensures { CameUnder s.now (beside t.old).names count u tier levels first notes t.old t.new result }
{
    let mut left = expr(s, count, t, u, tier + 1, first, notes, levels);
    let mut p = left.word.place;
    loop {
        let w = left.word;
        let n = left.notes;
        if tiers::strength_of(w.kind) != Some(tier) {
            return left;
        }
        let v = hand::word_from(s, w.next);
        let at = frames::told(u, p);
        let m = marks::counted(n, at);
        let right = expr(s, count, t, u, tier + 1, v, m, levels);
        left = leaves::joined(t, w.kind, at, left, right);
        p = left.word.place;
    }
}

// An operand.
#[cycle(between_expr_name_operand)]
fn operand(
    s: &[u8],
    count: u16,
    t: &mut [u8],
    u: Under,
    tier: u8,
    first: Here,
    notes: Notes,
    levels: u8,
) -> Got
    requires { Ready s.now (beside t.old) count tier levels first × IsHow (get_elem? binding tier) Operand }
    ensures { CameUnder s.now (beside t.old).names count u tier levels first notes t.old t.new result }
{
    match tiers::operand_row(first.kind) {
        None => leaves::nothing(first, notes),
        Some(OperandRow::Name) => name(s, count, t, u, first, notes),
        Some(OperandRow::Number) => single::number(s, t, u, first, notes),
        Some(OperandRow::Truth(value)) => single::truth(s, t, u, value, first, notes),
        Some(OperandRow::Open) => {
            if levels == 0 {
                return leaves::nothing(first, notes);
            }
            let second = hand::word_from(s, first.next);
            let g = expr(s, count, t, u, 0, second, notes, levels - 1);
            leaves::behind(hand::word_from(s, g.word.next), g)
        }
        Some(OperandRow::Int) => {
            if levels == 0 {
                return leaves::nothing(first, notes);
            }
            let second = hand::word_from(s, first.next);
            let third = hand::word_from(s, second.next);
            let p = frames::told(u, first.place);
            let n = marks::counted(notes, p);
            let g = expr(s, count, t, u, 0, third, n, levels - 1);
            leaves::int_of(t, notes, p, hand::word_from(s, g.word.next), g)
        }
    }
}

// A name or a bit of it. A formal is read from the text of its actual, as its caller has it.
#[cycle(between_expr_name_operand)]
fn name(s: &[u8], count: u16, t: &mut [u8], u: Under, first: Here, notes: Notes) -> Got
    requires { Named s.now (beside t.old) count first }
    ensures { PlainUnder s.now (beside t.old).names count u 0 first notes t.old t.new result }
{
    let after = hand::word_from(s, first.next);
    if after.kind == kinds::LEFT {
        return single::bit(s, count, t, u, first, after, notes);
    }
    let Some(q) = find::formal(s, t, u, first.place, first.next) else {
        let v = parts::seen::find(s, t, count, first.place, first.next);
        return leaves::named(t, notes, frames::told(u, first.place), v, after);
    };
    if usize::from(q) > s.len() {
        return leaves::nothing(after, notes);
    }
    let around = find::caller(t, u);
    let g = expr(s, count, t, around, 0, hand::word_from(s, q), notes, 32);
    leaves::behind(after, g)
}
