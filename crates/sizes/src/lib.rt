// The sizes of an expression under open calls: its parts and its levels, with each formal counted as its frame says. No actual is read again.
#![tactic(auto)]

ghost use Rattle.std.specs.Prelude.{◌≤◌};
ghost use Rattle.std.proofs.Math.ListN.{get_elem?};
ghost use Rattle.language.specs.Grammar.{binding};
ghost use Rattle.hand.specs.Along.{Near};
ghost use Rattle.tiers.specs.declared.How.TheVariants.{Operand, Between};
ghost use Rattle.tiers.specs.Choose.{IsHow};
ghost use Rattle.sizes.specs.Counts.{Ready, Sizes};

// s, t and u stay parameters: the contracts name `s.now` and `t.now` of each, and a struct of them would only stand before these names.

use frames::Under;
use hand::Here;
use tiers::{How, OperandRow};

pub mod counts;
mod single;

// The word behind an expression, and its parts and levels, counted no further than one too many.
#[derive(Clone, Copy)]
pub struct Extent {
    pub word: Here,
    pub parts: u16,
    pub levels: u8,
}

// An expression from the word `first` on, with so many levels left.
pub fn sized(s: &[u8], t: &[u8], u: Under, first: Here, levels: u8) -> Extent
    requires { Near s.now first × (levels ≤ 32) }
    ensures { Sizes s.now t.now u 0 levels first result }
{
    expr(s, t, u, 0, first, levels)
}

// .. of the operators that bind at `tier` or higher.
#[cycle(between_expr_operand)]
fn expr(s: &[u8], t: &[u8], u: Under, tier: u8, first: Here, levels: u8) -> Extent
    requires { Ready s.now tier levels first }
    ensures { Sizes s.now t.now u tier levels first result }
{
    match tiers::strength_at(tier) {
        How::Before(op) => {
            if first.kind != op {
                return expr(s, t, u, tier + 1, first, levels);
            }
            if levels == 0 {
                return counts::leaf(first);
            }
            let inner = hand::word_from(s, first.next);
            let g = expr(s, t, u, tier, inner, levels - 1);
            counts::over(g.word, g)
        }
        How::Between => between(s, t, u, tier, first, levels),
        How::Operand => operand(s, t, u, tier, first, levels),
    }
}

// An operand, and those that operators of this strength join to it, from left to right.
#[cycle(between_expr_operand)]
fn between(s: &[u8], t: &[u8], u: Under, tier: u8, first: Here, levels: u8) -> Extent
    requires { Ready s.now tier levels first × IsHow (get_elem? binding tier) Between }
    ensures { Sizes s.now t.now u tier levels first result }
{
    let mut left = expr(s, t, u, tier + 1, first, levels);
    loop {
        if tiers::strength_of(left.word.kind) != Some(tier) {
            return left;
        }
        let v = hand::word_from(s, left.word.next);
        let right = expr(s, t, u, tier + 1, v, levels);
        left = counts::joined(left, right);
    }
}

// An operand.
#[cycle(between_expr_operand)]
fn operand(s: &[u8], t: &[u8], u: Under, tier: u8, first: Here, levels: u8) -> Extent
    requires { Ready s.now tier levels first × IsHow (get_elem? binding tier) Operand }
    ensures { Sizes s.now t.now u tier levels first result }
{
    match tiers::operand_row(first.kind) {
        None => counts::leaf(first),
        Some(OperandRow::Name) => single::name(s, t, u, first),
        Some(OperandRow::Number) => counts::leaf(hand::word_from(s, first.next)),
        Some(OperandRow::Truth(_)) => counts::leaf(hand::word_from(s, first.next)),
        Some(OperandRow::Open) => {
            if levels == 0 {
                return counts::leaf(first);
            }
            let second = hand::word_from(s, first.next);
            let g = expr(s, t, u, 0, second, levels - 1);
            counts::inside(hand::word_from(s, g.word.next), g)
        }
        Some(OperandRow::Int) => {
            if levels == 0 {
                return counts::leaf(first);
            }
            let second = hand::word_from(s, first.next);
            let third = hand::word_from(s, second.next);
            let g = expr(s, t, u, 0, third, levels - 1);
            counts::over(hand::word_from(s, g.word.next), g)
        }
    }
}
