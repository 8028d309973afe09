// The tiers of an expression: how the operators of each strength stand; and which row of an operand or a statement a word calls for, by the number of its kind.
#![tactic(auto)]

ghost use Rattle.std.specs.Prelude.{◌≡◌};
ghost use Rattle.std.proofs.Math.ListN.{get_elem?};
ghost use Rattle.language.specs.Grammar.{binding};
ghost use Rattle.tiers.specs.Choose.{IsHow, operand_row, operand_number, strength_of, strength_number, statement_row, statement_number};

use words::kinds;

mod strengths;

// The operators of a strength: none, those between operands, or one before its operand.
#[derive(Clone, Copy)]
pub enum How {
    Operand,
    Between,
    Before(u8),
}

// What an operand begins with.
#[derive(Clone, Copy, PartialEq, Eq)]
pub enum OperandRow {
    Name,
    Number,
    Truth(bool),
    Int,
    Open,
}

// What a statement with no statement inside begins with, where that is no name.
#[derive(Clone, Copy, PartialEq, Eq)]
pub enum PlainRow {
    Skip,
    Delay,
    Raise,
    Lower,
    Invert,
    Exit,
    Break,
}

// What a statement with statements inside begins with.
#[derive(Clone, Copy, PartialEq, Eq)]
pub enum AroundRow {
    If,
    While,
    Loop,
    Switch,
    Parallel,
}

// What a statement begins with.
#[derive(Clone, Copy, PartialEq, Eq)]
pub enum StatementRow {
    Plain(PlainRow),
    Name,
    Around(AroundRow),
}

// How the operators of a strength stand.
#[tactic(auto, using(crate::proofs::Small::no_strength), unfolding(language::specs::Grammar::binding))]
pub fn strength_at(tier: u8) -> How
    ensures { IsHow (get_elem? binding tier) result }
{
    match tier {
        0 | 1 | 2 | 4 | 5 => How::Between,
        3 => How::Before(kinds::NOT),
        _ => How::Operand,
    }
}

// The row of an operand.
#[tactic(auto, unfolding(crate::specs::Choose::operand_row))]
pub fn operand_row(kind: u8) -> Option<OperandRow>
    ensures { operand_number result ≡ operand_row kind }
{
    match kind {
        kinds::NAME => Some(OperandRow::Name),
        kinds::NUMBER => Some(OperandRow::Number),
        kinds::TRUE => Some(OperandRow::Truth(true)),
        kinds::FALSE => Some(OperandRow::Truth(false)),
        kinds::INT => Some(OperandRow::Int),
        kinds::OPEN => Some(OperandRow::Open),
        _ => None,
    }
}

// The strength of an operator between its operands.
pub fn strength_of(kind: u8) -> Option<u8>
    ensures { (strength_number result ≡ strength_of kind) × ¬ (result ≡ Some 255) }
{
    let tier = *strengths::STRENGTHS.get(usize::from(kind))?;
    if tier == 255 { None } else { Some(tier) }
}

// The row of the statement that begins with a word of this kind.
#[tactic(auto, unfolding(crate::specs::Choose::statement_row))]
pub fn statement_row(kind: u8) -> Option<StatementRow>
    ensures { statement_number result ≡ statement_row kind }
{
    match kind {
        kinds::SKIP => Some(StatementRow::Plain(PlainRow::Skip)),
        kinds::DELAY => Some(StatementRow::Plain(PlainRow::Delay)),
        kinds::RAISE => Some(StatementRow::Plain(PlainRow::Raise)),
        kinds::LOWER => Some(StatementRow::Plain(PlainRow::Lower)),
        kinds::INVERT => Some(StatementRow::Plain(PlainRow::Invert)),
        kinds::EXIT => Some(StatementRow::Plain(PlainRow::Exit)),
        kinds::BREAK => Some(StatementRow::Plain(PlainRow::Break)),
        kinds::NAME => Some(StatementRow::Name),
        kinds::IF => Some(StatementRow::Around(AroundRow::If)),
        kinds::WHILE => Some(StatementRow::Around(AroundRow::While)),
        kinds::LOOP => Some(StatementRow::Around(AroundRow::Loop)),
        kinds::SWITCH => Some(StatementRow::Around(AroundRow::Switch)),
        kinds::PARALLEL => Some(StatementRow::Around(AroundRow::Parallel)),
        _ => None,
    }
}
