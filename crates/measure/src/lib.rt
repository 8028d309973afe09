// Statements counted under open calls: whether an outermost call passes a size, and its activities. Nothing is noted or written but frames, and those are cleared.
#![tactic(auto)]

ghost use Rattle.std.specs.Prelude.{◌≡◌, ℕ, ◌≤◌, ◌<◌};
ghost use Rattle.hand.specs.Along.{Near, Begins};
ghost use Rattle.parts.specs.Beside.{beside};
ghost use Rattle.measure.specs.Counted.{Ready, RowCame, One, All, CaseCame, CasesCame, BranchCame, BranchesCame, under_call, MeasuredCame};

// s, t, u, levels and around stay parameters: every contract compares `t.old` with `t.new` under `u`, and a struct of them, built anew where u or levels changes, would only stand before each of these names.

use frames::{Under, put};
use hand::Here;
use tally::Tally;
use tiers::{AroundRow, StatementRow};
use words::kinds;

mod single;

// The word behind what was read, and what is counted up to there.
#[derive(Clone, Copy)]
pub struct Counted {
    pub word: Here,
    pub tally: Tally,
}

// A statement, from its first word on, with so many levels left, and so many open around in the expansion.
#[cycle(branch_branches_call_cases_choice_list_loop_always_named_one_case_parallel_stmt_switch_while_loop)]
fn stmt(s: &[u8], t: &mut [u8], u: Under, first: Here, m: Tally, levels: u8, around: u8) -> Counted
    requires { Ready s.now levels first }
    ensures { One s.now (beside t.old).names u levels around first m t.old t.new result }
{
    match tiers::statement_row(first.kind) {
        None => single::made(first, m),
        Some(StatementRow::Plain(row)) => single::plain(s, row, first, m, around),
        Some(StatementRow::Name) => named(s, t, u, first, m, levels, around),
        Some(StatementRow::Around(row)) => {
            if levels == 0 {
                return single::made(first, m);
            }
            match row {
                AroundRow::If => choice(s, t, u, first, m, levels, around),
                AroundRow::While => while_loop(s, t, u, first, m, levels, around),
                AroundRow::Loop => loop_always(s, t, u, first, m, levels, around),
                AroundRow::Switch => switch(s, t, u, first, m, levels, around),
                AroundRow::Parallel => parallel(s, t, u, first, m, levels, around),
            }
        }
    }
}

// A statement that begins with a name: a call, or an assignment.
#[cycle(branch_branches_call_cases_choice_list_loop_always_named_one_case_parallel_stmt_switch_while_loop)]
fn named(s: &[u8], t: &mut [u8], u: Under, first: Here, m: Tally, levels: u8, around: u8) -> Counted
    requires { Ready s.now levels first }
    ensures { RowCame s.now (beside t.old).names u levels around 5 first m t.old t.new result }
{
    let after = hand::word_from(s, first.next);
    if after.kind == kinds::OPEN {
        return call(s, t, u, first, after, m, around);
    }
    single::assign(s, t, u, first, after, m, levels, around)
}

// A call, `after` the `(` behind its name: its body is read, unless one statement more is too many.
#[cycle(branch_branches_call_cases_choice_list_loop_always_named_one_case_parallel_stmt_switch_while_loop)]
fn call(s: &[u8], t: &mut [u8], u: Under, first: Here, after: Here, m: Tally, around: u8) -> Counted
    requires { Near s.now first × Begins s.now first.next after × (after.kind ≡ 14) }
    ensures { (k : ℕ) → k ≤ 32 → RowCame s.now (beside t.old).names u k around 5 first m t.old t.new result }
{
    if m.none_left() {
        let h = calls::actuals::hand_over(s, t, u, after.next, 0);
        return single::made(hand::word_from(s, h.word.next), m.full());
    }
    let e = calls::enter(s, t, u, first);
    let Some(inside) = e.expanded else {
        return single::made(e.word, m.begun());
    };
    let a = list(s, t, inside.under, inside.body, m, 32, around);
    put::clear(t, u.top, inside.under.top);
    single::made(e.word, a.tally)
}

// `loop`.
#[cycle(branch_branches_call_cases_choice_list_loop_always_named_one_case_parallel_stmt_switch_while_loop)]
fn loop_always(
    s: &[u8],
    t: &mut [u8],
    u: Under,
    first: Here,
    m: Tally,
    levels: u8,
    around: u8,
) -> Counted
    requires { (0 < levels) × Ready s.now levels first }
    ensures { RowCame s.now (beside t.old).names u levels around 8 first m t.old t.new result }
{
    let inner = sizes::counts::deeper(around);
    let k = m.begun().deep(inner, 0);
    let second = hand::word_from(s, first.next);
    let a = list(s, t, u, second, k, levels - 1, inner);
    single::made(hand::word_from(s, a.word.next), a.tally)
}

// `while`.
#[cycle(branch_branches_call_cases_choice_list_loop_always_named_one_case_parallel_stmt_switch_while_loop)]
fn while_loop(
    s: &[u8],
    t: &mut [u8],
    u: Under,
    first: Here,
    m: Tally,
    levels: u8,
    around: u8,
) -> Counted
    requires { (0 < levels) × Ready s.now levels first }
    ensures { RowCame s.now (beside t.old).names u levels around 7 first m t.old t.new result }
{
    let inner = sizes::counts::deeper(around);
    let k = m.begun().deep(inner, 0);
    let second = hand::word_from(s, first.next);
    let below = levels - 1;
    let g = single::test(s, t, u, second, k, below, inner);
    let body = hand::word_from(s, g.word.next);
    let a = list(s, t, u, body, g.tally, below, inner);
    single::made(hand::word_from(s, a.word.next), a.tally)
}

// `if`, with or without `else`.
#[cycle(branch_branches_call_cases_choice_list_loop_always_named_one_case_parallel_stmt_switch_while_loop)]
fn choice(
    s: &[u8],
    t: &mut [u8],
    u: Under,
    first: Here,
    m: Tally,
    levels: u8,
    around: u8,
) -> Counted
    requires { (0 < levels) × Ready s.now levels first }
    ensures { RowCame s.now (beside t.old).names u levels around 6 first m t.old t.new result }
{
    let inner = sizes::counts::deeper(around);
    let k = m.begun().deep(inner, 0);
    let second = hand::word_from(s, first.next);
    let below = levels - 1;
    let g = single::test(s, t, u, second, k, below, inner);
    let a = list(s, t, u, g.word, g.tally, below, inner);
    let next = hand::word_from(s, a.word.next);
    if a.word.kind != kinds::ELSE {
        return single::made(next, a.tally);
    }
    let b = list(s, t, u, next, a.tally, below, inner);
    single::made(hand::word_from(s, b.word.next), b.tally)
}

// `switch`: a case, the cases behind it, and the default.
#[cycle(branch_branches_call_cases_choice_list_loop_always_named_one_case_parallel_stmt_switch_while_loop)]
fn switch(
    s: &[u8],
    t: &mut [u8],
    u: Under,
    first: Here,
    m: Tally,
    levels: u8,
    around: u8,
) -> Counted
    requires { (0 < levels) × Ready s.now levels first }
    ensures { RowCame s.now (beside t.old).names u levels around 10 first m t.old t.new result }
{
    let inner = sizes::counts::deeper(around);
    let k = m.begun().deep(inner, 0);
    let second = hand::word_from(s, first.next);
    let below = levels - 1;
    let a = one_case(s, t, u, second, k, below, inner);
    let c = cases(s, t, u, a.word, a.tally, below, inner);
    let colon = hand::word_from(s, c.word.next);
    let last = hand::word_from(s, colon.next);
    let z = list(s, t, u, last, c.tally, below, inner);
    single::made(hand::word_from(s, z.word.next), z.tally)
}

// `parallel`: two branches, and those behind them.
#[cycle(branch_branches_call_cases_choice_list_loop_always_named_one_case_parallel_stmt_switch_while_loop)]
fn parallel(
    s: &[u8],
    t: &mut [u8],
    u: Under,
    first: Here,
    m: Tally,
    levels: u8,
    around: u8,
) -> Counted
    requires { (0 < levels) × Ready s.now levels first }
    ensures { RowCame s.now (beside t.old).names u levels around 12 first m t.old t.new result }
{
    let inner = sizes::counts::deeper(around);
    let k = m.begun().deep(inner, 0);
    let o = k.with_acts(0);
    let second = hand::word_from(s, first.next);
    let below = levels - 1;
    let a = branch(s, t, u, second, o, below, inner);
    let other = hand::word_from(s, a.word.next);
    let b = branch(s, t, u, other, a.tally, below, inner);
    let c = branches(s, t, u, b.word, b.tally, below, inner);
    single::made(hand::word_from(s, c.word.next), c.tally.together(m.acts))
}

// A list of statements.
#[cycle(branch_branches_call_cases_choice_list_loop_always_named_one_case_parallel_stmt_switch_while_loop)]
fn list(s: &[u8], t: &mut [u8], u: Under, first: Here, m: Tally, levels: u8, around: u8) -> Counted
    requires { Ready s.now levels first }
    ensures { All s.now (beside t.old).names u levels around first m t.old t.new result }
{
    let mut at = stmt(s, t, u, first, m, levels, around);
    while at.word.kind == kinds::SEMICOLON {
        let v = hand::word_from(s, at.word.next);
        if tiers::statement_row(v.kind).is_none() {
            return single::made(v, at.tally);
        }
        at = stmt(s, t, u, v, at.tally, levels, around);
    }
    at
}

// A case, from its first word on.
#[cycle(branch_branches_call_cases_choice_list_loop_always_named_one_case_parallel_stmt_switch_while_loop)]
fn one_case(
    s: &[u8],
    t: &mut [u8],
    u: Under,
    first: Here,
    m: Tally,
    levels: u8,
    around: u8,
) -> Counted
    requires { Ready s.now levels first }
    ensures { CaseCame s.now (beside t.old).names u levels around first m t.old t.new result }
{
    let second = hand::word_from(s, first.next);
    let g = single::test(s, t, u, second, m, levels, around);
    list(s, t, u, g.word, g.tally, levels, around)
}

// Cases, as long as there are any.
#[cycle(branch_branches_call_cases_choice_list_loop_always_named_one_case_parallel_stmt_switch_while_loop)]
fn cases(s: &[u8], t: &mut [u8], u: Under, first: Here, m: Tally, levels: u8, around: u8) -> Counted
    requires { Ready s.now levels first }
    ensures { CasesCame s.now (beside t.old).names u levels around first m t.old t.new result }
{
    let mut at = single::made(first, m);
    while at.word.kind == kinds::CASE {
        at = one_case(s, t, u, at.word, at.tally, levels, around);
    }
    at
}

// A branch: its activities are counted from 1, and added to those before it.
#[cycle(branch_branches_call_cases_choice_list_loop_always_named_one_case_parallel_stmt_switch_while_loop)]
fn branch(
    s: &[u8],
    t: &mut [u8],
    u: Under,
    first: Here,
    m: Tally,
    levels: u8,
    around: u8,
) -> Counted
    requires { Ready s.now levels first }
    ensures { BranchCame s.now (beside t.old).names u levels around first m t.old t.new result }
{
    let a = list(s, t, u, first, m.with_acts(1), levels, around);
    single::made(a.word, a.tally.summed(m.acts))
}

// Branches, as long as there are any.
#[cycle(branch_branches_call_cases_choice_list_loop_always_named_one_case_parallel_stmt_switch_while_loop)]
fn branches(
    s: &[u8],
    t: &mut [u8],
    u: Under,
    first: Here,
    m: Tally,
    levels: u8,
    around: u8,
) -> Counted
    requires { Ready s.now levels first }
    ensures { BranchesCame s.now (beside t.old).names u levels around first m t.old t.new result }
{
    let mut at = single::made(first, m);
    while at.word.kind == kinds::BARS {
        let v = hand::word_from(s, at.word.next);
        at = branch(s, t, u, v, at.tally, levels, around);
    }
    at
}

// An outermost call: the word behind it, whether its expansion passes a size where it stands, and its activities, unless that has a statement or a part too many.
#[derive(Clone, Copy)]
pub struct Measured {
    pub word: Here,
    pub over: bool,
    pub acts: Option<u16>,
}

// P9: all that a call stands for is told at its place.
fn inside(u: Under, p: u16) -> Under
    ensures { result ≡ under_call u p }
{
    Under { at: p, ..u }
}

// An outermost call from its name on, in the program's own text, with so many levels open around (P12); `after` is the `(` behind the name.
pub fn outermost(s: &[u8], t: &mut [u8], u: Under, first: Here, after: Here, around: u8) -> Measured
    requires { Near s.now first × Begins s.now first.next after × (after.kind ≡ 14) × (around ≤ 32) }
    ensures { MeasuredCame s.now (beside t.old).names u around first t.old t.new result }
{
    let v = inside(u, first.place);
    let c = call(s, t, v, first, after, Tally::start(), around);
    let k = c.tally;
    Measured {
        word: c.word,
        over: k.over(),
        acts: (!k.passed).then_some(k.acts),
    }
}
