// Statements read from a text: what is noted of them, and their nodes written into lent bytes. A statement, a list, cases and branches, one in the other.
#![tactic(auto)]

ghost use Rattle.std.specs.Prelude.{Bool, true, false, ◌+◌, ◌*◌, ◌≤◌, ◌<◌, length};
ghost use Rattle.parts.specs.Beside.{beside};
ghost use Rattle.hand.specs.Along.{Near};
ghost use Rattle.items.specs.Walk.{start_marks};
ghost use Rattle.items.specs.Came.{Ready, RowCame, CallCame, OutermostCame, One, All, CaseCame, CasesCame, BranchCame, BranchesCame};

use frames::Under;
use hand::Here;
use items::{Marks, Read};
use tiers::{AroundRow, StatementRow};
use words::kinds;

// What each reader is lent and given (s, count, t, u, lp, br, levels) stands in no struct: t is lent on from call to call, lp, br and levels change one by one, and the contracts name s.now, t.old and t.new each by itself.

// A statement, from its first word on, with so many levels left; whether it stands inside a loop, and inside a switch or a parallel.
#[cycle(branch_branches_call_cases_choice_list_loop_always_named_one_case_outermost_parallel_stmt_switch_while_loop)]
fn stmt(
    s: &[u8],
    count: u16,
    t: &mut [u8],
    u: Under,
    first: Here,
    marks: Marks,
    lp: bool,
    br: bool,
    levels: u8,
) -> Read
    requires { Ready s.now (beside t.old) count levels first }
    ensures { One s.now (beside t.old).names count u levels lp br first marks t.old t.new result }
{
    match tiers::statement_row(first.kind) {
        None => items::made(first, marks),
        Some(StatementRow::Plain(row)) => {
            plain::plain(s, count, t, u, row, first, marks, lp, br, levels)
        }
        Some(StatementRow::Name) => named(s, count, t, u, first, marks, lp, br, levels),
        Some(StatementRow::Around(row)) => {
            if levels == 0 {
                return items::made(first, marks);
            }
            match row {
                AroundRow::If => choice(s, count, t, u, first, marks, lp, br, levels),
                AroundRow::While => while_loop(s, count, t, u, first, marks, br, levels),
                AroundRow::Loop => loop_always(s, count, t, u, first, marks, br, levels),
                AroundRow::Switch => switch(s, count, t, u, first, marks, lp, levels),
                AroundRow::Parallel => parallel(s, count, t, u, first, marks, lp, levels),
            }
        }
    }
}

// A statement that begins with a name: an assignment, or a call.
#[cycle(branch_branches_call_cases_choice_list_loop_always_named_one_case_outermost_parallel_stmt_switch_while_loop)]
fn named(
    s: &[u8],
    count: u16,
    t: &mut [u8],
    u: Under,
    first: Here,
    marks: Marks,
    lp: bool,
    br: bool,
    levels: u8,
) -> Read
    requires { Ready s.now (beside t.old) count levels first }
    ensures { RowCame s.now (beside t.old).names count u levels lp br 5 first marks t.old t.new result }
{
    let second = hand::word_from(s, first.next);
    if second.kind != kinds::OPEN {
        return plain::assign(s, count, t, u, first, second, marks, levels);
    }
    if u.at < 65535 {
        return call(s, count, t, u, first, marks, lp, br, levels);
    }
    outermost(s, count, t, u, first, marks, lp, br, levels)
}

// A call: what it stands for is read in its place; its frame is made zero again.
#[cycle(branch_branches_call_cases_choice_list_loop_always_named_one_case_outermost_parallel_stmt_switch_while_loop)]
fn call(
    s: &[u8],
    count: u16,
    t: &mut [u8],
    u: Under,
    first: Here,
    marks: Marks,
    lp: bool,
    br: bool,
    levels: u8,
) -> Read
    requires { Ready s.now (beside t.old) count levels first }
    ensures { CallCame s.now (beside t.old).names count u lp br first marks t.old t.new result }
{
    let e = calls::enter(s, t, u, first);
    let Some(inside) = e.expanded else {
        return plain::stays::refused(t, e.word, marks, u.at);
    };
    let r = list(s, count, t, inside.under, inside.body, marks, lp, br, 32);
    frames::put::clear(t, u.top, inside.under.top);
    items::made(e.word, r.marks)
}

// A call in the program's own text: read if it passes no size by itself (P13); the levels that it opens are told at its place.
#[cycle(branch_branches_call_cases_choice_list_loop_always_named_one_case_outermost_parallel_stmt_switch_while_loop)]
fn outermost(
    s: &[u8],
    count: u16,
    t: &mut [u8],
    u: Under,
    first: Here,
    marks: Marks,
    lp: bool,
    br: bool,
    levels: u8,
) -> Read
    requires { Ready s.now (beside t.old) count levels first }
    ensures { OutermostCame s.now (beside t.old).names count u levels lp br first marks t.old t.new result }
{
    let v = items::inside(u, first.place);
    let k = gauge::measure(s, t, v, 32 - levels, first);
    if k.over {
        return plain::stays::passing(t, k.word, marks, v.at, k.acts);
    }
    let r = call(s, count, t, v, first, marks, lp, br, levels);
    if k.deep {
        return items::made(k.word, items::noted::passing(r.marks, v.at));
    }
    r
}

// `loop`: its statements stand in a loop.
#[cycle(branch_branches_call_cases_choice_list_loop_always_named_one_case_outermost_parallel_stmt_switch_while_loop)]
fn loop_always(
    s: &[u8],
    count: u16,
    t: &mut [u8],
    u: Under,
    first: Here,
    marks: Marks,
    br: bool,
    levels: u8,
) -> Read
    requires { (0 < levels) × Ready s.now (beside t.old) count levels first }
    ensures { (l : Bool) → RowCame s.now (beside t.old).names count u levels l br 8 first marks t.old t.new result }
{
    let p = frames::told(u, first.place);
    let m = items::noted::begun(marks, p);
    let second = hand::word_from(s, first.next);
    let a = list(s, count, t, u, second, m, true, br, levels - 1);
    let next = hand::word_from(s, a.word.next);
    written::finish(t, marks.nodes, 8, p, next, a.marks, 0, 0, 0, 0)
}

// `while`: its statements stand in a loop.
#[cycle(branch_branches_call_cases_choice_list_loop_always_named_one_case_outermost_parallel_stmt_switch_while_loop)]
fn while_loop(
    s: &[u8],
    count: u16,
    t: &mut [u8],
    u: Under,
    first: Here,
    marks: Marks,
    br: bool,
    levels: u8,
) -> Read
    requires { (0 < levels) × Ready s.now (beside t.old) count levels first }
    ensures { (l : Bool) → RowCame s.now (beside t.old).names count u levels l br 7 first marks t.old t.new result }
{
    let i = marks.nodes;
    let p = frames::told(u, first.place);
    let m = items::noted::begun(marks, p);
    let second = hand::word_from(s, first.next);
    let below = levels - 1;
    let g = plain::test(s, count, t, u, second, m, p, below);
    let body = hand::word_from(s, g.word.next);
    let a = list(s, count, t, u, body, g.marks, true, br, below);
    let next = hand::word_from(s, a.word.next);
    written::finish(t, i, 7, p, next, a.marks, g.root, 0, u16::from(g.looks), 0)
}

// `if`, with or without `else`.
#[cycle(branch_branches_call_cases_choice_list_loop_always_named_one_case_outermost_parallel_stmt_switch_while_loop)]
fn choice(
    s: &[u8],
    count: u16,
    t: &mut [u8],
    u: Under,
    first: Here,
    marks: Marks,
    lp: bool,
    br: bool,
    levels: u8,
) -> Read
    requires { (0 < levels) × Ready s.now (beside t.old) count levels first }
    ensures { RowCame s.now (beside t.old).names count u levels lp br 6 first marks t.old t.new result }
{
    let i = marks.nodes;
    let p = frames::told(u, first.place);
    let m = items::noted::begun(marks, p);
    let second = hand::word_from(s, first.next);
    let below = levels - 1;
    let g = plain::test(s, count, t, u, second, m, p, below);
    let a = list(s, count, t, u, g.word, g.marks, lp, br, below);
    let j = a.marks.nodes;
    let next = hand::word_from(s, a.word.next);
    if a.word.kind != kinds::ELSE {
        return written::finish(t, i, 6, p, next, a.marks, g.root, j, u16::from(g.looks), 0);
    }
    let b = list(s, count, t, u, next, a.marks, lp, br, below);
    let end = hand::word_from(s, b.word.next);
    written::finish(t, i, 6, p, end, b.marks, g.root, j, u16::from(g.looks), 0)
}

// `switch`: a case, the cases behind it, and the default.
#[cycle(branch_branches_call_cases_choice_list_loop_always_named_one_case_outermost_parallel_stmt_switch_while_loop)]
fn switch(
    s: &[u8],
    count: u16,
    t: &mut [u8],
    u: Under,
    first: Here,
    marks: Marks,
    lp: bool,
    levels: u8,
) -> Read
    requires { (0 < levels) × Ready s.now (beside t.old) count levels first }
    ensures { (b : Bool) → RowCame s.now (beside t.old).names count u levels lp b 10 first marks t.old t.new result }
{
    let p = frames::told(u, first.place);
    let m = items::noted::begun(marks, p);
    let second = hand::word_from(s, first.next);
    let below = levels - 1;
    let a = one_case(s, count, t, u, second, m, lp, below);
    let c = cases(s, count, t, u, a.word, a.marks, lp, below);
    let colon = hand::word_from(s, c.word.next);
    let last = hand::word_from(s, colon.next);
    let z = list(s, count, t, u, last, c.marks, lp, true, below);
    let next = hand::word_from(s, z.word.next);
    written::finish(t, marks.nodes, 11, p, next, z.marks, 0, 0, 0, 0)
}

// `parallel`: two branches, and those behind them.
#[cycle(branch_branches_call_cases_choice_list_loop_always_named_one_case_outermost_parallel_stmt_switch_while_loop)]
fn parallel(
    s: &[u8],
    count: u16,
    t: &mut [u8],
    u: Under,
    first: Here,
    marks: Marks,
    lp: bool,
    levels: u8,
) -> Read
    requires { (0 < levels) × Ready s.now (beside t.old) count levels first }
    ensures { (b : Bool) → RowCame s.now (beside t.old).names count u levels lp b 12 first marks t.old t.new result }
{
    let p = frames::told(u, first.place);
    let m = items::noted::begun(marks, p);
    let second = hand::word_from(s, first.next);
    let below = levels - 1;
    let o = items::noted::with_acts(m, 0);
    let a = branch(s, count, t, u, second, o, lp, below);
    let other = hand::word_from(s, a.word.next);
    let b = branch(s, count, t, u, other, a.marks, lp, below);
    let c = branches(s, count, t, u, b.word, b.marks, lp, below);
    let next = hand::word_from(s, c.word.next);
    let n = items::noted::together(c.marks, marks.acts, p);
    written::finish(t, marks.nodes, 12, p, next, n, 0, 0, 0, 0)
}

// A list of statements.
#[cycle(branch_branches_call_cases_choice_list_loop_always_named_one_case_outermost_parallel_stmt_switch_while_loop)]
pub fn list(
    s: &[u8],
    count: u16,
    t: &mut [u8],
    u: Under,
    first: Here,
    marks: Marks,
    lp: bool,
    br: bool,
    levels: u8,
) -> Read
    requires { Ready s.now (beside t.old) count levels first }
    ensures { All s.now (beside t.old).names count u levels lp br first marks t.old t.new result }
{
    let mut at = stmt(s, count, t, u, first, marks, lp, br, levels);
    loop {
        if at.word.kind != kinds::SEMICOLON {
            return at;
        }
        let v = hand::word_from(s, at.word.next);
        if tiers::statement_row(v.kind).is_none() {
            return items::made(v, at.marks);
        }
        at = stmt(s, count, t, u, v, at.marks, lp, br, levels);
    }
}

// A case, from its first word on.
#[cycle(branch_branches_call_cases_choice_list_loop_always_named_one_case_outermost_parallel_stmt_switch_while_loop)]
fn one_case(
    s: &[u8],
    count: u16,
    t: &mut [u8],
    u: Under,
    first: Here,
    marks: Marks,
    lp: bool,
    levels: u8,
) -> Read
    requires { Ready s.now (beside t.old) count levels first }
    ensures { CaseCame s.now (beside t.old).names count u levels lp true first marks t.old t.new result }
{
    let i = marks.nodes;
    let p = frames::told(u, first.place);
    let m = items::noted::cased(marks);
    let second = hand::word_from(s, first.next);
    let g = plain::test(s, count, t, u, second, m, p, levels);
    let a = list(s, count, t, u, g.word, g.marks, lp, true, levels);
    let j = a.marks.nodes;
    written::finish(
        t,
        i,
        13,
        p,
        a.word,
        a.marks,
        g.root,
        j,
        u16::from(g.looks),
        0,
    )
}

// Cases, as long as there are any.
#[cycle(branch_branches_call_cases_choice_list_loop_always_named_one_case_outermost_parallel_stmt_switch_while_loop)]
fn cases(
    s: &[u8],
    count: u16,
    t: &mut [u8],
    u: Under,
    first: Here,
    marks: Marks,
    lp: bool,
    levels: u8,
) -> Read
    requires { Ready s.now (beside t.old) count levels first }
    ensures { CasesCame s.now (beside t.old).names count u levels lp true first marks t.old t.new result }
{
    let mut at = items::made(first, marks);
    loop {
        if at.word.kind != kinds::CASE {
            return at;
        }
        at = one_case(s, count, t, u, at.word, at.marks, lp, levels);
    }
}

// A branch: its activities are counted from 1, and added to those before it.
#[cycle(branch_branches_call_cases_choice_list_loop_always_named_one_case_outermost_parallel_stmt_switch_while_loop)]
fn branch(
    s: &[u8],
    count: u16,
    t: &mut [u8],
    u: Under,
    first: Here,
    marks: Marks,
    lp: bool,
    levels: u8,
) -> Read
    requires { Ready s.now (beside t.old) count levels first }
    ensures { BranchCame s.now (beside t.old).names count u levels lp first marks t.old t.new result }
{
    let m = items::noted::with_acts(marks, 1);
    let a = list(s, count, t, u, first, m, lp, true, levels);
    written::branched(t, marks, a)
}

// Branches, as long as there are any.
#[cycle(branch_branches_call_cases_choice_list_loop_always_named_one_case_outermost_parallel_stmt_switch_while_loop)]
fn branches(
    s: &[u8],
    count: u16,
    t: &mut [u8],
    u: Under,
    first: Here,
    marks: Marks,
    lp: bool,
    levels: u8,
) -> Read
    requires { Ready s.now (beside t.old) count levels first }
    ensures { BranchesCame s.now (beside t.old).names count u levels lp first marks t.old t.new result }
{
    let mut at = items::made(first, marks);
    loop {
        if at.word.kind != kinds::BARS {
            return at;
        }
        let v = hand::word_from(s, at.word.next);
        at = branch(s, count, t, u, v, at.marks, lp, levels);
    }
}

// The statements of a program, which stand in no loop, switch or parallel, with 32 levels.
pub fn body(s: &[u8], count: u16, t: &mut [u8], u: Under, first: Here) -> Read
    requires { Near s.now first × (16384 + count * 4 ≤ length t.old) }
    ensures { All s.now (beside t.old).names count u 32 false false first start_marks t.old t.new result }
{
    list(
        s,
        count,
        t,
        u,
        first,
        items::noted::start(),
        false,
        false,
        32,
    )
}
