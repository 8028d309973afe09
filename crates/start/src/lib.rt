// A statement, a list, cases and branches run from their start over the buffer o.
// The calls go down a tree and count no index: each contract says what the definition of that part says, and a loop would
// repeat it as its invariant. i, e, left and b differ from call to call and the contracts name each: a struct of them would be
// built anew at every call.
#![tactic(auto)]

ghost use Rattle.std.specs.Prelude.{◌≡◌, ◌+◌, ◌-◌, ◌*◌, ◌<◌, ◌≤◌};
ghost use Rattle.meaning.specs.Clock.{start, start_all, start_cases, start_each, activities, activities_all, activities_cases, activities_sum};
ghost use Rattle.nodes.specs.Layout.{what_at, width_at, looks_at};
ghost use Rattle.nodes.specs.declared.What.TheVariants.{Choice};
ghost use Rattle.nodes.specs.Decode.{list_at, stmt_at, cases_at, branches_at};
ghost use Rattle.nodes.specs.Good.{Good, GoodAll, GoodCases, GoodEach};
ghost use Rattle.value.specs.Read.{reads};
ghost use Rattle.runs.specs.Buffer.{Open, Comes, Joins};
ghost use Rattle.runs.specs.Seen.{start_seen, start_all_seen, start_cases_seen, start_each_seen};

use nodes::{Among, Tree, What};
use runs::{Buffer, How};
use value::Reads;

// The statement i, which ends at e; its first activity is b.
#[cycle(branches_cases_choice_list_one)]
pub fn one(t: &Tree, r: Reads, i: u16, e: u16, left: u16, b: u16, o: &mut Buffer) -> How
    requires { Good (width_at t.now) (looks_at t.now) (stmt_at left t.now i e) × ((i < e) × ((3 * (e - i) ≤ left + 1) × ((b + activities (stmt_at left t.now i e) ≤ 8) × Open o.old b))) }
    ensures { Comes (start (stmt_at left t.now i e) (reads r)) (start_seen (stmt_at left t.now i e) (reads r)) b o.old o.new result }
{
    let less = left - 1;
    let n = nodes::node_at(t, i);
    match n.what {
        What::Skip | What::Case(_, _) => o.tried(0, 0),
        What::Delay(_, d) => waits::delay(o, b, i, d as u8),
        What::Change(c, v) => waits::change_bit(o, r.word, c, v),
        What::Assign(v, x) => waits::assign(t, r, i, v, x, o),
        What::Choice(x, m) => choice(t, r, i, e, x, m, left, b, o),
        What::While(x) => {
            if waits::holds(t, r, i, x, o) {
                let h = list(t, r, i + 1, e, less, b, o);
                o.looped(b, i, h)
            } else {
                How::Finished
            }
        }
        What::Loop => {
            let h = list(t, r, i + 1, e, less, b, o);
            o.looped(b, i, h)
        }
        What::Exit => How::Exit,
        What::Break => How::Break,
        What::Switch => cases(t, r, i + 1, e, less, b, o).caught(),
        What::Parallel => { branches(t, r, i + 1, e, less, b, b, How::Finished, 0, 0, o).caught() }
    }
}

// The choice i, which ends at e: its test is x, its first list ends at m.
#[cycle(branches_cases_choice_list_one)]
fn choice(
    t: &Tree,
    r: Reads,
    i: u16,
    e: u16,
    x: u16,
    m: u16,
    left: u16,
    b: u16,
    o: &mut Buffer,
) -> How
    requires { (what_at t.now i ≡ Choice x m) × (Good (width_at t.now) (looks_at t.now) (stmt_at left t.now i e) × ((i < e) × ((3 * (e - i) ≤ left + 1) × ((b + activities (stmt_at left t.now i e) ≤ 8) × Open o.old b)))) }
    ensures { Comes (start (stmt_at left t.now i e) (reads r)) (start_seen (stmt_at left t.now i e) (reads r)) b o.old o.new result }
{
    let less = left - 1;
    let k = nodes::kept(m, i, e);
    if waits::holds(t, r, i, x, o) {
        list(t, r, i + 1, k, less, b, o)
    } else {
        list(t, r, k, e, less, b, o)
    }
}

// The list from i to e.
#[cycle(branches_cases_choice_list_one)]
pub fn list(t: &Tree, r: Reads, i: u16, e: u16, left: u16, b: u16, o: &mut Buffer) -> How
    requires { GoodAll (width_at t.now) (looks_at t.now) (list_at left t.now i e) × ((3 * (e - i) ≤ left) × ((b + activities_all (list_at left t.now i e) ≤ 8) × Open o.old b)) }
    ensures { Comes (start_all (list_at left t.now i e) (reads r)) (start_all_seen (list_at left t.now i e) (reads r)) b o.old o.new result }
{
    if e <= i {
        return How::Finished;
    }
    let less = left - 1;
    let m = nodes::end_at(t, i, e);
    match one(t, r, i, m, less, b, o) {
        How::Finished => list(t, r, m, e, less, b, o),
        h => o.then_at(b, m, e, h),
    }
}

// The cases from i to e.
#[cycle(branches_cases_choice_list_one)]
pub fn cases(t: &Tree, r: Reads, i: u16, e: u16, left: u16, b: u16, o: &mut Buffer) -> How
    requires { GoodCases (width_at t.now) (looks_at t.now) (cases_at left t.now i e) × ((3 * (e - i) < left) × ((b + activities_cases (cases_at left t.now i e) ≤ 8) × Open o.old b)) }
    ensures { Comes (start_cases (cases_at left t.now i e) (reads r)) (start_cases_seen (cases_at left t.now i e) (reads r)) b o.old o.new result }
{
    if e <= i {
        return How::Finished;
    }
    let less = left - 1;
    match nodes::among_at(t, i) {
        Among::Default => list(t, r, i, e, less, b, o),
        Among::Test(x, m) => {
            let k = nodes::kept(m, i, e);
            if !waits::holds(t, r, i, x, o) {
                return cases(t, r, k, e, less, b, o);
            }
            match list(t, r, i + 1, k, less, b, o) {
                How::Finished => cases(t, r, k, e, less, b, o),
                h => o.then_at(b, k, e, h),
            }
        }
    }
}

// The branches from i to e of a parallel whose first activity is base, after those that ended as how.
#[cycle(branches_cases_choice_list_one)]
fn branches(
    t: &Tree,
    r: Reads,
    i: u16,
    e: u16,
    left: u16,
    b: u16,
    base: u16,
    how: How,
    ones: u32,
    zeros: u32,
    o: &mut Buffer,
) -> How
    requires { GoodEach (width_at t.now) (looks_at t.now) (branches_at left t.now i e) × ((3 * (e - i) < left) × ((b + activities_sum (branches_at left t.now i e) ≤ 8) × ((base ≤ b) × Open o.old b))) }
    ensures { Joins base how ones zeros b (start_each (branches_at left t.now i e) (reads r)) (start_each_seen (branches_at left t.now i e) (reads r)) o.old o.new result }
{
    if e <= i {
        return o.closed(how, ones, zeros);
    }
    let less = left - 1;
    let m = nodes::branch_end_at(t, i, e);
    let h = list(t, r, i, m, less, b, o);
    if h.is_jump() {
        o.wipe(base);
        return h;
    }
    let a = b + u16::from(nodes::width_at(t, i));
    let so = how.later(h);
    let on = h.gathered(ones, o.ones);
    let off = h.gathered(zeros, o.zeros);
    branches(t, r, m, e, less, a, base, so, on, off, o)
}
