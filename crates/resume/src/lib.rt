// A statement, a list, cases and branches run over the buffer o from where their activities stand.
// The calls go down a tree and count no index, and each parameter is named apart, as in start.
#![tactic(auto)]

ghost use Rattle.std.specs.Prelude.{◌≡◌, ◌+◌, ◌-◌, ◌*◌, ◌<◌, ◌≤◌, eqb, length};
ghost use Rattle.meaning.specs.Clock.{resume, resume_all, resume_cases, resume_each, activities, activities_all, activities_cases, activities_sum};
ghost use Rattle.nodes.specs.Layout.{what_at, shape_of, width_at, looks_at};
ghost use Rattle.nodes.specs.Decode.{list_at, stmt_at, cases_at, branches_at};
ghost use Rattle.nodes.specs.Good.{Good, GoodAll, GoodCases, GoodEach};
ghost use Rattle.nodes.specs.Ready.{Leaves};
ghost use Rattle.value.specs.Read.{reads};
ghost use Rattle.runs.specs.Run.{window};
ghost use Rattle.runs.specs.Buffer.{Open, Comes, Joins};
ghost use Rattle.runs.specs.Seen.{resume_seen, resume_all_seen, resume_cases_seen, resume_each_seen};
ghost use Rattle.resume.specs.Stand.{head_shape, resumed_as, Stand};

use nodes::{Among, Shape, Tree};
use runs::{Buffer, Entry, How};
use value::Reads;

// A statement that stands at its head starts, but for a delay.
fn head_shape(s: Shape) -> Shape
    ensures { result ≡ head_shape s }
{
    match s {
        Shape::Waiting(d) => Shape::Waiting(d),
        _ => Shape::Plain,
    }
}

// How the statement i is resumed where m is the least number of an activity. The test comes first: the match then jumps once.
fn shape_from(t: &Tree, i: u16, m: u16) -> Shape
    ensures { result ≡ resumed_as (eqb m i) (shape_of (what_at t.now i)) }
{
    if m == i {
        head_shape(nodes::shape_at(t, i))
    } else {
        nodes::shape_at(t, i)
    }
}

// The statement i, which ends at e. The least number from i on where an activity stands is m, below e.
#[cycle(branches_cases_list_one)]
fn one(
    t: &Tree,
    r: Reads,
    i: u16,
    e: u16,
    left: u16,
    b: u16,
    w: u16,
    m: u16,
    old: &[Entry; 8],
    o: &mut Buffer,
) -> How
    requires { Good (width_at t.now) (looks_at t.now) (stmt_at left t.now i e) × ((m < e) × ((3 * (e - i) ≤ left + 1) × Stand t.now old.now o.old b w i m (activities (stmt_at left t.now i e)))) }
    ensures { Comes (resume (stmt_at left t.now i e) (window old.now b w) (reads r)) (resume_seen (stmt_at left t.now i e) (window old.now b w) (reads r)) b o.old o.new result }
{
    let less = left - 1;
    match shape_from(t, i, m) {
        Shape::Plain => start::one(t, r, i, e, left, b, o),
        Shape::Waiting(d) => waits::delay(o, b, i, runs::left_of(old, b, d as u8)),
        Shape::Either(a) => {
            let k = nodes::kept(a, i, e);
            if m < k {
                list(t, r, i + 1, k, less, b, w, m, old, o)
            } else {
                list(t, r, k, e, less, b, w, m, old, o)
            }
        }
        Shape::Repeat => match list(t, r, i + 1, e, less, b, w, m, old, o) {
            How::Finished => start::one(t, r, i, e, left, b, o),
            h => o.looped(b, i, h),
        },
        Shape::Tests => cases(t, r, i + 1, e, less, b, w, m, old, o).caught(),
        Shape::Together => {
            let none = How::Finished;
            branches(t, r, i + 1, e, less, b, w, b, none, 0, 0, old, o).caught()
        }
    }
}

// The list from i to e. The least number from i on where an activity stands is m.
#[cycle(branches_cases_list_one)]
pub fn list(
    t: &Tree,
    r: Reads,
    i: u16,
    e: u16,
    left: u16,
    b: u16,
    w: u16,
    m: u16,
    old: &[Entry; 8],
    o: &mut Buffer,
) -> How
    requires { GoodAll (width_at t.now) (looks_at t.now) (list_at left t.now i e) × ((3 * (e - i) ≤ left) × Stand t.now old.now o.old b w i m (activities_all (list_at left t.now i e))) }
    ensures { Comes (resume_all (list_at left t.now i e) (window old.now b w) (reads r)) (resume_all_seen (list_at left t.now i e) (window old.now b w) (reads r)) b o.old o.new result }
{
    if e <= m {
        return How::Finished;
    }
    let less = left - 1;
    let k = nodes::end_at(t, i, e);
    if k <= m {
        return list(t, r, k, e, less, b, w, m, old, o);
    }
    match one(t, r, i, k, less, b, w, m, old, o) {
        How::Finished => start::list(t, r, k, e, less, b, o),
        h => o.then_at(b, k, e, h),
    }
}

// The cases from i to e. The least number from i on where an activity stands is m, below e.
#[cycle(branches_cases_list_one)]
fn cases(
    t: &Tree,
    r: Reads,
    i: u16,
    e: u16,
    left: u16,
    b: u16,
    w: u16,
    m: u16,
    old: &[Entry; 8],
    o: &mut Buffer,
) -> How
    requires { GoodCases (width_at t.now) (looks_at t.now) (cases_at left t.now i e) × ((m < e) × ((3 * (e - i) < left) × Stand t.now old.now o.old b w i m (activities_cases (cases_at left t.now i e)))) }
    ensures { Comes (resume_cases (cases_at left t.now i e) (window old.now b w) (reads r)) (resume_cases_seen (cases_at left t.now i e) (window old.now b w) (reads r)) b o.old o.new result }
{
    let less = left - 1;
    match nodes::among_at(t, i) {
        Among::Default => list(t, r, i, e, less, b, w, m, old, o),
        Among::Test(_, n) => {
            if m == i {
                return start::cases(t, r, i, e, left, b, o);
            }
            let k = nodes::kept(n, i, e);
            if k <= m {
                return cases(t, r, k, e, less, b, w, m, old, o);
            }
            match list(t, r, i + 1, k, less, b, w, m, old, o) {
                How::Finished => start::cases(t, r, k, e, less, b, o),
                h => o.then_at(b, k, e, h),
            }
        }
    }
}

// The branches from i to e of a parallel whose first activity is base, after those that ended as how.
#[cycle(branches_cases_list_one)]
fn branches(
    t: &Tree,
    r: Reads,
    i: u16,
    e: u16,
    left: u16,
    b: u16,
    w: u16,
    base: u16,
    how: How,
    ones: u32,
    zeros: u32,
    old: &[Entry; 8],
    o: &mut Buffer,
) -> How
    requires { GoodEach (width_at t.now) (looks_at t.now) (branches_at left t.now i e) × ((3 * (e - i) < left) × ((b + w ≤ 8) × ((activities_sum (branches_at left t.now i e) ≤ w) × ((base ≤ b) × (Open o.old b × (Leaves t.now × (length old.now ≡ 8))))))) }
    ensures { Joins base how ones zeros b (resume_each (branches_at left t.now i e) (window old.now b w) (reads r)) (resume_each_seen (branches_at left t.now i e) (window old.now b w) (reads r)) o.old o.new result }
{
    if e <= i {
        return o.closed(how, ones, zeros);
    }
    let less = left - 1;
    let k = nodes::branch_end_at(t, i, e);
    let wide = u16::from(nodes::width_at(t, i));
    // As a bound that no statement reaches u16::MAX needs no case of its own, and an Option would.
    let m = runs::least_at(old, b, wide, i, u16::MAX);
    let h = list(t, r, i, k, less, b, wide, m, old, o);
    if h.is_jump() {
        o.wipe(base);
        return h;
    }
    let a = b + wide;
    let v = w - wide;
    let so = how.later(h);
    let on = h.gathered(ones, o.ones);
    let off = h.gathered(zeros, o.zeros);
    branches(t, r, k, e, less, a, v, base, so, on, off, old, o)
}
