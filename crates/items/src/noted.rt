// What is counted and noted of statements.
ghost use Rattle.std.specs.Prelude.{◌≡◌, List, ℕ};
ghost use Rattle.parts.specs.Sum.{sum_of};
ghost use Rattle.items.specs.Walk as spec;
ghost use Rattle.items.specs.Under.{six_at, nine_at};

use crate::Marks;
use parts::{Got, Notes};

// The marks before the first statement.
pub fn start() -> Marks
    ensures { result ≡ spec.start_marks }
{
    Marks {
        notes: Notes {
            six: 65535,
            seven: 65535,
            nine: 65535,
            ten: 65535,
            parts: 0,
        },
        eight: 65535,
        statements: 0,
        nodes: 0,
        acts: 1,
    }
}

// The number of the next node, which stays at the last.
#[tactic(auto, unfolding(crate::specs::Walk::more))]
fn more(n: u16) -> u16
    ensures { result ≡ spec.more n }
{
    if n < 512 { n + 1 } else { n }
}

// A fault 9 at a place.
#[tactic(auto, unfolding(crate::specs::Walk::at_nine))]
pub fn at_nine(n: Notes, p: u16) -> Notes
    ensures { result ≡ spec.at_nine n p }
{
    Notes {
        nine: n.nine.min(p),
        ..n
    }
}

// P7: a call at p that is refused.
#[tactic(auto, unfolding(crate::specs::Walk::with_notes, parts::specs::Sum::at_six))]
pub fn refused(m: Marks, p: u16) -> Marks
    ensures { (u : List ℕ) → spec.walked result u ≡ six_at p (spec.walked m u) }
{
    with_notes(m, parts::marks::at_six(m.notes, true, p))
}

// P12, P13: a call at p that passes a size.
#[tactic(auto, unfolding(crate::specs::Walk::with_notes, crate::specs::Walk::at_nine))]
pub fn passing(m: Marks, p: u16) -> Marks
    ensures { (u : List ℕ) → spec.walked result u ≡ nine_at p (spec.walked m u) }
{
    with_notes(m, at_nine(m.notes, p))
}

// One statement more, or one too many.
#[tactic(auto, unfolding(crate::specs::Walk::begun))]
pub fn begun(m: Marks, p: u16) -> Marks
    ensures { result ≡ spec.begun m p }
{
    let nodes = more(m.nodes);
    if m.statements < 255 {
        Marks {
            statements: m.statements + 1,
            nodes,
            ..m
        }
    } else {
        Marks {
            notes: at_nine(m.notes, p),
            nodes,
            ..m
        }
    }
}

// A case test: a node, and no statement.
#[tactic(auto, unfolding(crate::specs::Walk::cased))]
pub fn cased(m: Marks) -> Marks
    ensures { result ≡ spec.cased m }
{
    Marks {
        nodes: more(m.nodes),
        ..m
    }
}

// An exit or a break at p, inside what it leaves or not.
#[tactic(auto, unfolding(crate::specs::Walk::leaves))]
pub fn leaves(m: Marks, inside: bool, p: u16) -> Marks
    ensures { result ≡ spec.leaves m inside p }
{
    if inside {
        m
    } else {
        Marks {
            eight: m.eight.min(p),
            ..m
        }
    }
}

#[tactic(auto, unfolding(crate::specs::Walk::with_notes))]
pub fn with_notes(m: Marks, n: Notes) -> Marks
    ensures { result ≡ spec.with_notes m n }
{
    Marks { notes: n, ..m }
}

#[tactic(auto, unfolding(crate::specs::Walk::with_acts))]
pub fn with_acts(m: Marks, a: u8) -> Marks
    ensures { result ≡ spec.with_acts m a }
{
    Marks { acts: a, ..m }
}

// A delay of n clocks, its number at p.
#[tactic(auto, unfolding(crate::specs::Walk::delayed))]
pub fn delayed(m: Marks, n: u16, p: u16) -> Marks
    ensures { result ≡ spec.delayed m n p }
{
    if n <= 255 {
        m
    } else {
        with_notes(m, at_nine(m.notes, p))
    }
}

// The marks behind a test.
#[tactic(auto, unfolding(crate::specs::Walk::tested))]
pub fn tested(m: Marks, g: Got, p: u16) -> Marks
    ensures { (u : List ℕ) → result ≡ spec.tested m (sum_of g u) p }
{
    with_notes(m, parts::marks::at_seven(g.notes, !g.truth, p))
}

// A branch that ends: the activities before it, and its own.
#[tactic(auto, unfolding(crate::specs::Walk::summed))]
pub fn summed(a: u8, b: u8) -> u8
    ensures { result ≡ spec.summed a b }
{
    a.saturating_add(b).min(9)
}

// A parallel that ends at p: `acts` stood before it.
#[tactic(auto, unfolding(crate::specs::Walk::together))]
pub fn together(m: Marks, acts: u8, p: u16) -> Marks
    ensures { result ≡ spec.together m acts p }
{
    let a = acts.max(m.acts);
    if m.acts <= 8 {
        with_acts(m, a)
    } else {
        with_acts(with_notes(m, at_nine(m.notes, p)), a)
    }
}
