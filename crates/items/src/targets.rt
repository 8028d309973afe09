// The variable that a statement changes: what it is, and what is noted of it.
ghost use Rattle.std.specs.Prelude.{◌≡◌, List, ℕ};
ghost use Rattle.meaning.specs.Kinds.{has_bit, changeable, assignable};
ghost use Rattle.parts.specs.Sum.{sum_of, width_of};
ghost use Rattle.names.specs.Came.{variable_of};
ghost use Rattle.items.specs.Walk as spec;

use crate::{Marks, noted};
use names::Variable;
use parts::Got;

pub fn width_of(v: Option<Variable>) -> u16
    ensures { result ≡ width_of (variable_of v) }
{
    match v {
        Some(Variable::Integer { width, .. }) => width,
        _ => 0,
    }
}

fn can_change(v: Option<Variable>) -> bool
    ensures { result ≡ changeable (variable_of v) }
{
    matches!(v, Some(Variable::Boolean(_)))
}

fn can_assign(v: Option<Variable>) -> bool
    ensures { result ≡ assignable (variable_of v) }
{
    matches!(v, Some(Variable::Integer { .. }))
}

#[tactic(auto, unfolding(crate::specs::Walk::target_marks))]
fn target_marks(m: Marks, v: Option<Variable>, q: u16, fine: bool, p: u16) -> Marks
    ensures { result ≡ spec.target_marks m (variable_of v) q fine p }
{
    let k = parts::marks::at_six(m.notes, parts::found::unknown(v), q);
    noted::with_notes(m, parts::marks::at_seven(k, !fine, p))
}

// A whole variable raised, lowered or inverted: its name at q, the statement at p.
pub fn changed(m: Marks, v: Option<Variable>, q: u16, p: u16) -> Marks
    ensures { result ≡ spec.target_marks m (variable_of v) q (changeable (variable_of v)) p }
{
    target_marks(m, v, q, can_change(v), p)
}

// .. or the bit j.
pub fn bit_changed(m: Marks, v: Option<Variable>, j: u16, q: u16) -> Marks
    ensures { result ≡ spec.target_marks m (variable_of v) q (has_bit (variable_of v) j) q }
{
    target_marks(m, v, q, parts::found::has_bit(v, j), q)
}

#[tactic(auto, unfolding(crate::specs::Walk::fits))]
fn fits(v: Option<Variable>, truth: bool) -> bool
    ensures { result ≡ spec.fits (variable_of v) truth }
{
    can_assign(v) && !truth
}

// An assignment to the name at p, behind its expression.
#[tactic(auto, unfolding(crate::specs::Walk::assigned))]
pub fn assigned(m: Marks, g: Got, v: Option<Variable>, p: u16) -> Marks
    ensures { (u : List ℕ) → result ≡ spec.assigned m (sum_of g u) (variable_of v) p }
{
    target_marks(noted::with_notes(m, g.notes), v, p, fits(v, g.truth), p)
}
