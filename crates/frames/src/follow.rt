// What a name stands for where it is changed or indexed: a formal is followed through the frames.
ghost use Rattle.std.specs.Prelude.{◌≡◌, ◌≤◌, length};
ghost use Rattle.parts.specs.Beside.{beside};
ghost use Rattle.frames.specs.Meant.{MeantBy, SingleBy, bit_of};
ghost use Rattle.frames_law.specs.Operators.{operator_kind};

use crate::{Meant, Under, find};
use words::kinds;

// Whether a word is an operator between two operands.
#[tactic(auto, unfolding(frames_law::specs::Operators::operator_kind))]
fn joins(kind: u8) -> bool
    ensures { result ≡ operator_kind kind }
{
    matches!(
        kind,
        kinds::OR | kinds::UNEQUAL | kinds::EQUAL | kinds::ABOVE..=kinds::REST
    )
}

// What the text of an actual is by itself.
fn single(s: &[u8], from: u16) -> Meant
    requires { length s.now ≤ 8192 }
    ensures { SingleBy s.now from result }
{
    if usize::from(from) > s.len() {
        return Meant::Neither;
    }
    let w = hand::word_from(s, from);
    if w.kind != kinds::NAME {
        return Meant::Neither;
    }
    let c = hand::word_from(s, w.next);
    if joins(c.kind) {
        return Meant::Neither;
    }
    if c.kind != kinds::LEFT {
        return Meant::Name {
            a: w.place,
            b: w.next,
        };
    }
    let m = hand::word_from(s, c.next);
    let e = hand::word_from(s, m.next);
    let d = hand::word_from(s, e.next);
    if joins(d.kind) {
        return Meant::Neither;
    }
    Meant::Bit {
        a: w.place,
        b: w.next,
        j: m.value,
    }
}

// Bit j of a name; there is none of anything else.
fn bit_of(v: Meant, j: u16) -> Meant
    ensures { result ≡ bit_of v j }
{
    match v {
        Meant::Name { a, b } => Meant::Bit { a, b, j },
        _ => Meant::Neither,
    }
}

// What the name from a to b stands for under u.
pub fn meant(s: &[u8], t: &[u8], u: Under, a: u16, b: u16) -> Meant
    requires { length s.now ≤ 8192 }
    ensures { MeantBy s.now (beside t.now).names u a b result }
{
    let Some(q) = find::formal(s, t, u, a, b) else {
        return Meant::Name { a, b };
    };
    let v = find::caller(t, u);
    match single(s, q) {
        Meant::Name { a, b } => meant(s, t, v, a, b),
        Meant::Bit { a, b, j } => bit_of(meant(s, t, v, a, b), j),
        Meant::Neither => Meant::Neither,
    }
}
