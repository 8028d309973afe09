// The notes with one thing more.
ghost use Rattle.std.specs.Prelude.{◌≡◌};
ghost use Prim.Native.Nat.{◌+◌};
ghost use Rattle.parts.specs.Sum as spec;

use crate::Notes;

// One part more, or one too many.
#[tactic(auto, unfolding(crate::specs::Sum::counted))]
pub fn counted(n: Notes, p: u16) -> Notes
    ensures { result ≡ spec.counted n p }
{
    if n.parts < 1024 {
        Notes {
            parts: n.parts + 1,
            ..n
        }
    } else {
        Notes {
            nine: n.nine.min(p),
            ..n
        }
    }
}

// A fault 6 at a place, where there is one. The three that follow differ in the field alone: a closure for it would be no plainer than the expression.
#[tactic(auto, unfolding(crate::specs::Sum::at_six))]
pub fn at_six(n: Notes, yes: bool, p: u16) -> Notes
    ensures { result ≡ spec.at_six n yes p }
{
    if yes {
        Notes {
            six: n.six.min(p),
            ..n
        }
    } else {
        n
    }
}

// .. a fault 7.
#[tactic(auto, unfolding(crate::specs::Sum::at_seven))]
pub fn at_seven(n: Notes, yes: bool, p: u16) -> Notes
    ensures { result ≡ spec.at_seven n yes p }
{
    if yes {
        Notes {
            seven: n.seven.min(p),
            ..n
        }
    } else {
        n
    }
}

// .. a fault 10.
#[tactic(auto, unfolding(crate::specs::Sum::at_ten))]
pub fn at_ten(n: Notes, yes: bool, p: u16) -> Notes
    ensures { result ≡ spec.at_ten n yes p }
{
    if yes {
        Notes {
            ten: n.ten.min(p),
            ..n
        }
    } else {
        n
    }
}
