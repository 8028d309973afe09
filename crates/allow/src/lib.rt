// P7: whether a body's own statements use its formals as the actuals allow.
#![tactic(auto)]

ghost use Rattle.std.specs.Prelude.{◌≤◌, length};
ghost use Rattle.hand.specs.Along.{Near};
ghost use Rattle.parts.specs.Beside.{beside};
ghost use Rattle.allow.specs.Steps.{ask_number};
ghost use Rattle.allow.specs.Allowed.{Fits, Allows};

use frames::{Meant, Under, follow};
use hand::Here;
use words::kinds;

mod steps;

// What a word of a body is to the name before it or behind it: `raise`, `lower` or `invert` changes one, `endproc` is the last word.
#[derive(Clone, Copy, PartialEq, Eq)]
pub enum Sort {
    Other,
    Name,
    Changes,
    Becomes,
    Index,
    Opens,
    Closes,
    Last,
}

// What stands before a word: nothing that matters, a name, `raise` or its like, that and its `(`, these and a name; or a call's parentheses, with so many open inside them.
#[derive(Clone, Copy, PartialEq, Eq)]
pub enum State {
    Nothing,
    Named,
    Changing,
    Opened,
    Changed,
    Call(u32),
}

// What is asked of a name: nothing, that it stands for a name, or for a name or a bit.
#[derive(Clone, Copy, PartialEq, Eq)]
pub enum Asked {
    Nothing,
    Name,
    NameOrBit,
}

// Whether the name from a to b stands for what is asked of it.
fn fits(s: &[u8], t: &[u8], u: Under, asked: Asked, a: u16, b: u16) -> bool
    requires { length s.now ≤ 8192 }
    ensures { Fits s.now (beside t.now).names u (ask_number asked) a b result }
{
    match asked {
        Asked::Nothing => true,
        Asked::Name => matches!(follow::meant(s, t, u, a, b), Meant::Name { .. }),
        Asked::NameOrBit => matches!(
            follow::meant(s, t, u, a, b),
            Meant::Name { .. } | Meant::Bit { .. }
        ),
    }
}

// Whether each use is allowed, from the first word of a body up to its `endproc`.
pub fn allowed(s: &[u8], t: &[u8], u: Under, first: Here) -> bool
    requires { Near s.now first }
    ensures { Allows s.now (beside t.now).names u first result }
{
    let mut word = first;
    let mut state = State::Nothing;
    let mut a: u16 = 0;
    let mut b: u16 = 0;
    loop {
        if word.kind > kinds::ENDCOMPRESS {
            return true;
        }
        let sort = steps::sort_of(word.kind);
        if !fits(s, t, u, steps::asked(state, sort), a, b) {
            return false;
        }
        if let Sort::Last = sort {
            return true;
        }
        state = steps::next(state, sort);
        a = word.place;
        b = word.next;
        word = hand::word_from(s, b);
    }
}
