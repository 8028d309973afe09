// What the reader of statements needs to know of a call in the program's own text before it reads it.
#![tactic(auto)]

ghost use Rattle.std.specs.Prelude.{◌≡◌, ◌≤◌};
ghost use Rattle.hand.specs.Along.{Near};
ghost use Rattle.gauge.specs.Measures.{Measures};

use frames::{Under, area, find};
use hand::Here;
use words::kinds;

// The word behind the call; whether its expansion passes a size by itself, and then its activities; if it passes none, whether it opens a level too many where it stands.
#[derive(Clone, Copy)]
pub struct Gauged {
    pub word: Here,
    pub over: bool,
    pub acts: u16,
    pub deep: bool,
}

fn made(word: Here, over: bool, acts: u16, deep: bool) -> Gauged
    ensures { result ≡ record { word = word; over = over; acts = acts; deep = deep } }
{
    Gauged {
        word,
        over,
        acts,
        deep,
    }
}

// A call from its name on, with so many levels open around.
pub fn measure(s: &[u8], t: &mut [u8], u: Under, around: u8, first: Here) -> Gauged
    requires { Near s.now first × (around ≤ 32) }
    ensures { Measures s.now u around first t.old t.new result }
{
    let after = hand::word_from(s, first.next);
    if after.kind != kinds::OPEN {
        return made(first, false, 0, false);
    }
    let m = measure::outermost(s, t, u, first, after, around);
    let Some(acts) = m.acts else {
        let Some(row) = find::procedure(s, t, u.seen, first.place, first.next) else {
            return made(m.word, true, 0, false);
        };
        return made(m.word, true, u16::from(area::wide_at(t, row)), false);
    };
    if m.over {
        let own = measure::outermost(s, t, u, first, after, 0);
        return made(m.word, own.over, acts, true);
    }
    made(m.word, false, 0, false)
}
