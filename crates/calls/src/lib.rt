// A call entered: its procedure found, its frame written with every actual, and P7 asked.
#![tactic(auto)]

ghost use Rattle.std.specs.Prelude.{◌<◌};
ghost use Rattle.hand.specs.Along.{Near};
ghost use Rattle.calls.specs.Settles.{Settles};
ghost use Rattle.calls.specs.Enters.{Enters};

use frames::{Under, area, find, list, put};
use hand::Here;

pub mod actuals;
mod room;

// Under what the body of a call that is expanded is read, and that one's first word.
#[derive(Clone, Copy)]
pub struct Expanded {
    pub under: Under,
    pub body: Here,
}

// The word behind a call, and what it is expanded to unless it stays.
#[derive(Clone, Copy)]
pub struct Entered {
    pub word: Here,
    pub expanded: Option<Expanded>,
}

// Behind its actuals the frame is written up to a place, and P7 asked; if the call stays, all is zero again.
fn settled(
    s: &[u8],
    t: &mut [u8],
    u: Under,
    row: u16,
    p: u16,
    to: u16,
    body: Here,
    word: Here,
) -> Entered
    requires { Near s.now body × (u.depth < 65535) }
    ensures { Settles s.now t.old t.new u row p to body word result }
{
    put::put_frame(t, u.top, u.frame, p);
    let v = Under {
        frame: u.top,
        depth: u.depth + 1,
        seen: row,
        top: to,
        ..u
    };
    if allow::allowed(s, t, v, body) {
        return Entered {
            word,
            expanded: Some(Expanded { under: v, body }),
        };
    }
    put::clear(t, u.top, to);
    Entered {
        word,
        expanded: None,
    }
}

// From the name of a call on.
pub fn enter(s: &[u8], t: &mut [u8], u: Under, first: Here) -> Entered
    requires { Near s.now first }
    ensures { Enters s.now t.old t.new u first result }
{
    let open = hand::word_from(s, first.next);
    let Some(row) = find::procedure(s, t, u.seen, first.place, first.next) else {
        let h = actuals::hand_over(s, t, u, open.next, 0);
        return Entered {
            word: hand::word_from(s, h.word.next),
            expanded: None,
        };
    };
    let p = area::procedure_at(t, row);
    let head = list::head_of(s, usize::from(p));
    let Some(to) = room::frame_end(t, u, row, head.count) else {
        let h = actuals::hand_over(s, t, u, open.next, 0);
        return Entered {
            word: hand::word_from(s, h.word.next),
            expanded: None,
        };
    };
    let h = actuals::hand_over(s, t, u, open.next, head.count);
    let word = hand::word_from(s, h.word.next);
    if h.count != head.count {
        put::clear(t, u.top, to);
        return Entered {
            word,
            expanded: None,
        };
    }
    let body = room::body_word(s, head.body);
    settled(s, t, u, row, p, to, body, word)
}
