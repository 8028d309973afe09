// The actuals of a call: each is measured under the caller's frame, and written into the new one where it has room.
ghost use Rattle.std.specs.Prelude.{◌≡◌, ◌≤◌, length};
ghost use Rattle.parts.specs.Beside.{beside};
ghost use Rattle.frames.specs.Put.{Puts};
ghost use Rattle.calls.specs.Hands.{hand_in, Hands};

use frames::{Under, put};
use hand::Here;
use words::kinds;

// The word behind the actuals, and how many there are.
#[derive(Clone, Copy)]
pub struct Handing {
    pub word: Here,
    pub count: u16,
}

// An actual is written where the frame has room for so many.
fn put_if(t: &mut [u8], room: u16, top: u16, i: u16, place: u16, parts: u16, levels: u8)
    ensures { Puts t.old t.new (hand_in (beside t.old).names room top i place parts levels) }
{
    if i < room {
        put::put_actual(t, top, i, place, parts, levels);
    }
}

// The actuals from a place on, up to the `)`.
pub fn hand_over(s: &[u8], t: &mut [u8], u: Under, from: u16, room: u16) -> Handing
    requires { (length s.now ≤ 8192) × (from ≤ length s.now) }
    ensures { Hands s.now t.old t.new u from room result }
{
    let first = hand::word_from(s, from);
    if first.kind == kinds::CLOSE {
        return Handing {
            word: first,
            count: 0,
        };
    }
    let mut at = from;
    let mut i: u16 = 0;
    loop {
        let word = hand::word_from(s, at);
        let e = sizes::sized(s, t, u, word, 32);
        put_if(t, room, u.top, i, at, e.parts, e.levels);
        i += 1;
        if e.word.kind != kinds::COMMA {
            return Handing {
                word: e.word,
                count: i,
            };
        }
        at = e.word.next;
    }
}
