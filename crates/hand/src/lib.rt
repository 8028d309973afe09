// The word in hand: the next word of a text from a place on, as the readers of the second pass take it.
#![tactic(auto)]

ghost use Rattle.std.specs.Prelude.{◌≤◌, length};
ghost use Rattle.hand.specs.Along.{Begins};

use words::Next;

// The kind stays a number: `Same` and `Near` of specs/Along, and `list_of`, `ends_list` and `operator_kind` above them, speak of it by number.
// The word to be read next: its kind's number (255 at the end), its place, the place behind it, and a number's value.
#[derive(Clone, Copy)]
pub struct Here {
    pub kind: u8,
    pub place: u16,
    pub next: u16,
    pub value: u16,
}

// The next word from a place on; behind the last word, the end.
pub fn word_from(s: &[u8], from: u16) -> Here
    requires { (length s.now ≤ 8192) × (from ≤ length s.now) }
    ensures { Begins s.now from result }
{
    match words::next_word(s, usize::from(from)) {
        Next::Found(w) => Here {
            kind: w.kind,
            place: w.start as u16,
            next: w.end as u16,
            value: w.value as u16,
        },
        _ => Here {
            kind: 255,
            place: s.len() as u16,
            next: s.len() as u16,
            value: 0,
        },
    }
}
