// A call: its parentheses passed over, and its activities by the row of its procedure.
ghost use Rattle.std.specs.Prelude.{◌≡◌};
ghost use Rattle.words.specs.Runs.{part};
ghost use Rattle.hand.specs.Along.{Near};
ghost use Rattle.parts.specs.Beside.{beside};
ghost use Rattle.wides.specs.Fill.{wide_in, PassedOver};

use crate::{Passed, counts};
use hand::Here;
use words::kinds;

// The parentheses of a call, from the word behind the first on.
pub fn over(s: &[u8], first: Here) -> Passed
    requires { Near s.now first }
    ensures { PassedOver s.now first result }
{
    let mut word = first;
    let mut deep: u16 = 0;
    let mut count: u16 = 0;
    loop {
        if word.kind > kinds::ENDCOMPRESS {
            return Passed { word, count };
        }
        let v = hand::word_from(s, word.next);
        if counts::closes(word.kind, deep) {
            return Passed { word: v, count };
        }
        count = counts::begun(word.kind, deep, count);
        deep = counts::within(word.kind, deep);
        word = v;
    }
}

// The activities of a call of the name from a to b, with so many actuals, among the first n procedures.
pub fn of_call(s: &[u8], t: &[u8], n: u16, a: u16, b: u16, count: u16) -> u8
    ensures { result ≡ wide_in s.now (beside t.now).names n (part s.now a b) count }
{
    let Some(i) = frames::find::procedure(s, t, n, a, b) else {
        return 1;
    };
    let p = frames::area::procedure_at(t, i);
    let h = frames::list::head_of(s, usize::from(p));
    if h.count == count {
        frames::area::wide_at(t, i)
    } else {
        1
    }
}
