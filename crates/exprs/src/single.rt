// An operand with no expression inside.
ghost use Rattle.std.specs.Prelude.{◌≡◌, [], ℕ, ◌≤◌, ◌+◌, ◌*◌, length, cond};
ghost use Rattle.hand.specs.Along.{Near, Begins};
ghost use Rattle.names.specs.Look.{look_in};
ghost use Rattle.parts.specs.Beside.{beside};
ghost use Rattle.parts.specs.Sum.{sum_of, name_sum};
ghost use Rattle.exprs.specs.Came.{Named, PlainUnder};

use frames::{Meant, Under, follow};
use hand::Here;
use parts::{Got, Notes, leaves};

// A number.
pub fn number(s: &[u8], t: &mut [u8], u: Under, h: Here, n: Notes) -> Got
    requires { Near s.now h }
    ensures { (count : ℕ) → PlainUnder s.now (beside t.old).names count u 1 h n t.old t.new result }
{
    let after = hand::word_from(s, h.next);
    let p = frames::told(u, h.place);
    leaves::leaf(t, n, 0, h.value, p, false, u32::from(h.value), after)
}

// `true` or `false`.
pub fn truth(s: &[u8], t: &mut [u8], u: Under, value: bool, h: Here, n: Notes) -> Got
    requires { Near s.now h }
    ensures { (count : ℕ) → PlainUnder s.now (beside t.old).names count u (cond value 2 3) h n t.old t.new result }
{
    let after = hand::word_from(s, h.next);
    let p = frames::told(u, h.place);
    if value {
        leaves::leaf(t, n, 2, 0, p, true, 0, after)
    } else {
        leaves::leaf(t, n, 1, 0, p, true, 0, after)
    }
}

// P8: a name that none can have.
fn unknown(s: &[u8], count: u16, t: &mut [u8], n: Notes, p: u16, word: Here) -> Got
    requires { 16384 + count * 4 ≤ length t.old }
    ensures { (result.word ≡ word) × (sum_of result t.new ≡ name_sum n t.old (look_in s.now (beside t.old).names count []) p) }
{
    let v = parts::seen::find(s, t, count, 0, 0);
    leaves::named(t, n, p, v, word)
}

// A bit: of the name that the one before `[` stands for.
pub fn bit(s: &[u8], count: u16, t: &mut [u8], u: Under, h: Here, after: Here, n: Notes) -> Got
    requires { Named s.now (beside t.old) count h × Begins s.now h.next after × (after.kind ≡ 16) }
    ensures { PlainUnder s.now (beside t.old).names count u 0 h n t.old t.new result }
{
    let number = hand::word_from(s, after.next);
    let close = hand::word_from(s, number.next);
    let last = hand::word_from(s, close.next);
    let p = frames::told(u, h.place);
    match follow::meant(s, t, u, h.place, h.next) {
        Meant::Name { a, b } => {
            let v = parts::seen::find(s, t, count, a, b);
            leaves::indexed(t, n, frames::told(u, a), v, number.value, last)
        }
        Meant::Bit { .. } | Meant::Neither => unknown(s, count, t, n, p, last),
    }
}
