// Tests, and statements with none inside.
ghost use Rattle.std.specs.Prelude.{◌≡◌, List, ℕ, ◌≤◌};
ghost use Rattle.hand.specs.Along.{Near, Begins};
ghost use Rattle.tiers.specs.Choose.{plain_number};
ghost use Rattle.frames.specs.declared.Under.{Under};
ghost use Rattle.parts.specs.Beside.{beside};
ghost use Rattle.measure.specs.Counted.{Ready, TestCame, BareCame, PastChange};

use crate::Counted;
use frames::Under;
use hand::Here;
use tally::Tally;
use tiers::PlainRow;
use words::kinds;

pub fn made(word: Here, tally: Tally) -> Counted
    ensures { result ≡ record { word = word; tally = tally } }
{
    Counted { word, tally }
}

// A test from its first word on, and the word behind the one that ends it.
pub fn test(s: &[u8], t: &[u8], u: Under, first: Here, m: Tally, levels: u8, around: u8) -> Counted
    requires { Ready s.now levels first }
    ensures { TestCame s.now (beside t.now).names u levels around first m result }
{
    let g = sizes::sized(s, t, u, first, levels);
    made(
        hand::word_from(s, g.word.next),
        m.term(around, g.parts, g.levels),
    )
}

// An assignment, `after` the word behind its name.
pub fn assign(
    s: &[u8],
    t: &[u8],
    u: Under,
    first: Here,
    after: Here,
    m: Tally,
    levels: u8,
    around: u8,
) -> Counted
    requires { Ready s.now levels first × Begins s.now first.next after × ¬ (after.kind ≡ 14) }
    ensures { BareCame s.now (beside t.now).names u levels around 5 first m result }
{
    let third = hand::word_from(s, after.next);
    let g = sizes::sized(s, t, u, third, levels);
    made(g.word, m.begun().term(around, g.parts, g.levels))
}

// `raise`, `lower`, `invert`: up to the word behind the `)`.
fn changed(s: &[u8], first: Here) -> Here
    requires { Near s.now first }
    ensures { PastChange s.now first result }
{
    let open = hand::word_from(s, first.next);
    let name = hand::word_from(s, open.next);
    let after = hand::word_from(s, name.next);
    let second = hand::word_from(s, after.next);
    if after.kind != kinds::LEFT {
        return second;
    }
    let close = hand::word_from(s, second.next);
    let last = hand::word_from(s, close.next);
    hand::word_from(s, last.next)
}

// `skip`, `delay`, `raise`, `lower`, `invert`, `exit`, `break`.
pub fn plain(s: &[u8], row: PlainRow, first: Here, m: Tally, around: u8) -> Counted
    requires { Near s.now first }
    ensures { (z : List ℕ) (u : Under) (k : ℕ) → BareCame s.now z u k around (plain_number row) first m result }
{
    let k = m.begun();
    let second = hand::word_from(s, first.next);
    match row {
        PlainRow::Skip | PlainRow::Exit | PlainRow::Break => made(second, k),
        PlainRow::Delay => made(
            hand::word_from(s, second.next),
            k.marked(second.value > 255),
        ),
        PlainRow::Raise | PlainRow::Lower | PlainRow::Invert => {
            let inner = sizes::counts::deeper(around);
            made(changed(s, first), k.deep(inner, 0))
        }
    }
}
