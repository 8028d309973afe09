// Parts of a text: where a run ends, what digits come to.
ghost use Rattle.std.specs.Prelude.{◌≡◌, Bool, ℕ, ◌+◌, ◌-◌, ◌*◌, ◌<◌, ◌≤◌, length, drop};
ghost use Rattle.language.specs.Words.{in_blanks, in_number, in_name, value_of};
ghost use Rattle.words.specs.Runs.{part, run_end, cap, Tests};

use crate::bytes::{in_name, is_blank, is_digit};

// The end of the run that goes on from a place, as a test has it of each place of the text.
fn run_end<F: Fn(usize) -> bool>(s: &[u8], from: usize, goes_on: F) -> usize
    requires { (i : ℕ) → i < length s.now → F.pre goes_on i }
    ensures { (g : ℕ → ℕ → Bool) → Tests g s.now (F.post goes_on) → result ≡ run_end g s.now from }
{
    for i in from..s.len() {
        if !goes_on(i) {
            return i;
        }
    }
    from.max(s.len())
}

// The place behind the blanks from a place on.
pub fn past_blanks(s: &[u8], from: usize) -> usize
    ensures { result ≡ run_end in_blanks s.now from }
{
    run_end(s, from, |i| is_blank(s[i]))
}

// The end of the digits from a place on.
pub fn number_end(s: &[u8], from: usize) -> usize
    ensures { result ≡ run_end in_number s.now from }
{
    run_end(s, from, |i| is_digit(s[i]))
}

// The end of the name, or the reserved word, that goes on from a place.
pub fn name_end(s: &[u8], from: usize) -> usize
    ensures { result ≡ run_end in_name s.now from }
{
    run_end(s, from, |i| in_name(s, i))
}

// The value with one more digit, or 65,536 where it is larger.
fn one_more(v: u32, c: u8) -> u32
    requires { v ≤ 65536 }
    ensures { result ≡ cap (v * 10 + (c - 48)) }
{
    (v * 10 + u32::from(c.saturating_sub(b'0'))).min(65536)
}

// The value of digits, or 65,536 where it is larger.
pub fn value(digits: &[u8]) -> u32
    ensures { result ≡ cap (value_of digits.now) }
{
    let mut v: u32 = 0;
    for c in digits {
        v = one_more(v, *c);
    }
    v
}
