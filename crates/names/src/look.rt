// What a name stands for, by the entries.
ghost use Rattle.std.specs.Prelude.{◌≡◌, ◌+◌, ◌*◌, ◌<◌, ◌≤◌, true, false, not, length};
ghost use Rattle.words.specs.Runs.{part};
ghost use Rattle.language.specs.Scan.{next_word};
ghost use Rattle.meaning.specs.Names.{missing};
ghost use Rattle.names.specs.Look.{value_of, width_at, place_at, end_at, entry_at, look_in};
ghost use Rattle.names.specs.Came.{meant, variable_of};

use crate::Variable;
use words::Next;

// The place of the name of entry i.
pub fn place_at(t: &[u8], i: usize) -> usize
    requires { i * 4 + 4 ≤ length t.now }
    ensures { (result ≡ place_at t.now i) × (result < 8192) }
{
    usize::from(u16::from_le_bytes([t[i * 4], t[i * 4 + 1]]) % 8192)
}

// The place behind it.
#[tactic(auto, unfolding(crate::specs::Look::end_at))]
fn end_at(t: &[u8], i: usize) -> usize
    requires { i * 4 + 4 ≤ length t.now }
    ensures { result ≡ end_at t.now i }
{
    place_at(t, i) + usize::from(t[i * 4 + 2])
}

// The value of the word from a place on.
fn second(s: &[u8], from: usize) -> u16
    ensures { result ≡ value_of (next_word s.now from) }
{
    match words::next_word(s, from) {
        Next::Found(w) => w.value as u16,
        _ => 0,
    }
}

// The width that is written behind a name.
fn width_at(s: &[u8], from: usize) -> u16
    ensures { result ≡ width_at s.now from }
{
    match words::next_word(s, from) {
        Next::Found(w) => second(s, w.end),
        _ => 0,
    }
}

// What entry i stands for.
#[tactic(auto, unfolding(crate::specs::Look::entry_at, crate::specs::Look::variable_by, crate::specs::Look::kind_at))]
fn entry_at(s: &[u8], t: &[u8], i: usize) -> Variable
    requires { i * 4 + 4 ≤ length t.now }
    ensures { meant result ≡ entry_at s.now t.now i }
{
    let n = t[i * 4 + 3];
    match t[i * 4 + 1] / 32 {
        0 => Variable::Input(n),
        3 => Variable::Integer {
            low: n,
            width: width_at(s, end_at(t, i)),
        },
        _ => Variable::Boolean(n),
    }
}

// What the name from a to b stands for, among so many entries.
pub fn find(s: &[u8], t: &[u8], names: u16, a: u16, b: u16) -> Option<Variable>
    requires { names * 4 ≤ length t.now }
    ensures { variable_of result ≡ look_in s.now t.now names (part s.now a b) }
{
    for i in 0..usize::from(names) {
        let p = place_at(t, i);
        let q = end_at(t, i);
        if words::same_name(s, p, q, usize::from(a), usize::from(b)) {
            return Some(entry_at(s, t, i));
        }
    }
    None
}

// Whether a name stands for anything.
pub fn known(v: Option<Variable>) -> bool
    ensures { result ≡ not (missing (variable_of v)) }
{
    v.is_some()
}
