// What a name stands for. The names lie behind the tree, in the same lent bytes.
ghost use Rattle.std.specs.Prelude.{◌≡◌, ◌+◌, ◌*◌, ◌≤◌, length, drop};
ghost use Rattle.words.specs.Runs.{part};
ghost use Rattle.names.specs.Look.{look_in};
ghost use Rattle.names.specs.Came.{variable_of};
ghost use Rattle.parts.specs.Beside.{beside};

use names::Variable;

// By the entries from a place on.
fn behind(s: &[u8], t: &[u8], at: usize, count: u16, a: u16, b: u16) -> Option<Variable>
    requires { at + count * 4 ≤ length t.now }
    ensures { variable_of result ≡ look_in s.now (drop at t.now) count (part s.now a b) }
{
    names::look::find(s, &t[at..], count, a, b)
}

// What the name from a to b stands for, among so many.
#[tactic(auto, unfolding(crate::specs::Beside::beside))]
pub fn find(s: &[u8], t: &[u8], count: u16, a: u16, b: u16) -> Option<Variable>
    requires { 16384 + count * 4 ≤ length t.now }
    ensures { variable_of result ≡ look_in s.now (beside t.now).names count (part s.now a b) }
{
    behind(s, t, 16384, count, a, b)
}
