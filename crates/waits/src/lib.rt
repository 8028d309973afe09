// Statements that wait, and tests. What raise, lower, invert and := try is said here alone.
#![tactic(auto)]

ghost use Rattle.std.specs.Prelude.{◌≡◌, ℕ, ◌+◌, ◌%◌, ◌^◌, ◌<◌, ◌≤◌, length};
ghost use Rattle.meaning.specs.Tries.{bit_at, change_tries, assign_tries, try_bits, changed, try_bit};
ghost use Rattle.meaning.specs.Numbers.{holds, bit_of};
ghost use Rattle.meaning.specs.Clock.{waits, done, delayed};
ghost use Rattle.nodes.specs.Layout.{looks_at};
ghost use Rattle.nodes.specs.Decode.{change, target, assigned, expr_at, most_deep};
ghost use Rattle.nodes.specs.Looks.{looks};
ghost use Rattle.nodes.specs.Good.{GoodTest, GoodAssign};
ghost use Rattle.value.specs.Read.{reads};
ghost use Rattle.runs.specs.Buffer.{Comes, Looked};

use nodes::{Change, Target, Tree};
use runs::{Buffer, How};
use value::Reads;

fn target_bit(v: Target) -> u16
    requires { bit_at (target v) < 32 }
    ensures { result ≡ bit_at (target v) }
{
    if v.width == 0 { v.low } else { v.low + v.index }
}

fn set_bit(o: &mut Buffer, j: u16, on: bool) -> How
    requires { (length o.old.entries ≡ 8) × (j < 32) }
    ensures { (b : ℕ) → Comes (waits (try_bit j on) done) 0 b o.old o.new result }
{
    let m = 1u32 << j;
    if on { o.tried(m, 0) } else { o.tried(0, m) }
}

fn changing(c: Change, was: bool) -> bool
    ensures { result ≡ changed (change c) was }
{
    match c {
        Change::Raise => true,
        Change::Lower => false,
        Change::Invert => !was,
    }
}

fn bit_is(n: u32, j: u16) -> bool
    requires { j < 32 }
    ensures { result ≡ bit_of n j }
{
    (n >> j) % 2 == 1
}

pub fn change_bit(o: &mut Buffer, word: u32, c: Change, v: Target) -> How
    requires { (length o.old.entries ≡ 8) × (bit_at (target v) < 32) }
    ensures { (b inputs : ℕ) → Comes (waits (change_tries (change c) (target v) (record { word = word; inputs = inputs })) done) 0 b o.old o.new result }
{
    let j = target_bit(v);
    set_bit(o, j, changing(c, bit_is(word, j)))
}

// The low bits of z, as many as the target has.
fn set_bits(o: &mut Buffer, low: u16, width: u16, z: u32) -> How
    requires { (length o.old.entries ≡ 8) × ((low + width ≤ 32) × ((width ≤ 16) × (1 ≤ width))) }
    ensures { (b : ℕ) → Comes (waits (try_bits low width (z % 2 ^ width)) done) 0 b o.old o.new result }
{
    let mask = (1u32 << width) - 1;
    let bits = z & mask;
    o.tried(bits << low, (mask - bits) << low)
}

// The assignment i of the expression x to v.
pub fn assign(t: &Tree, r: Reads, i: u16, v: Target, x: u16, o: &mut Buffer) -> How
    requires { (length o.old.entries ≡ 8) × (GoodAssign (assigned v) (expr_at most_deep t.now x) × (looks_at t.now i ≡ looks (expr_at most_deep t.now x))) }
    ensures { (b : ℕ) → Comes (waits (assign_tries (assigned v) (expr_at most_deep t.now x) (reads r)) done) (looks (expr_at most_deep t.now x)) b o.old o.new result }
{
    o.look(nodes::looks_at(t, i));
    set_bits(o, v.low, v.width, sums::wrapped(t, r, x, 1024))
}

// The test x of the statement or case i.
pub fn holds(t: &Tree, r: Reads, i: u16, x: u16, o: &mut Buffer) -> bool
    requires { (length o.old.entries ≡ 8) × (GoodTest (expr_at most_deep t.now x) × (looks_at t.now i ≡ looks (expr_at most_deep t.now x))) }
    ensures { (result ≡ holds (expr_at most_deep t.now x) (reads r)) × Looked (looks (expr_at most_deep t.now x)) o.old o.new }
{
    o.look(nodes::looks_at(t, i));
    value::truth(value::value(t, r, x, 1024))
}

// A delay of which n clocks are left, at the statement i.
pub fn delay(o: &mut Buffer, b: u16, i: u16, n: u8) -> How
    requires { (length o.old.entries ≡ 8) × ((i < 65535) × (b < 8)) }
    ensures { (p : ℕ) → Comes (delayed (record { place = p; number = i }) n) 0 b o.old o.new result }
{
    match n {
        0 => How::Finished,
        1 => o.tried(0, 0),
        _ => {
            o.tried(0, 0);
            o.put(b, i, n - 1);
            How::Stands
        }
    }
}
