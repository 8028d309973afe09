// Right sides in 32 bits: `+` and `-` wrap round on purpose, since the low bits come out the same. Any other part has its
// exact value, and comparisons know no other.
#![tactic(auto)]

ghost use Rattle.std.specs.Prelude.{◌≡◌, ℕ, ◌+◌, ◌%◌, ◌^◌, ◌≤◌};
ghost use Rattle.meaning.specs.Numbers.{low_bits, whole_of, value};
ghost use Rattle.nodes.specs.Decode.{expr_at};
ghost use Rattle.value.specs.Read.{reads};
ghost use Rattle.sums.specs.Wrapped.{RightSide, joined_of};

use nodes::{Sum, Tree};
use value::Reads;

// y added to x, or taken from it.
fn joined(o: Sum, x: u32, y: u32) -> u32
    ensures { result ≡ joined_of o x y }
{
    match o {
        Sum::Plus => x.wrapping_add(y),
        Sum::Minus => x.wrapping_sub(y),
        _ => x,
    }
}

// A part that is no sum: the low 32 bits of its exact value.
fn exact(t: &Tree, r: Reads, j: u16, left: u16) -> u32
    requires { RightSide (expr_at left t.now j) }
    ensures { result ≡ low_bits 32 (whole_of (value (expr_at left t.now j) (reads r))) }
{
    ints::low_bits(value::operand(t, r, j, left))
}

// x and the part j: a row of `+` and `-` is added up from its end, with no call for each.
// The calls go down a tree and count no index, as in value::row.
#[cycle(added_operand)]
fn added(t: &Tree, r: Reads, j: u16, left: u16, x: u32) -> u32
    requires { RightSide (expr_at left t.now j) }
    ensures { result ≡ (x + low_bits 32 (whole_of (value (expr_at left t.now j) (reads r)))) % 2 ^ 32 }
{
    if left == 0 {
        return x;
    }
    let less = left - 1;
    match value::term_at(t, j) {
        Some((o, a, b)) => {
            let y = operand(t, r, b, less);
            added(t, r, a, less, joined(o, x, y))
        }
        None => x.wrapping_add(exact(t, r, j, left)),
    }
}

// A sum in parentheses takes a call of its own.
#[cycle(added_operand)]
fn operand(t: &Tree, r: Reads, j: u16, left: u16) -> u32
    requires { RightSide (expr_at left t.now j) }
    ensures { result ≡ low_bits 32 (whole_of (value (expr_at left t.now j) (reads r))) }
{
    match value::term_at(t, j) {
        Some(_) => added(t, r, j, left, 0),
        None => exact(t, r, j, left),
    }
}

// The low bits of the exact value, for every width that the word has.
pub fn wrapped(t: &Tree, r: Reads, j: u16, left: u16) -> u32
    requires { RightSide (expr_at left t.now j) }
    ensures { (w : ℕ) → w ≤ 32 → result % 2 ^ w ≡ low_bits w (whole_of (value (expr_at left t.now j) (reads r))) }
{
    added(t, r, j, left, 0)
}
