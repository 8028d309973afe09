// The value of an expression of the tree, as a whole number: a truth is 1 or 0.
#![tactic(auto)]

ghost use Rattle.std.specs.Prelude.{◌≡◌, ℕ, ◌+◌, ◌<◌, ◌≤◌, ◌^◌, ◌/◌, ◌%◌, true, not as opposite, ℤ, pos, nat_abs, ◌+ℤ◌};
ghost use Rattle.meaning.specs.Numbers.{bit_of, as_number, compute, value};
ghost use Rattle.meaning.specs.Worst.{combined};
ghost use Rattle.nodes.specs.Layout.{kind_at};
ghost use Rattle.nodes.specs.Decode.{sum, test, link, expr_at};
ghost use Rattle.nodes.specs.Fit.{is_whole, size_of, Fit};
ghost use Rattle.value.specs.Flat.{flat, truth_of, compare_z, decides};
ghost use Rattle.value.specs.Leaf.{is_leaf, Leaf, leaf_of};
ghost use Rattle.value.specs.Read.{reads};
ghost use Rattle.value.specs.Row.{adds, signed, row_of, term_of};

use nodes::{Kind, Link, Sum, Test, Tree};

// What an expression reads: the word of the state, and the inputs.
#[derive(Clone, Copy)]
pub struct Reads {
    pub word: u32,
    pub inputs: u32,
}

pub fn truth(x: i64) -> bool
    ensures { result ≡ truth_of x }
{
    x != 0
}

fn flipped(x: i64) -> i64
    ensures { result ≡ as_number (opposite (truth_of x)) }
{
    i64::from(!truth(x))
}

fn bit_of(n: u32, j: u16) -> i64
    requires { j < 32 }
    ensures { result ≡ as_number (bit_of n j) }
{
    i64::from((n >> j) % 2)
}

fn field_of(n: u32, low: u16, width: u16) -> i64
    requires { (low < 32) × (width ≤ 16) }
    ensures { result ≡ pos (n / 2 ^ low % 2 ^ width) }
{
    i64::from((n >> low) & ((1u32 << width) - 1))
}

fn computed(o: Sum, a: i64, b: i64) -> i64
    requires { combined (sum o) (nat_abs a) (nat_abs b) < 2147483648 }
    ensures { result ≡ compute (sum o) a b }
{
    match o {
        Sum::Plus => ints::plus(a, b),
        Sum::Minus => ints::minus(a, b),
        Sum::Times => ints::times(a, b),
        Sum::Quotient => ints::divided(a, b),
        Sum::Remainder => ints::left_over(a, b),
    }
}

// Is it `+` or `-`?
fn is_added(o: Sum) -> bool
    ensures { result ≡ adds o }
{
    matches!(o, Sum::Plus | Sum::Minus)
}

// What `+` or `-` adds.
fn with_sign(o: Sum, y: i64) -> i64
    requires { nat_abs y < 2147483648 }
    ensures { result ≡ signed o y }
{
    match o {
        Sum::Minus => ints::minus(0, y),
        _ => y,
    }
}

fn compared(o: Test, a: i64, b: i64) -> i64
    ensures { result ≡ as_number (compare_z (test o) a b) }
{
    match o {
        Test::Equal => i64::from(a == b),
        Test::Unequal => i64::from(a != b),
        Test::Greater => i64::from(a > b),
        Test::Less => i64::from(a < b),
    }
}

fn decided(o: Link, x: i64) -> bool
    ensures { result ≡ decides (link o) x }
{
    match o {
        Link::And => !truth(x),
        Link::Or => truth(x),
    }
}

// By the stored byte alone, before a part is read.
fn is_leaf(t: &Tree, j: u16) -> bool
    ensures { result ≡ is_leaf (kind_at t.now j) }
{
    t[8192 + j as usize % 1024 * 8] < 7
}

fn leaf(t: &Tree, r: Reads, j: u16) -> i64
    requires { Leaf (kind_at t.now j) }
    ensures { result ≡ leaf_of (kind_at t.now j) (reads r) }
{
    match nodes::part_at(t, j).kind {
        Kind::Literal(v) => i64::from(v),
        Kind::Truth(b) => i64::from(b),
        Kind::Input(i) => bit_of(r.inputs, i),
        Kind::Boolean(i) => bit_of(r.word, i),
        Kind::Integer(low, width) => field_of(r.word, low, width),
        Kind::Bit(low, _, i) => bit_of(r.word, low + i),
        _ => 0,
    }
}

// The operator and operands of a part of a row of `+` and `-`.
pub type Added = (Sum, u16, u16);

// The hints: without them mast takes a tenth more instructions a clock (rustc over the same bodies, contracts left out).
#[inline]
fn row_of(o: Sum, a: u16, b: u16) -> Option<Added>
    ensures { result ≡ row_of o a b }
{
    match o {
        Sum::Plus | Sum::Minus => Some((o, a, b)),
        _ => None,
    }
}

#[inline]
fn term_of(k: Kind) -> Option<Added>
    ensures { result ≡ term_of k }
{
    match k {
        Kind::Arithmetic(o, a, b) => row_of(o, a, b),
        _ => None,
    }
}

#[inline]
pub fn term_at(t: &Tree, j: u16) -> Option<Added>
    ensures { result ≡ term_of (kind_at t.now j) }
{
    term_of(nodes::part_at(t, j).kind)
}

// A leaf takes no call of its own.
#[cycle(operand_row_value)]
pub fn operand(t: &Tree, r: Reads, j: u16, left: u16) -> i64
    requires { Fit (expr_at left t.now j) }
    ensures { result ≡ flat (value (expr_at left t.now j) (reads r)) }
{
    if left == 0 {
        return 0;
    }
    if is_leaf(t, j) {
        return leaf(t, r, j);
    }
    value(t, r, j, left)
}

// The value of j and x: a row of `+` and `-` is added up from its end, with no call for each.
// The calls go down a tree and count no index: a loop would need the contract of each call again as its invariant.
#[cycle(operand_row_value)]
fn row(t: &Tree, r: Reads, j: u16, left: u16, x: i64) -> i64
    requires { Fit (expr_at left t.now j) × ((is_whole (expr_at left t.now j) ≡ true) × (size_of (expr_at left t.now j) + nat_abs x < 2147483648)) }
    ensures { result ≡ flat (value (expr_at left t.now j) (reads r)) +ℤ x }
{
    if left == 0 {
        return x;
    }
    let less = left - 1;
    match term_at(t, j) {
        Some((o, a, b)) => {
            let y = with_sign(o, operand(t, r, b, less));
            row(t, r, a, less, ints::plus(y, x))
        }
        None => ints::plus(operand(t, r, j, left), x),
    }
}

#[cycle(operand_row_value)]
pub fn value(t: &Tree, r: Reads, j: u16, left: u16) -> i64
    requires { Fit (expr_at left t.now j) }
    ensures { result ≡ flat (value (expr_at left t.now j) (reads r)) }
{
    if left == 0 {
        return 0;
    }
    let less = left - 1;
    let n = nodes::part_at(t, j);
    match n.kind {
        Kind::Not(a) => flipped(operand(t, r, a, less)),
        Kind::Int(a) => operand(t, r, a, less),
        Kind::Arithmetic(o, a, b) => {
            let y = operand(t, r, b, less);
            if is_added(o) {
                return row(t, r, a, less, with_sign(o, y));
            }
            computed(o, operand(t, r, a, less), y)
        }
        Kind::Comparison(o, a, b) => compared(o, operand(t, r, a, less), operand(t, r, b, less)),
        Kind::Logic(o, a, b) => {
            let x = operand(t, r, a, less);
            if decided(o, x) {
                return x;
            }
            operand(t, r, b, less)
        }
        _ => leaf(t, r, j),
    }
}
