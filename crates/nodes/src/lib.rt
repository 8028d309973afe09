// The tree of a program in 16,384 bytes: statements and case tests of 16 bytes by number in text order, then expression
// parts of 8 bytes from byte 8,192 on. Every number names a node: it is taken modulo their count.
//
// A statement: kind, width (of the branch that begins here), place (2), end (2), end of that branch (2), four numbers
// of 2 bytes. A list is a range of numbers: its first statement, and after a statement's end the next one.
// A part: kind, width, place (2), two numbers of 2 bytes.
#![tactic(auto)]

ghost use Rattle.std.specs.Prelude.{◌≡◌, ℕ, ◌+◌, ◌*◌, ◌<◌, ◌≤◌, get_or};
ghost use Rattle.nodes.specs.Layout.{half_at, node_base, part_base, sum_of, test_of, link_of, kind_of, kind_at, what_of, what_at, among_of, shape_of, width_at, looks_at, within, end_at, branch_end_at};

pub type Tree = [u8; 16384];

#[derive(Clone, Copy)]
pub enum Sum {
    Plus,
    Minus,
    Times,
    Quotient,
    Remainder,
}

#[derive(Clone, Copy)]
pub enum Test {
    Equal,
    Unequal,
    Greater,
    Less,
}

#[derive(Clone, Copy)]
pub enum Link {
    And,
    Or,
}

#[derive(Clone, Copy)]
pub enum Kind {
    Literal(u16),
    Truth(bool),
    Input(u16),
    Boolean(u16),
    Integer(u16, u16),
    Bit(u16, u16, u16),
    Not(u16),
    Int(u16),
    Arithmetic(Sum, u16, u16),
    Comparison(Test, u16, u16),
    Logic(Link, u16, u16),
}

#[derive(Clone, Copy)]
pub struct Part {
    pub place: u16,
    pub kind: Kind,
}

#[derive(Clone, Copy)]
pub enum Change {
    Raise,
    Lower,
    Invert,
}

// A boolean has the width 0, as in the bytes: `target_by` of specs/Decode tells it so.
#[derive(Clone, Copy)]
pub struct Target {
    pub low: u16,
    pub width: u16,
    pub index: u16,
}

// A list starts with the next number. A choice and a case have the number where their first list ends.
#[derive(Clone, Copy)]
pub enum What {
    Skip,
    Delay(u16, u16),
    Change(Change, Target),
    Assign(Target, u16),
    Choice(u16, u16),
    While(u16),
    Loop,
    Exit,
    Break,
    Switch,
    Parallel,
    Case(u16, u16),
}

// How a statement is resumed. A choice has the number where its first list ends.
#[derive(Clone, Copy)]
pub enum Shape {
    Plain,
    Waiting(u16),
    Either(u16),
    Repeat,
    Tests,
    Together,
}

// What stands among the cases of a switch.
#[derive(Clone, Copy)]
pub enum Among {
    Test(u16, u16),
    Default,
}

#[derive(Clone, Copy)]
pub struct Node {
    pub place: u16,
    pub what: What,
}

#[tactic(auto, unfolding(crate::specs::Layout::half_at))]
pub fn half_at(t: &Tree, o: usize) -> u16
    requires { o < 16383 }
    ensures { result ≡ half_at t.now o }
{
    u16::from_le_bytes([t[o], t[o + 1]])
}

impl From<u8> for Sum {
    ghost from_gives = { λ n x. x ≡ sum_of n };

    fn from(n: u8) -> Sum {
        match n {
            0 => Sum::Plus,
            1 => Sum::Minus,
            2 => Sum::Times,
            3 => Sum::Quotient,
            _ => Sum::Remainder,
        }
    }
}

impl From<u8> for Test {
    ghost from_gives = { λ n x. x ≡ test_of n };

    fn from(n: u8) -> Test {
        match n {
            0 => Test::Equal,
            1 => Test::Unequal,
            2 => Test::Greater,
            _ => Test::Less,
        }
    }
}

impl From<u8> for Link {
    ghost from_gives = { λ n x. x ≡ link_of n };

    fn from(n: u8) -> Link {
        match n {
            0 => Link::And,
            _ => Link::Or,
        }
    }
}

// The numbers here and in what_of are the stored bytes' own, as specs/Layout has them.
#[tactic(auto, unfolding(crate::specs::Layout::kind_of))]
pub fn kind_of(tag: u8, c: u8, a: u16, b: u16) -> Kind
    ensures { result ≡ kind_of tag c a b }
{
    match tag {
        0 => Kind::Literal(a),
        1 => Kind::Truth(false),
        2 => Kind::Truth(true),
        3 => Kind::Input(a),
        4 => Kind::Boolean(a),
        5 => Kind::Integer(a, u16::from(c)),
        6 => Kind::Bit(a, u16::from(c), b),
        7 => Kind::Not(a),
        8 => Kind::Int(a),
        9 => Kind::Arithmetic(Sum::from(c), a, b),
        10 => Kind::Comparison(Test::from(c), a, b),
        _ => Kind::Logic(Link::from(c), a, b),
    }
}

#[tactic(auto, unfolding(crate::specs::Layout::kind_at))]
pub fn part_at(t: &Tree, j: u16) -> Part
    ensures { result ≡ record { place = half_at t.now (part_base j + 2); kind = kind_at t.now j } }
{
    let base = 8192 + j as usize % 1024 * 8;
    let place = half_at(t, base + 2);
    let a = half_at(t, base + 4);
    let b = half_at(t, base + 6);
    let kind = kind_of(t[base], t[base + 1], a, b);
    Part { place, kind }
}

fn bits_at(low: u16, width: u16, index: u16) -> Target
    ensures { result ≡ record { low = low; width = width; index = index } }
{
    Target { low, width, index }
}

#[tactic(auto, unfolding(crate::specs::Layout::what_of))]
pub fn what_of(tag: u8, a: u16, b: u16, c: u16, d: u16) -> What
    ensures { result ≡ what_of tag a b c d }
{
    match tag {
        1 => What::Delay(a, b),
        2 => What::Change(Change::Raise, bits_at(a, b, c)),
        3 => What::Change(Change::Lower, bits_at(a, b, c)),
        4 => What::Change(Change::Invert, bits_at(a, b, c)),
        5 => What::Assign(bits_at(a, b, 0), d),
        6 => What::Choice(a, b),
        7 => What::While(a),
        8 => What::Loop,
        9 => What::Exit,
        10 => What::Break,
        11 => What::Switch,
        12 => What::Parallel,
        13 => What::Case(a, b),
        _ => What::Skip,
    }
}

#[tactic(auto, unfolding(crate::specs::Layout::what_at))]
pub fn node_at(t: &Tree, i: u16) -> Node
    ensures { result ≡ record { place = half_at t.now (node_base i + 2); what = what_at t.now i } }
{
    let base = i as usize % 512 * 16;
    let place = half_at(t, base + 2);
    let a = half_at(t, base + 8);
    let b = half_at(t, base + 10);
    let c = half_at(t, base + 12);
    let d = half_at(t, base + 14);
    let what = what_of(t[base], a, b, c, d);
    Node { place, what }
}

fn among_of(w: What) -> Among
    ensures { result ≡ among_of w }
{
    match w {
        What::Case(x, m) => Among::Test(x, m),
        _ => Among::Default,
    }
}

fn shape_of(w: What) -> Shape
    ensures { result ≡ shape_of w }
{
    match w {
        What::Delay(_, n) => Shape::Waiting(n),
        What::Choice(_, m) => Shape::Either(m),
        What::While(_) | What::Loop => Shape::Repeat,
        What::Switch => Shape::Tests,
        What::Parallel => Shape::Together,
        _ => Shape::Plain,
    }
}

pub fn shape_at(t: &Tree, i: u16) -> Shape
    ensures { result ≡ shape_of (what_at t.now i) }
{
    shape_of(node_at(t, i).what)
}

pub fn among_at(t: &Tree, i: u16) -> Among
    ensures { result ≡ among_of (what_at t.now i) }
{
    among_of(node_at(t, i).what)
}

// This and the three that follow differ in a byte's place: each is one expression, and specs/Layout has a definition for each.
// How many activities the branch has that begins here.
#[tactic(auto, unfolding(crate::specs::Layout::width_at))]
pub fn width_at(t: &Tree, i: u16) -> u8
    ensures { result ≡ width_at t.now i }
{
    t[i as usize % 512 * 16 + 1]
}

// The input bits that the statement's own expression reads.
#[tactic(auto, unfolding(crate::specs::Layout::looks_at))]
pub fn looks_at(t: &Tree, i: u16) -> u8
    ensures { result ≡ looks_at t.now i }
{
    t[i as usize % 512 * 16 + 12]
}

// A number after i and not past e.
#[tactic(auto, unfolding(crate::specs::Layout::within))]
pub fn kept(m: u16, i: u16, e: u16) -> u16
    requires { i < e }
    ensures { result ≡ within m i e }
{
    m.clamp(i + 1, e)
}

// Where the statement i ends, in a list that ends at e.
#[tactic(auto, unfolding(crate::specs::Layout::end_at))]
pub fn end_at(t: &Tree, i: u16, e: u16) -> u16
    requires { i < e }
    ensures { result ≡ end_at t.now i e }
{
    kept(half_at(t, i as usize % 512 * 16 + 4), i, e)
}

// Where the branch ends that begins at i.
#[tactic(auto, unfolding(crate::specs::Layout::branch_end_at))]
pub fn branch_end_at(t: &Tree, i: u16, e: u16) -> u16
    requires { i < e }
    ensures { result ≡ branch_end_at t.now i e }
{
    kept(half_at(t, i as usize % 512 * 16 + 6), i, e)
}
