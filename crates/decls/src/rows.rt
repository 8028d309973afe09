// Names and procedures entered: one space of names, so each is looked for among both.
ghost use Rattle.std.specs.Prelude.{◌≡◌, ◌≤◌, ◌<◌, ◌+◌, ◌*◌, length};
ghost use Rattle.words.specs.Runs.{part};
ghost use Rattle.names.specs.Enter.{kind_number};
ghost use Rattle.decls.specs.Held.{row_end, row_in, known_in, with_six};
ghost use Rattle.decls.specs.Came.{EarlierCame, AgainCame, FormalsCame, VariableCame, ProcedureCame};

use hand::{Here, word_from};
use names::{Item, Marks, enter, look};
use words::kinds;

// The place behind the name of a row.
#[tactic(auto, unfolding(crate::specs::Held::row_end))]
fn end_of(t: &[u8], i: usize) -> usize
    requires { i * 4 + 4 ≤ length t.now }
    ensures { result ≡ row_end t.now i }
{
    look::place_at(t, i) + usize::from(t[i * 4 + 3])
}

// Whether one of so many procedures has the name from a to b.
fn called(s: &[u8], t: &[u8], n: u16, a: u16, b: u16) -> bool
    requires { (16384 ≤ length t.now) × (n ≤ 4096) }
    ensures { result ≡ row_in s.now t.now n (part s.now a b) }
{
    for i in (0..usize::from(n)).rev() {
        let row = 4095 - i;
        let p = look::place_at(t, row);
        let q = end_of(t, row);
        if words::same_name(s, p, q, usize::from(a), usize::from(b)) {
            return true;
        }
    }
    false
}

// Whether a declared name or one of so many procedures has the name from a to b.
#[tactic(auto, unfolding(crate::specs::Held::known_in))]
fn known(s: &[u8], t: &[u8], names: u16, n: u16, a: u16, b: u16) -> bool
    requires { (16384 ≤ length t.now) × (n ≤ 4096) × (names ≤ 4096) }
    ensures { result ≡ known_in s.now t.now names n (part s.now a b) }
{
    look::known(look::find(s, t, names, a, b)) || called(s, t, n, a, b)
}

// Whether one of the names between two places has the name from a to b.
fn earlier(s: &[u8], first: u16, to: u16, a: u16, b: u16) -> bool
    requires { (length s.now ≤ 8192) × (first ≤ length s.now) }
    ensures { EarlierCame s.now first to (part s.now a b) result }
{
    let mut from = first;
    loop {
        if to <= from {
            return false;
        }
        let w = word_from(s, from);
        if w.kind > kinds::ENDCOMPRESS {
            return false;
        }
        if words::same_name(s, w.place as usize, w.next as usize, a as usize, b as usize) {
            return true;
        }
        let c = word_from(s, w.next);
        from = c.next;
    }
}

// Whether a formal has a name again.
fn again(s: &[u8], t: &[u8], names: u16, n: u16, first: u16, to: u16, h: Here) -> bool
    requires { (length s.now ≤ 8192) × (first ≤ length s.now) × (16384 ≤ length t.now) × (n ≤ 4096) × (names ≤ 4096) }
    ensures { AgainCame s.now t.now names n first to (part s.now h.place h.next) result }
{
    earlier(s, first, to, h.place, h.next) || known(s, t, names, n, h.place, h.next)
}

// The least place of fault 6 with the formals from a place on.
fn formals(s: &[u8], t: &[u8], names: u16, n: u16, first: u16, old: u16) -> u16
    requires { (length s.now ≤ 8192) × (first ≤ length s.now) × (16384 ≤ length t.now) × (n ≤ 4096) × (names ≤ 4096) }
    ensures { FormalsCame s.now t.now names n first old result }
{
    let mut from = first;
    let mut six = old;
    loop {
        let w = word_from(s, from);
        if w.kind != kinds::NAME {
            return six;
        }
        six = enter::place_if(again(s, t, names, n, first, from, w), w.place, six);
        let c = word_from(s, w.next);
        if c.kind != kinds::COMMA {
            return six;
        }
        from = c.next;
    }
}

// The marks with another place of fault 6.
#[tactic(auto, unfolding(crate::specs::Held::with_six))]
fn with_six(m: Marks, six: u16) -> Marks
    ensures { result ≡ with_six m six }
{
    Marks { six, ..m }
}

// A variable entered: no procedure before it has its name.
pub fn variable_in(s: &[u8], t: &mut [u8], m: Marks, n: u16, i: Item) -> Marks
    requires { (16384 ≤ length t.old) × (n ≤ 4096) × (m.names < 4096) × (i.place < 8192) × (kind_number i.kind < 4) }
    ensures { VariableCame s.now t.old t.new m n i result }
{
    let clash = called(s, t, n, i.place, i.next);
    let k = enter::entered(s, t, m, i);
    with_six(k, enter::place_if(clash, i.place, k.six))
}

// A procedure entered: its name is new, and each formal's is, against its own name too.
pub fn procedure_in(s: &[u8], t: &mut [u8], m: Marks, n: u16, i: Item) -> Marks
    requires { (length s.now ≤ 8192) × (16384 ≤ length t.old) × (n < 4096) × (m.names ≤ 4096) × (i.place < 8192) × (i.next ≤ length s.now) }
    ensures { ProcedureCame s.now t.old t.new m n i result }
{
    let again = known(s, t, m.names, n, i.place, i.next);
    let six = enter::place_if(again, i.place, m.six);
    enter::put_entry(
        t,
        4095 - n,
        i.place,
        0,
        0,
        enter::length_of(i.place, i.next),
    );
    let o = word_from(s, i.next);
    with_six(m, formals(s, t, m.names, n + 1, o.next, six))
}
