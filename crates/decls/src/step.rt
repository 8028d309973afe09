// One declared name after the other.
ghost use Rattle.std.specs.Prelude.{◌≡◌, ◌≤◌, ◌<◌, length, Some};
ghost use Rattle.hand.specs.Along.{Near};
ghost use Rattle.decls.specs.Came.{Ended, BooleanStarted, IntegerStarted, NamedCame, Reached, After, Opened, StepCame, BeginCame};
ghost use Rattle.names.specs.Enter.{kind_number};
ghost use Rattle.names.specs.declared.Kind.TheVariants as kind;
ghost use Rattle.decls.specs.Left.{list_of, list_number};

use crate::{At, Named, Started, Turn};
use hand::{Here, word_from};
use names::{Item, Kind};
use words::kinds;

// `.H` or `.L`, or neither.
fn ending(s: &[u8], h: Here) -> Here
    requires { Near s.now h }
    ensures { Ended s.now h result }
{
    if h.kind == kinds::HIGH || h.kind == kinds::LOW {
        word_from(s, h.next)
    } else {
        h
    }
}

// `= true` or `= false`, or neither.
fn boolean_start(s: &[u8], h: Here) -> Started
    requires { Near s.now h }
    ensures { BooleanStarted s.now h result }
{
    if h.kind != kinds::IS {
        return Started { word: h, value: 0 };
    }
    let v = word_from(s, h.next);
    Started {
        word: word_from(s, v.next),
        value: u16::from(v.kind == kinds::TRUE),
    }
}

// `= ` number, or nothing.
fn integer_start(s: &[u8], h: Here) -> Started
    requires { Near s.now h }
    ensures { IntegerStarted s.now h result }
{
    if h.kind != kinds::IS {
        return Started { word: h, value: 0 };
    }
    let v = word_from(s, h.next);
    Started {
        word: word_from(s, v.next),
        value: v.value,
    }
}

// A declared name by itself, as an input's is.
fn bare(h: Here) -> Item
    ensures { result ≡ record { kind = kind.Input; place = h.place; next = h.next; number = 0; width = 0; value = 0 } }
{
    Item {
        kind: Kind::Input,
        place: h.place,
        next: h.next,
        number: 0,
        width: 0,
        value: 0,
    }
}

// A declared integer, with its width and its initial value.
fn integer(s: &[u8], h: Here) -> Named
    requires { Near s.now h }
    ensures { NamedCame s.now 4 h result }
{
    let o = word_from(s, h.next);
    let n = word_from(s, o.next);
    let c = word_from(s, n.next);
    let g = integer_start(s, word_from(s, c.next));
    Named {
        item: Item {
            kind: Kind::Integer,
            number: n.place,
            width: n.value,
            value: g.value,
            ..bare(h)
        },
        word: g.word,
    }
}

// A declared boolean, an output or an internal, with its ending and its initial value.
fn boolean(s: &[u8], kind: Kind, h: Here) -> Named
    requires { Near s.now h × (1 ≤ kind_number kind) × (kind_number kind ≤ 2) }
    ensures { NamedCame s.now (list_number (Some kind)) h result }
{
    let g = boolean_start(s, ending(s, word_from(s, h.next)));
    Named {
        item: Item {
            kind,
            width: 1,
            value: g.value,
            ..bare(h)
        },
        word: g.word,
    }
}

// A declared input, with its ending.
fn input(s: &[u8], h: Here) -> Named
    requires { Near s.now h }
    ensures { NamedCame s.now 1 h result }
{
    Named {
        item: bare(h),
        word: ending(s, word_from(s, h.next)),
    }
}

// What a declaration's first word opens a list of.
#[tactic(auto, unfolding(crate::specs::Left::list_of))]
fn list_of(kind: u8) -> Option<Kind>
    ensures { list_number result ≡ list_of kind }
{
    match kind {
        kinds::INPUT => Some(Kind::Input),
        kinds::OUTPUT => Some(Kind::Output),
        kinds::INTERNAL => Some(Kind::Internal),
        kinds::INTEGER => Some(Kind::Integer),
        kinds::PROCEDURE => Some(Kind::Procedure),
        _ => None,
    }
}

// At the first name of the declaration that this word begins, or behind the declarations.
fn opened(s: &[u8], h: Here) -> At
    requires { Near s.now h }
    ensures { Opened s.now h result }
{
    match list_of(h.kind) {
        None => At {
            list: None,
            word: h,
        },
        Some(kind) => At {
            list: Some(kind),
            word: word_from(s, h.next),
        },
    }
}

// A variable of a kind was read: where the next name is.
fn behind(s: &[u8], kind: Kind, h: Here, n: Named) -> Turn
    requires { Near s.now h × (kind_number kind < 4) × (h.kind ≡ 0) × NamedCame s.now (list_number (Some kind)) h n }
    ensures { StepCame s.now (record { list = Some kind; word = h }) result }
{
    let v = word_from(s, n.word.next);
    Turn {
        item: n.item,
        at: if n.word.kind == kinds::COMMA {
            At {
                list: Some(kind),
                word: v,
            }
        } else {
            opened(s, v)
        },
    }
}

// The first `endproc` from a word on: no procedure stands in another.
fn reached(s: &[u8], first: Here) -> Here
    requires { Near s.now first }
    ensures { Reached s.now first result }
{
    let mut h = first;
    loop {
        if h.kind == kinds::ENDPROC || h.kind > kinds::ENDCOMPRESS {
            return h;
        }
        h = word_from(s, h.next);
    }
}

// Behind a procedure: a `;`, or none.
fn after(s: &[u8], h: Here) -> Here
    requires { Near s.now h }
    ensures { After s.now h result }
{
    if h.kind == kinds::SEMICOLON {
        word_from(s, h.next)
    } else {
        h
    }
}

// A procedure's name, its body passed over, and where the next name is.
fn procedure(s: &[u8], h: Here) -> Turn
    requires { Near s.now h × (h.kind ≡ 0) }
    ensures { StepCame s.now (record { list = Some kind.Procedure; word = h }) result }
{
    let e = reached(s, word_from(s, h.next));
    let v = after(s, word_from(s, e.next));
    Turn {
        item: Item {
            kind: Kind::Procedure,
            ..bare(h)
        },
        at: opened(s, v),
    }
}

// One declared name, and where the next one is.
pub fn step(s: &[u8], kind: Kind, h: Here) -> Turn
    requires { Near s.now h × (h.kind ≡ 0) }
    ensures { StepCame s.now (record { list = Some kind; word = h }) result }
{
    match kind {
        Kind::Input => behind(s, kind, h, input(s, h)),
        Kind::Output | Kind::Internal => behind(s, kind, h, boolean(s, kind, h)),
        Kind::Integer => behind(s, kind, h, integer(s, h)),
        Kind::Procedure => procedure(s, h),
    }
}

// The first declared name of a program.
pub fn begin(s: &[u8]) -> At
    requires { length s.now ≤ 8192 }
    ensures { BeginCame s.now result }
{
    let p = word_from(s, 0);
    let n = word_from(s, p.next);
    let c = word_from(s, n.next);
    opened(s, word_from(s, c.next))
}
