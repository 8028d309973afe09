// The names that a program's heading has, each behind a blank.
ghost use Rattle.std.specs.Prelude.{◌≤◌, ◌<◌, length, IfSome};

use std::io;
use std::io::Print;
use words::{Next, Word, kinds};

// The next word from a place on.
fn word_from(source: &[u8], from: usize) -> Option<Word>
    ensures { IfSome result (λ w. (w.start ≤ w.end) × (w.end ≤ length source.now) × (from < w.end)) }
{
    match words::next_word(source, from) {
        Next::Found(w) => Some(w),
        Next::Stops(_) | Next::Over => None,
    }
}

// Where that word ends, or the text where there is none.
fn end_of(source: &[u8], from: usize) -> usize {
    match word_from(source, from) {
        Some(w) => w.end,
        None => source.len(),
    }
}

fn name(to: &impl Print, source: &[u8], start: usize, end: usize) -> io::Result<()>
    requires { (start ≤ end) × (end ≤ length source.now) }
{
    print!(to; " ")?;
    to.write_all(&source[start..end])
}

// The program's own: its second word.
pub fn own(to: &impl Print, source: &[u8]) -> io::Result<()> {
    match word_from(source, end_of(source, 0)) {
        Some(w) => name(to, source, w.start, w.end),
        None => print!(to; " "),
    }
}

// The place behind `program NAME ;`.
fn heading_end(source: &[u8]) -> usize {
    let mut end = 0;
    for _ in 0..3 {
        end = end_of(source, end);
    }
    end
}

fn declares(kind: u8) -> bool {
    matches!(kind, kinds::PROCEDURE | kinds::INPUT..=kinds::INTEGER)
}

// The word that ends such a declaration.
fn last_of(kind: u8) -> u8 {
    match kind {
        kinds::PROCEDURE => kinds::ENDPROC,
        _ => kinds::SEMICOLON,
    }
}

// Those that the declarations of that kind declare, or `-`. A declaration is open from its keyword up to its last word; behind a procedure a semicolon may stand.
pub fn declared(to: &impl Print, source: &[u8], kind: u8) -> io::Result<()> {
    let mut at = heading_end(source);
    let mut open = None;
    let mut some = false;
    while let Some(w) = word_from(source, at) {
        at = w.end;
        match open {
            None if declares(w.kind) => open = Some(w.kind),
            None if w.kind == kinds::SEMICOLON => {}
            None => break,
            Some(o) if w.kind == last_of(o) => open = None,
            Some(o) if o == kind && w.kind == kinds::NAME => {
                name(to, source, w.start, w.end)?;
                some = true;
            }
            Some(_) => {}
        }
    }
    if some {
        return Ok(());
    }
    print!(to; " -")
}
