// The words of a text: the next one from a place on, and refusal 4.
#![tactic(auto)]

ghost use Rattle.std.specs.Prelude.{◌≡◌, true, false, ◌<◌, length, get_or};
ghost use Rattle.language.specs.Words.{letter, digit, same};
ghost use Rattle.language.specs.Scan.{words_from, words_of};
ghost use Rattle.words.specs.Runs.{part};
ghost use Rattle.words.specs.Meaning.{Stands, Answers, stop_of};

use spellings::bytes::part;

mod bytes;
pub mod kinds;
mod scan;

// "A name has at most 16 bytes"
const LONGEST_NAME: usize = 16;

// "Its value is at most 65,535"
const LARGEST_NUMBER: u32 = 65535;

// A word: its kind by number (`kinds`), its place, the place behind it, and a number's value.
// A kind is a number: a spelling's number gives it by a sum, and it is a byte of the grammar's rows and an index of its tables.
#[derive(Clone, Copy)]
pub struct Word {
    pub kind: u8,
    pub start: usize,
    pub end: usize,
    pub value: u32,
}

// What comes next: a word; refusal 4 and its place; or nothing but blanks. Three cases: an Option in a Result would be no plainer.
#[derive(Clone, Copy)]
pub enum Next {
    Found(Word),
    Stops(usize),
    Over,
}

// The reserved word or the name that starts at a place.
fn name_at(s: &[u8], at: usize) -> Next
    requires { (at < length s.now) × (letter (get_or s.now at 0) ≡ true) }
    ensures { Stands s.now at result }
{
    let end = scan::name_end(s, at);
    if let Some(k) = spellings::reserved(s, at, end) {
        return Next::Found(Word {
            kind: kinds::BARS + k as u8,
            start: at,
            end,
            value: 0,
        });
    }
    if end - at <= LONGEST_NAME {
        return Next::Found(Word {
            kind: kinds::NAME,
            start: at,
            end,
            value: 0,
        });
    }
    Next::Stops(at)
}

// The number that starts at a place.
fn number_at(s: &[u8], at: usize) -> Next
    requires { (at < length s.now) × (letter (get_or s.now at 0) ≡ false) × (digit (get_or s.now at 0) ≡ true) }
    ensures { Stands s.now at result }
{
    let end = scan::number_end(s, at);
    let value = scan::value(&s[at..end]);
    if value <= LARGEST_NUMBER {
        return Next::Found(Word {
            kind: kinds::NUMBER,
            start: at,
            end,
            value,
        });
    }
    Next::Stops(at)
}

// The sign that starts at a place.
fn sign_at(s: &[u8], at: usize) -> Next
    requires { (at < length s.now) × (letter (get_or s.now at 0) ≡ false) × (digit (get_or s.now at 0) ≡ false) }
    ensures { Stands s.now at result }
{
    let Some(k) = spellings::sign(s, at) else {
        return Next::Stops(at);
    };
    Next::Found(Word {
        kind: kinds::BARS + k as u8,
        start: at,
        end: at + spellings::sign_length(k),
        value: 0,
    })
}

// The word that starts at a place.
fn word_at(s: &[u8], at: usize) -> Next
    ensures { Stands s.now at result }
{
    if s.len() <= at {
        return Next::Over;
    }
    let c = s[at];
    if bytes::is_letter(c) {
        return name_at(s, at);
    }
    if bytes::is_digit(c) {
        return number_at(s, at);
    }
    sign_at(s, at)
}

// The next word from a place on: for any bytes and any place.
pub fn next_word(s: &[u8], from: usize) -> Next
    ensures { Answers s.now from result }
{
    word_at(s, scan::past_blanks(s, from))
}

// The place of refusal 4 from a place on: for any bytes and any place.
pub fn stop_from(s: &[u8], place: usize) -> Option<usize>
    ensures { result ≡ stop_of (words_from s.now place) }
{
    if s.len() < place {
        return None;
    }
    let mut from = place;
    loop {
        match next_word(s, from) {
            Next::Found(w) => from = w.end,
            Next::Stops(e) => return Some(e),
            Next::Over => return None,
        }
    }
}

// The place of refusal 4 in the whole text.
pub fn first_stop(s: &[u8]) -> Option<usize>
    ensures { result ≡ stop_of (words_of s.now) }
{
    stop_from(s, 0)
}

// Whether two parts of a text, from a to b and from c to d, are the same bytes: for any numbers.
pub fn same_name(s: &[u8], a: usize, b: usize, c: usize, d: usize) -> bool
    ensures { result ≡ same (part s.now a b) (part s.now c d) }
{
    part(s, a, b) == part(s, c, d)
}
