// The formals of a procedure, read again from the text.
ghost use Rattle.std.specs.Prelude.{◌≡◌, false, length};
ghost use Rattle.meaning.specs.Declared.{same_bytes};
ghost use Rattle.words.specs.Runs.{part};
ghost use Rattle.language.specs.Scan.{next_word};
ghost use Rattle.frames_law.specs.Frames.{bytes_at};
ghost use Rattle.frames.specs.Layout.{past_next, formals_at, body_from};
ghost use Rattle.frames.specs.List.{Lists, index_in};
ghost use Rattle.frames.specs.Meant.{placed};

use words::{Next, kinds};

// A word of a list: whether it is a name, whether it is a comma, where it starts and ends, and where to go on.
#[derive(Clone, Copy)]
pub struct Listed {
    pub name: bool,
    pub comma: bool,
    pub start: usize,
    pub end: usize,
    pub past: usize,
}

// The formals counted, and the place behind the `)`.
#[derive(Clone, Copy)]
pub struct Heading {
    pub count: u16,
    pub body: usize,
}

// No word: the reading goes on from a place.
fn no_word(past: usize) -> Listed
    ensures { result ≡ record { name = false; comma = false; start = 0; end = 0; past = past } }
{
    Listed {
        name: false,
        comma: false,
        start: 0,
        end: 0,
        past,
    }
}

// The next word from a place on.
fn word_of(s: &[u8], from: usize) -> Listed
    ensures { Lists s.now (next_word s.now from) result }
{
    match words::next_word(s, from) {
        Next::Found(w) => Listed {
            name: w.kind == kinds::NAME,
            comma: w.kind == kinds::COMMA,
            start: w.start,
            end: w.end,
            past: w.end,
        },
        Next::Stops(e) => no_word(e),
        Next::Over => no_word(0),
    }
}

// The place behind the next word.
fn past(s: &[u8], from: usize) -> usize
    ensures { result ≡ past_next (next_word s.now from) }
{
    word_of(s, from).past
}

// Which formal of the procedure whose name stands at p has the name from a to b.
pub fn index(s: &[u8], p: usize, a: u16, b: u16) -> Option<u16>
    ensures { placed result ≡ index_in s.now (formals_at s.now p) (part s.now a b) }
{
    let mut from = past(s, past(s, p));
    for i in 0..8192 {
        let w = word_of(s, from);
        if !w.name {
            return None;
        }
        if words::same_name(s, w.start, w.end, usize::from(a), usize::from(b)) {
            return Some(i);
        }
        let c = word_of(s, w.past);
        if !c.comma {
            return None;
        }
        from = c.past;
    }
    None
}

// Whether the word at p is the name from a to b.
pub fn same_at(s: &[u8], p: usize, a: u16, b: u16) -> bool
    ensures { result ≡ same_bytes (bytes_at s.now p) (part s.now a b) }
{
    let w = word_of(s, p);
    words::same_name(s, w.start, w.end, usize::from(a), usize::from(b))
}

// How many formals the procedure has whose name stands at p, and where its body begins.
pub fn head_of(s: &[u8], p: usize) -> Heading
    ensures { (result.count ≡ length (formals_at s.now p)) × (result.body ≡ body_from s.now p) }
{
    let mut from = past(s, past(s, p));
    for i in 0..8192 {
        let w = word_of(s, from);
        if !w.name {
            return Heading {
                count: i,
                body: past(s, from),
            };
        }
        let c = word_of(s, w.past);
        if !c.comma {
            return Heading {
                count: i + 1,
                body: past(s, w.past),
            };
        }
        from = c.past;
    }
    Heading {
        count: 8192,
        body: past(s, from),
    }
}
