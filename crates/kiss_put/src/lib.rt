// Pieces of a KISS text, each into its own bytes of a lent buffer.
#![tactic(auto)]

ghost use Rattle.std.specs.Prelude.{[], ◌∷◌, ◌+◌, ◌≤◌, ◌<◌, length};
ghost use Rattle.kiss_law.specs.Text.{ascii, decimal, bits, size_line, row_head, row_tail};
ghost use Rattle.kiss_put.specs.Put.{Put};

pub fn byte(text: &mut [u8], at: usize, b: u8) -> usize
    requires { at + 1 ≤ length text.old }
    ensures { Put text.old at (b ∷ []) result text.new }
{
    text[at] = b;
    at + 1
}

pub fn decimal(text: &mut [u8], at: usize, n: u32) -> usize
    requires { (n < 100000) × (at + length (decimal n) ≤ length text.old) }
    ensures { Put text.old at (decimal n) result text.new }
{
    if n < 10 {
        return byte(text, at, b'0' + n as u8);
    }
    let end = decimal(text, at, n / 10);
    byte(text, end, b'0' + (n % 10) as u8)
}

// All of `word`.
pub fn bytes(text: &mut [u8], at: usize, word: &[u8]) -> usize
    requires { at + length word.now ≤ length text.old }
    ensures { Put text.old at word.now result text.new }
{
    let end = at + word.len();
    text[at..end].copy_from_slice(word);
    end
}

// The low `count` bits of `word`, lowest first.
pub fn bits(text: &mut [u8], at: usize, count: u32, word: u32) -> usize
    requires { at + count ≤ length text.old }
    ensures { Put text.old at (bits count word) result text.new }
{
    let mut end = at;
    let mut rest = word;
    for _ in 0..count {
        end = byte(text, end, b'0' + (rest % 2) as u8);
        rest /= 2;
    }
    end
}

// A blank and an s: what stands before a state.
fn mark(text: &mut [u8], at: usize) -> usize
    requires { at + 2 ≤ length text.old }
    ensures { Put text.old at (ascii " s") result text.new }
{
    let end = byte(text, at, b' ');
    byte(text, end, b's')
}

// The line of a size: a dot, its letter, a blank, the number, LF.
pub fn size_line(text: &mut [u8], at: usize, letter: u8, n: u32) -> usize
    requires { (n < 100000) × (at + length (size_line letter n) ≤ length text.old) }
    ensures { Put text.old at (size_line letter n) result text.new }
{
    let dot = byte(text, at, b'.');
    let word = byte(text, dot, letter);
    let blank = byte(text, word, b' ');
    let end = decimal(text, blank, n);
    byte(text, end, b'\n')
}

// A row up to its next state's number.
pub fn row_head(text: &mut [u8], at: usize, k: u32, state: u32, input: u32) -> usize
    requires { (state < 100000) × (at + length (row_head k state input) ≤ length text.old) }
    ensures { Put text.old at (row_head k state input) result text.new }
{
    let inputs = bits(text, at, k, input);
    let marked = mark(text, inputs);
    let end = decimal(text, marked, state);
    mark(text, end)
}

// A row from its next state's number on.
pub fn row_tail(text: &mut [u8], at: usize, o: u32, outs: u32, next: u32) -> usize
    requires { (next < 100000) × (at + length (row_tail o outs next) ≤ length text.old) }
    ensures { Put text.old at (row_tail o outs next) result text.new }
{
    let end = decimal(text, at, next);
    let blank = byte(text, end, b' ');
    let shown = bits(text, blank, o, outs);
    byte(text, shown, b'\n')
}
