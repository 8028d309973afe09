// Fields of a KISS text: which of a field's texts stands here, or the place where the text leaves all of them.
#![tactic(auto)]

ghost use Rattle.std.specs.Prelude.{◌≡◌, [], ◌∷◌, ◌++◌, ℕ, ◌+◌, ◌*◌, ◌^◌, ◌≤◌, ◌<◌, length};
ghost use Rattle.kiss_law.specs.Text.{decimal, bits, size_line, row_head};
ghost use Rattle.kiss_fields.specs.Took.{Agrees, Took, Digit, ReadSo};

// A field that stands here: which of its texts, and where that ends. A field that does not is the place where the text leaves all of them.
#[derive(Clone, Copy)]
pub struct Taken {
    pub value: u32,
    pub end: usize,
}

// How many bytes of `word` stand in the text from `at` on.
fn agree(text: &[u8], at: usize, word: &[u8]) -> usize
    requires { at ≤ length text.now }
    ensures { Agrees text.now at word.now result }
{
    let most = word.len().min(text.len() - at);
    // A for over an index of both: tried `zip` with `take_while` and `count`, and the proof did not close at `returns`, the count of the pairs.
    for i in 0..most {
        if text[at + i] != word[i] {
            return i;
        }
    }
    most
}

// A field that is one text.
pub fn fixed(text: &[u8], at: usize, word: &[u8]) -> Result<Taken, usize>
    requires { at ≤ length text.now }
    ensures { Took 1 (λ (a : ℕ). word.now) text.now at result }
{
    let same = agree(text, at, word);
    if same < word.len() {
        return Err(at + same);
    }
    Ok(Taken {
        value: 0,
        end: at + same,
    })
}

// The start of a row, up to its next state's number.
pub fn head(text: &[u8], at: usize, k: u32, state: u32, input: u32) -> Result<Taken, usize>
    requires { (at ≤ length text.now) × (k ≤ 6) × (state < 256) }
    ensures { Took 1 (λ (a : ℕ). row_head k state input) text.now at result }
{
    let mut want = [0u8; 16];
    let len = kiss_put::row_head(&mut want, 0, k, state, input);
    fixed(text, at, &want[..len])
}

// Outputs that are known.
pub fn shown(text: &[u8], at: usize, o: u32, word: u32) -> Result<Taken, usize>
    requires { (at ≤ length text.now) × (o ≤ 16) }
    ensures { Took 1 (λ (a : ℕ). bits o word) text.now at result }
{
    let mut want = [0u8; 16];
    let len = kiss_put::bits(&mut want, 0, o, word);
    fixed(text, at, &want[..len])
}

// How much of one line of a size stands in the text, and how long the line is.
#[derive(Drop)]
struct Near {
    same: usize,
    len: usize,
}

fn size_line(text: &[u8], at: usize, letter: u8, n: u32) -> Near
    requires { (at ≤ length text.now) × (n < 100000) }
    ensures { Agrees text.now at (size_line letter n) result.same × (result.len ≡ length (size_line letter n)) }
{
    let mut want = [0u8; 16];
    let len = kiss_put::size_line(&mut want, 0, letter, n);
    let same = agree(text, at, &want[..len]);
    Near { same, len }
}

// The line of a size that is one of the first `most` multiples of `unit`.
pub fn size(text: &[u8], at: usize, letter: u8, unit: u32, most: u32) -> Result<Taken, usize>
    requires { (at ≤ length text.now) × (1 ≤ most) × (most ≤ 256) × (unit ≤ 256) × (most * unit < 100000) }
    ensures { Took most (λ (a : ℕ). size_line letter ((a + 1) * unit)) text.now at result }
{
    let mut best: usize = 0;
    for a in 0..most {
        let near = size_line(text, at, letter, (a + 1) * unit);
        if near.len <= near.same {
            return Ok(Taken {
                value: a,
                end: at + near.len,
            });
        }
        best = best.max(near.same);
    }
    Err(at + best)
}

// The digit that a byte is.
fn digit(b: u8) -> Option<u32>
    ensures { Digit b result }
{
    match b {
        b'0'..=b'9' => Some(u32::from(b - b'0')),
        _ => None,
    }
}

// The digits of a next state behind its first, and the blank behind them.
fn more_digits(text: &[u8], at: usize, n: u32, first: u32) -> Result<Taken, usize>
    requires { (n ≤ 256) × (first < n) × ReadSo text.now at first (at + 1) }
    ensures { Took n (λ (v : ℕ). decimal v ++ (32 ∷ [])) text.now at result }
{
    let mut value = first;
    for end in at + 1..text.len() {
        let b = text[end];
        if b == b' ' {
            return Ok(Taken {
                value,
                end: end + 1,
            });
        }
        let Some(d) = digit(b) else {
            return Err(end);
        };
        if value == 0 {
            return Err(end);
        }
        if n <= 10 * value + d {
            return Err(end);
        }
        value = 10 * value + d;
    }
    Err(text.len())
}

// A next state below `n`, and the blank behind it.
pub fn next(text: &[u8], at: usize, n: u32) -> Result<Taken, usize>
    requires { (at ≤ length text.now) × (1 ≤ n) × (n ≤ 256) }
    ensures { Took n (λ (v : ℕ). decimal v ++ (32 ∷ [])) text.now at result }
{
    let Some(b) = text.get(at) else {
        return Err(at);
    };
    match digit(*b) {
        Some(first) if first < n => more_digits(text, at, n, first),
        _ => Err(at),
    }
}

// Outputs, whatever they are.
pub fn outs(text: &[u8], at: usize, o: u32) -> Result<Taken, usize>
    requires { (at ≤ length text.now) × (o ≤ 16) }
    ensures { Took (2 ^ o) (bits o) text.now at result }
{
    let mut word: u32 = 0;
    for j in 0..o {
        let end = at + j as usize;
        let Some(b) = text.get(end) else {
            return Err(end);
        };
        match digit(*b) {
            Some(d) if d < 2 => word += d << j,
            _ => return Err(end),
        }
    }
    Ok(Taken {
        value: word,
        end: at + o as usize,
    })
}
