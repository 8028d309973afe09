// The table of spellings: which reserved word a run is, and which sign stands at a place. The first byte leaves few to compare.
#![tactic(auto)]

ghost use Rattle.std.specs.Prelude.{◌≡◌, ◌-◌, ◌<◌, ◌≤◌, length, get_or, drop};
ghost use Rattle.file_law.specs.Answer.{first_not};
ghost use Rattle.language.specs.Scan.{begins};
ghost use Rattle.spellings.specs.Spelled.{sign_count, spelling_count, spelling};
ghost use Rattle.spellings.specs.Search.{Table, Lists, opening, like_from, FirstSigns, long_signs, sign_next, second, reserved_by, reserved_next, size, fits_at, misses_at, found};

pub mod bytes;
mod data;

// The first so many spellings are signs.
pub const SIGNS: usize = 24;

// How many there are, with the reserved words.
pub const SPELLINGS: usize = 61;

// A link is a byte of a table (fixed memory): the next spelling's number, and SIGNS or SPELLINGS where the links end, as `like_from` has it.

// The number that links lead to, if they do not end there.
fn found(k: usize, end: usize) -> Option<usize>
    ensures { result ≡ found end k }
{
    (k < end).then_some(k)
}

// The first sign that begins with a byte, by the table of the bytes from `low` on.
fn sign_in(table: &[u8], low: u8, c: u8) -> usize
    requires { FirstSigns low table.now × (low ≤ c) × (c - low < length table.now) }
    ensures { result ≡ like_from c sign_count 0 }
{
    usize::from(table[usize::from(c - low)])
}

// The first sign that begins with a byte. Of the two tables the one for most signs is the smaller.
fn first_sign(c: u8) -> usize
    ensures { result ≡ like_from c sign_count 0 }
{
    match c {
        32..=63 => {
            let low = data::LOW_SIGNS;
            sign_in(&low, 32, c)
        }
        64..=127 => {
            let high = data::HIGH_SIGNS;
            sign_in(&high, 64, c)
        }
        _ => SIGNS,
    }
}

// Whether sign k stands at `at`, where its first byte does: it has one byte or two.
fn sign_fits(seconds: &[u8; 10], s: &[u8], at: usize, k: usize) -> bool
    requires { Lists second long_signs seconds.now × (k < long_signs) × (at < length s.now) × (opening k ≡ get_or s.now at 0) }
    ensures { result ≡ fits_at s.now at at k }
{
    let d = seconds[k];
    d == 0 || bytes::byte_at(s, at + 1) == d
}

// How many bytes sign k has.
fn length_in(seconds: &[u8; 10], k: usize) -> usize
    requires { Lists second long_signs seconds.now × (k < long_signs) }
    ensures { result ≡ length (spelling k) }
{
    if seconds[k] == 0 { 1 } else { 2 }
}

pub fn sign_length(k: usize) -> usize
    requires { k < sign_count }
    ensures { result ≡ length (spelling k) }
{
    if k >= data::LONG_SIGNS {
        return 1;
    }
    let seconds = data::SECONDS;
    length_in(&seconds, k)
}

// The number of the first sign that stands at `at`, from sign f on, the first that begins with the byte there.
fn sign_from(next: &[u8; 10], seconds: &[u8; 10], s: &[u8], at: usize, f: usize) -> Option<usize>
    requires { Lists sign_next long_signs next.now × Lists second long_signs seconds.now × (at < length s.now) × (f ≡ like_from (get_or s.now at 0) sign_count 0) }
    ensures { result ≡ found sign_count (first_not (misses_at s.now at at) (sign_count - 0) 0) }
{
    let mut k = f;
    while k < data::LONG_SIGNS {
        if sign_fits(seconds, s, at, k) {
            return Some(k);
        }
        k = usize::from(next[k]);
    }
    found(k, SIGNS)
}

// The number of the first sign that stands at `at`.
pub fn sign(s: &[u8], at: usize) -> Option<usize>
    requires { at < length s.now }
    ensures { result ≡ found sign_count (first_not (misses_at s.now at at) (sign_count - 0) 0) }
{
    let f = first_sign(s[at]);
    if f >= data::LONG_SIGNS {
        return found(f, SIGNS);
    }
    let next = data::NEXT_SIGN;
    let seconds = data::SECONDS;
    sign_from(&next, &seconds, s, at, f)
}

// The first reserved word that begins with a byte.
fn first_reserved(first: &[u8; 26], c: u8) -> usize
    requires { Lists reserved_by 26 first.now }
    ensures { result ≡ like_from c spelling_count sign_count }
{
    match c {
        b'a'..=b'z' => usize::from(first[usize::from(c - b'a')]),
        _ => SPELLINGS,
    }
}

// Whether the text goes on with spelling k.
fn stands_in(row: &[u8], starts: &[u8; 62], s: &[u8], at: usize, k: usize) -> bool
    requires { Table row.now starts.now × (k < spelling_count) }
    ensures { result ≡ begins (drop at s.now) (spelling k) }
{
    let b = usize::from(starts[k]);
    let f = usize::from(starts[k + 1]);
    bytes::stands(s, at, row, b, f)
}

// .. by the whole table, which is copied here: few words come so far.
fn stands(s: &[u8], at: usize, k: usize) -> bool
    requires { k < spelling_count }
    ensures { result ≡ begins (drop at s.now) (spelling k) }
{
    let row = data::ROW;
    let starts = data::STARTS;
    stands_in(&row, &starts, s, at, k)
}

// Whether reserved word k is the run from `at` to e.
fn is_reserved(sizes: &[u8; 37], s: &[u8], at: usize, e: usize, k: usize) -> bool
    requires { Lists size 37 sizes.now × (at ≤ e) × (e ≤ length s.now) × (sign_count ≤ k) × (k < spelling_count) }
    ensures { result ≡ fits_at s.now at e k }
{
    usize::from(sizes[k - SIGNS]) == e - at && stands(s, at, k)
}

// The number of the reserved word that is the run from `at` to e, from word f on, the first that begins as the run does.
fn reserved_from(
    next: &[u8; 37],
    sizes: &[u8; 37],
    s: &[u8],
    at: usize,
    e: usize,
    f: usize,
) -> Option<usize>
    requires { Lists reserved_next 37 next.now × Lists size 37 sizes.now × (at < e) × (e ≤ length s.now) × (f ≡ like_from (get_or s.now at 0) spelling_count sign_count) }
    ensures { result ≡ found spelling_count (first_not (misses_at s.now at e) (spelling_count - sign_count) sign_count) }
{
    let mut k = f;
    while k < SPELLINGS {
        if is_reserved(sizes, s, at, e, k) {
            return Some(k);
        }
        k = usize::from(next[k - SIGNS]);
    }
    None
}

// The number of the reserved word that is the run from `at` to e.
pub fn reserved(s: &[u8], at: usize, e: usize) -> Option<usize>
    requires { (at < e) × (e ≤ length s.now) }
    ensures { result ≡ found spelling_count (first_not (misses_at s.now at e) (spelling_count - sign_count) sign_count) }
{
    let first = data::FIRST_RESERVED;
    let f = first_reserved(&first, s[at]);
    if f == SPELLINGS {
        return None;
    }
    let next = data::NEXT_RESERVED;
    let sizes = data::SIZES;
    reserved_from(&next, &sizes, s, at, e, f)
}
