// Reading a source for C: what does it say?
#![tactic(auto)]

ghost use Rattle.std.specs.Prelude.{◌≡◌};
ghost use Rattle.language.specs.Scan.{words_of};
ghost use Rattle.words.specs.Meaning.{stop_of};
ghost use Rattle.front_c.specs.Code.{code_of, Coded, Read, stop_code};

use refusals::Refusal;

// 0, or the refusal's number times 2^32 plus its place.
fn code(answer: Result<(), Refusal<u32>>) -> u64
    ensures { result ≡ code_of answer }
{
    answer.err().map_or(0, u64::from)
}

// 0 for a program without a fault; else the refusal's number times 2^32 plus its place.
#[unsafe(no_mangle)]
pub extern "C" fn windnadel_check(text: &[u8]) -> u64
    ensures { Coded text.now result }
{
    code(source::check(text))
}

// What its words alone say: 0, or refusal 4 likewise, its place modulo 2^32.
// The 4 stays a number: a Refusal<u32> would first need the place of any text cut to 32 bits, which this sum says itself.
#[unsafe(no_mangle)]
pub extern "C" fn windnadel_words(text: &[u8]) -> u64
    ensures { result ≡ stop_code (stop_of (words_of text.now)) }
{
    words::first_stop(text).map_or(0, |e| 4 * 4294967296 + e as u64 % 4294967296)
}

// What its words and its grammar say: 0, or refusal 3, 4 or 5 likewise.
#[unsafe(no_mangle)]
pub extern "C" fn windnadel_grammar(text: &[u8]) -> u64
    ensures { Read text.now result }
{
    code(grammar::check(text))
}
