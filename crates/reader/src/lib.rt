// The table file, read: on any bytes, its sizes or why not.
#![tactic(auto)]

ghost use Rattle.std.specs.Prelude.{◌≡◌, ◌/◌, true, length, Err};
ghost use Rattle.file_law.specs.Answer.{gives, refuses, bad_length, bad_content, unless};
ghost use Rattle.file_law.specs.Reading.{length_good, stream_in, content_good, sizes_in, open_answer};
ghost use Rattle.file_law.specs.Stepping.{shape_answer};
ghost use Rattle.reader.specs.Meaning.{meaning};

use refusals::{Cause, Refusal};
use stream::bytes;
use stream::sizes::{self, Sizes};

mod blocks;
mod rows;

use rows::Rows;

// A refusal of the whole file.
fn whole(cause: Cause) -> Refusal<u32>
    ensures { result ≡ record { cause = cause; place = 0 } }
{
    Refusal { cause, place: 0 }
}

// Why a file without a sound shape is refused. The length is tested here and not by every step: a sound shape has a good one.
fn misshapen(len: usize) -> Refusal<u32>
    ensures { meaning (Err result) ≡ unless (length_good len) (refuses bad_length 0) (refuses bad_content 0) }
{
    whole(if blocks::length_good(len) {
        Cause::Content
    } else {
        Cause::Length
    })
}

// The sizes that a file of the right length states; no check is computed. What a step begins with.
pub fn shape(file: &[u8]) -> Result<Sizes, Refusal<u32>>
    ensures { meaning result ≡ shape_answer file.now }
{
    let len = file.len();
    if len < 512 {
        return Err(whole(Cause::Length));
    }
    let k = bytes::byte(file, 4);
    let o = bytes::byte(file, 5);
    let n = bytes::word(file, 6);
    let stated = Sizes {
        inputs: k,
        outputs: o,
        states: n,
    };
    if stated.are_good() && len == 512 * sizes::blocks_for(k, n) as usize {
        return Ok(stated);
    }
    Err(misshapen(len))
}

// The sizes that a file of whole, good blocks states, if all of its content is sound.
fn content(file: &[u8]) -> Result<Sizes, Refusal<u32>>
    requires { length_good (length file.now) ≡ true }
    ensures { meaning result ≡ unless (content_good (stream_in file.now) (length file.now / 512)) (refuses bad_content 0) (gives (sizes_in (stream_in file.now))) }
{
    match shape(file) {
        Ok(size) if Rows::are_good(Rows { file, size }) => Ok(size),
        _ => Err(whole(Cause::Content)),
    }
}

// Opens a file: its sizes, or why not.
pub fn open(file: &[u8]) -> Result<Sizes, Refusal<u32>>
    ensures { meaning result ≡ open_answer file.now }
{
    if !blocks::length_good(file.len()) {
        return Err(whole(Cause::Length));
    }
    let total = (file.len() / 512) as u32;
    match blocks::first_bad(file, total) {
        Some(bad) => Err(Refusal {
            cause: blocks::fault(file, total, bad),
            place: bad,
        }),
        None => content(file),
    }
}
