// The KISS text of a table file, written into a lent buffer.
#![tactic(auto)]

ghost use Rattle.std.specs.Prelude.{◌≡◌, ◌+◌, ◌≤◌, ◌<◌, length};
ghost use Rattle.file_law.specs.Answer.{gives};
ghost use Rattle.file_law.specs.Reading.{stream_in, Within, open_answer};
ghost use Rattle.kiss_law.specs.Text.{decimal, heading};
ghost use Rattle.kiss_law.specs.Kiss.{KissWrites};
ghost use Rattle.kiss_put.specs.Put.{Put};
ghost use Rattle.kiss_write.specs.Held.{held_state, held_rows, held_text};
ghost use Rattle.kiss_write.specs.Meaning.{meaning};

use refusals::{Cause, Refusal};
use sound::Sound;
use stream::sizes::{self, Sizes};

mod sound;

// How many digits a number has.
fn digits(n: u32) -> u32
    requires { n < 100000 }
    ensures { result ≡ length (decimal n) }
{
    match n {
        0..=9 => 1,
        10..=99 => 2,
        100..=999 => 3,
        1000..=9999 => 4,
        _ => 5,
    }
}

// How long the rows of a state are.
fn state_length(sound: Sound, state: u32) -> u32
    requires { state < sound.sizes.states }
    ensures { result ≡ length (held_state (stream_in sound.entry.file.now) sound.entry.sizes.inputs sound.entry.sizes.outputs state 0) }
{
    let z = sound.sizes;
    let fixed = z.inputs + z.outputs + 6 + digits(state);
    let end = sizes::pow2(z.inputs);
    let mut sum: u32 = 0;
    for input in 0..end {
        sum += fixed + digits(stream::next_at(sound.file, z.inputs, state, input));
    }
    sum
}

// How long all rows are.
fn rows_length(sound: Sound) -> u32
    ensures { (result ≡ length (held_rows (stream_in sound.entry.file.now) sound.entry.sizes.inputs sound.entry.sizes.outputs sound.entry.sizes.states 0)) × (result ≤ 700000) }
{
    let z = sound.sizes;
    let mut sum: u32 = 0;
    for state in 0..z.states {
        sum += state_length(sound, state);
    }
    sum
}

// How long the lines before the rows are.
fn heading_length(z: Sizes) -> u32
    requires { Within z.inputs z.outputs z.states }
    ensures { (result ≡ length (heading z.inputs z.outputs z.states)) × (result ≤ 42) }
{
    let rows = z.states * sizes::pow2(z.inputs);
    22 + digits(z.inputs) + digits(z.outputs) + digits(rows) + digits(z.states)
}

// The rows of a state.
fn put_state(sound: Sound, text: &mut [u8], at: usize, state: u32) -> usize
    requires { (state < sound.sizes.states) × (at + length (held_state (stream_in sound.file.now) sound.sizes.inputs sound.sizes.outputs state 0) ≤ length text.old) }
    ensures { Put text.old at (held_state (stream_in sound.entry.file.now) sound.entry.sizes.inputs sound.entry.sizes.outputs state 0) result text.new }
{
    let z = sound.sizes;
    let outs = stream::outputs_at(sound.file, z.inputs, state);
    let most = sizes::pow2(z.inputs);
    let mut end = at;
    for input in 0..most {
        let next = stream::next_at(sound.file, z.inputs, state, input);
        let head = kiss_put::row_head(text, end, z.inputs, state, input);
        end = kiss_put::row_tail(text, head, z.outputs, outs, next);
    }
    end
}

// All rows.
fn put_rows(sound: Sound, text: &mut [u8], at: usize) -> usize
    requires { at + length (held_rows (stream_in sound.file.now) sound.sizes.inputs sound.sizes.outputs sound.sizes.states 0) ≤ length text.old }
    ensures { Put text.old at (held_rows (stream_in sound.entry.file.now) sound.entry.sizes.inputs sound.entry.sizes.outputs sound.entry.sizes.states 0) result text.new }
{
    let z = sound.sizes;
    let mut end = at;
    for state in 0..z.states {
        end = put_state(sound, text, end, state);
    }
    end
}

// The lines before the rows.
fn put_heading(text: &mut [u8], z: Sizes) -> usize
    requires { Within z.inputs z.outputs z.states × (length (heading z.inputs z.outputs z.states) ≤ length text.old) }
    ensures { Put text.old 0 (heading z.inputs z.outputs z.states) result text.new }
{
    let rows = z.states * sizes::pow2(z.inputs);
    let inputs = kiss_put::size_line(text, 0, b'i', z.inputs);
    let outputs = kiss_put::size_line(text, inputs, b'o', z.outputs);
    let products = kiss_put::size_line(text, outputs, b'p', rows);
    let states = kiss_put::size_line(text, products, b's', z.states);
    kiss_put::bytes(text, states, b".r s0\n")
}

// The whole text.
fn put_text(sound: Sound, text: &mut [u8])
    requires { length (held_text (stream_in sound.file.now) sound.sizes.inputs sound.sizes.outputs sound.sizes.states) ≤ length text.old }
    ensures { Put text.old 0 (held_text (stream_in sound.entry.file.now) sound.entry.sizes.inputs sound.entry.sizes.outputs sound.entry.sizes.states) (length (held_text (stream_in sound.entry.file.now) sound.entry.sizes.inputs sound.entry.sizes.outputs sound.entry.sizes.states)) text.new }
{
    let rows = put_heading(text, sound.sizes);
    let end = put_rows(sound, text, rows);
    kiss_put::bytes(text, end, b".e\n");
}

// The text of a sound file: refusals 15 and 12, or the text.
fn write_sound(file: &[u8], text: &mut [u8], z: Sizes) -> Result<u32, Refusal<u32>>
    requires { open_answer file.now ≡ gives (record { inputs = z.inputs; outputs = z.outputs; states = z.states }) }
    ensures { KissWrites file.now text.old (meaning result) text.new }
{
    if z.inputs == 0 || z.outputs == 0 {
        return Err(Refusal {
            cause: Cause::NoKiss,
            place: 0,
        });
    }
    let sound = Sound { file, sizes: z };
    let length = heading_length(z) + rows_length(sound) + 3;
    if text.len() < length as usize {
        return Err(Refusal {
            cause: Cause::Buffer,
            place: 0,
        });
    }
    put_text(sound, text);
    Ok(length)
}

// The KISS text of a table file at the start of a lent buffer: its length, or why not.
pub fn write(file: &[u8], text: &mut [u8]) -> Result<u32, Refusal<u32>>
    ensures { KissWrites file.now text.old (meaning result) text.new }
{
    let z = reader::open(file)?;
    write_sound(file, text, z)
}
