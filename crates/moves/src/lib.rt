// A step and a look inside a file of known sizes: the next state and its outputs, or why not.
#![tactic(auto)]

ghost use Rattle.std.specs.Prelude.{◌≡◌, ◌<◌};
ghost use Rattle.file_law.specs.Reading.{stream_in};
ghost use Rattle.file_law.specs.Stepping.{Sized, stand_answer, move_answer, look_answer};
ghost use Rattle.moves.specs.Meaning.{meaning};

use refusals::{Cause, Refusal};
use stream::sizes::{self, Sizes};

// "state or input not in the table"
const NOT_IN_TABLE: Refusal<u32> = Refusal {
    cause: Cause::NotInTable,
    place: 0,
};

const BAD_CONTENT: Refusal<u32> = Refusal {
    cause: Cause::Content,
    place: 0,
};

// Where the controller stands, with its outputs.
#[derive(Clone, Copy, Debug, PartialEq, Eq)]
pub struct Stands {
    pub state: u32,
    pub outputs: u32,
}

// That a file is `Sized` is asked by each of these, and is no type: PROMISES names `move_in` and `look_in`, which may take no narrower one.

// A state of the table with its outputs, unless a spare bit of them is set.
fn stand_in(file: &[u8], size: Sizes, state: u32) -> Result<Stands, Refusal<u32>>
    requires { Sized file.now size.inputs size.outputs size.states × (state < size.states) }
    ensures { meaning result ≡ stand_answer (stream_in file.now) size.inputs size.outputs state }
{
    let outputs = stream::outputs_at(file, size.inputs, state);
    if sizes::pow2(size.outputs) <= outputs {
        return Err(BAD_CONTENT);
    }
    Ok(Stands { state, outputs })
}

// The step of a file that has the length which its sizes call for. States are below 256, so the low byte names the next one,
// and the high byte is read last, for speed alone: what is read after a test keeps the test a branch, for which no next step waits.
pub fn move_in(file: &[u8], size: Sizes, state: u32, input: u32) -> Result<Stands, Refusal<u32>>
    requires { Sized file.now size.inputs size.outputs size.states }
    ensures { meaning result ≡ move_answer (stream_in file.now) size.inputs size.outputs size.states state input }
{
    if size.states <= state || sizes::pow2(size.inputs) <= input {
        return Err(NOT_IN_TABLE);
    }
    let next = stream::next_low(file, size.inputs, state, input);
    if size.states <= next {
        return Err(BAD_CONTENT);
    }
    let stands = stand_in(file, size, next)?;
    if stream::next_at(file, size.inputs, state, input) != next {
        return Err(BAD_CONTENT);
    }
    Ok(stands)
}

// The look at one state of such a file.
pub fn look_in(file: &[u8], size: Sizes, state: u32) -> Result<Stands, Refusal<u32>>
    requires { Sized file.now size.inputs size.outputs size.states }
    ensures { meaning result ≡ look_answer (stream_in file.now) size.inputs size.outputs size.states state }
{
    if size.states <= state {
        return Err(NOT_IN_TABLE);
    }
    stand_in(file, size, state)
}
