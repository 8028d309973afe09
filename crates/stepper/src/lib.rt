// One step of a table file: a state number and the file's bytes in, the next state and its outputs out.
#![tactic(auto)]

ghost use Rattle.std.specs.Prelude.{◌≡◌};
ghost use Rattle.file_law.specs.Stepping.{step_answer, outputs_answer, start_answer};
ghost use Rattle.moves.specs.Meaning.{meaning};

use moves::Stands;
use refusals::Refusal;

// One step, for any bytes and any numbers.
pub fn step(file: &[u8], state: u32, input: u32) -> Result<Stands, Refusal<u32>>
    ensures { meaning result ≡ step_answer file.now state input }
{
    let size = reader::shape(file)?;
    moves::move_in(file, size, state, input)
}

// A state with its outputs, for any bytes and any number.
pub fn outputs(file: &[u8], state: u32) -> Result<Stands, Refusal<u32>>
    ensures { meaning result ≡ outputs_answer file.now state }
{
    let size = reader::shape(file)?;
    moves::look_in(file, size, state)
}

// Opens a file: state 0 with its outputs, or why not, for any bytes.
pub fn start(file: &[u8]) -> Result<Stands, Refusal<u32>>
    ensures { meaning result ≡ start_answer file.now }
{
    let size = reader::open(file)?;
    Ok(Stands {
        state: 0,
        outputs: stream::outputs_at(file, size.inputs, 0),
    })
}
