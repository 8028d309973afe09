// The running controller: one small record, changed in place.
#![tactic(auto)]

ghost use Rattle.std.specs.Prelude.{◌≡◌, ℕ};
ghost use Rattle.file_law.specs.Stepping.{step_answer, start_answer, after};
ghost use Rattle.controller.specs.Record.{running, told, Took};

use moves::Stands;
use refusals::Refusal;

#[derive(Clone, Copy, Debug, PartialEq, Eq)]
pub struct Controller {
    pub state: u32,
    pub outputs: u32,
}

// The record after an answer: as it was where that is a refusal, whatever its number and place.
pub fn moved<E: Drop>(c: Controller, r: Result<Stands, E>) -> Controller
    ensures { (m p : E → ℕ) → running result ≡ after (told m p r) (running c) }
{
    match r {
        Ok(Stands { state, outputs }) => Controller { state, outputs },
        Err(_) => c,
    }
}

// Opens a file in place: state 0 and its outputs, or a refusal that leaves the record as it was.
pub fn open_here(c: &mut Controller, file: &[u8]) -> Result<Stands, Refusal<u32>>
    ensures { Took (start_answer file.now) c.old result c.new }
{
    let r = stepper::start(file);
    *c = moved(*c, r);
    r
}

// One step in place: the next state and its outputs, or a refusal that leaves the record as it was.
pub fn step_here(c: &mut Controller, file: &[u8], input: u32) -> Result<Stands, Refusal<u32>>
    ensures { Took (step_answer file.now c.old.state input) c.old result c.new }
{
    let r = stepper::step(file, c.state, input);
    *c = moved(*c, r);
    r
}
