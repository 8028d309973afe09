// The stepper for C: the file's bytes and numbers in, one number out.
#![tactic(auto)]

ghost use Rattle.std.specs.Prelude.{◌≡◌};
ghost use Rattle.file_law.specs.Stepping.{step_answer, outputs_answer, start_answer, step_code, outputs_code, open_code};

// "65,536 plus the refusal number": no state and no outputs reach it
const REFUSAL: u32 = 65536;

// The next state, or 65,536 plus the refusal's number.
#[unsafe(no_mangle)]
pub extern "C" fn windnadel_step(file: &[u8], state: u32, input: u32) -> u32
    ensures { result ≡ step_code (step_answer file.now state input) }
{
    match stepper::step(file, state, input) {
        Ok(stands) => stands.state,
        Err(refusal) => REFUSAL + refusal.cause.number(),
    }
}

// The outputs of a state, or 65,536 plus the refusal's number.
#[unsafe(no_mangle)]
pub extern "C" fn windnadel_outputs(file: &[u8], state: u32) -> u32
    ensures { result ≡ outputs_code (outputs_answer file.now state) }
{
    match stepper::outputs(file, state) {
        Ok(stands) => stands.outputs,
        Err(refusal) => REFUSAL + refusal.cause.number(),
    }
}

// The outputs of state 0 of a sound file, or the refusal's number times 2^32 plus its place.
#[unsafe(no_mangle)]
pub extern "C" fn windnadel_open(file: &[u8]) -> u64
    ensures { result ≡ open_code (start_answer file.now) }
{
    match stepper::start(file) {
        Ok(stands) => u64::from(stands.outputs),
        Err(refusal) => u64::from(refusal),
    }
}
