// The rows of a table file: state, output bits in declared order, next states.
use std::io;
use std::io::Print;

// The bits of the outputs, first declared lowest; `-` where there are none.
fn bits(to: &impl Print, outputs: u32, count: u32) -> io::Result<()> {
    if count == 0 {
        print!(to; " -")?;
    }
    let mut rest = outputs;
    for _ in 0..count {
        let bit = rest % 2;
        print!(to; " {bit}")?;
        rest /= 2;
    }
    Ok(())
}

fn outputs_of(file: &[u8], state: u32) -> u32 {
    match stepper::outputs(file, state) {
        Ok(stands) => stands.outputs,
        Err(_) => 0,
    }
}

// The next states, input by input up to the first that the table does not have.
fn nexts(to: &impl Print, file: &[u8], state: u32) -> io::Result<()> {
    for input in 0..64 {
        let Ok(stands) = stepper::step(file, state, input) else {
            break;
        };
        let next = stands.state;
        print!(to; " {next}")?;
    }
    Ok(())
}

fn counted(to: &impl Print, file: &[u8], outputs: u32, states: u32) -> io::Result<()> {
    for state in 0..states {
        print!(to; "{state}")?;
        bits(to, outputs_of(file, state), outputs)?;
        nexts(to, file, state)?;
        println!(to; "")?;
    }
    Ok(())
}

pub fn all(to: &impl Print, file: &[u8]) -> io::Result<()> {
    match reader::open(file) {
        Ok(sizes) => counted(to, file, sizes.outputs, sizes.states),
        Err(refusal) => to.println(refusal),
    }
}
