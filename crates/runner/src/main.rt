// Opens a table file and steps it: runner FILE INPUT.., each input a decimal number.
#![tactic(auto)]

use std::io;
use std::io::Print;
use std::rt::Env;
use stream::sizes::Sizes;

mod number;
mod show;

// Steps once by the argument's number; where there is none, or a refusal, the state stays.
fn stepped(
    rt: &(impl Env + Print),
    file: &[u8],
    state: u32,
    outputs: u32,
    n: usize,
) -> io::Result<u32> {
    let mut room = [0u8; 4096];
    let length = input::argument(rt, n, &mut room);
    let word = &room[..length];
    rt.write_all(b"input ")?;
    rt.write_all(word)?;
    let Some(input) = number::parse(word) else {
        println!(rt; ": not a number below 2^32")?;
        return Ok(state);
    };
    let stands = stepper::step(file, state, input);
    show::stands(rt, stands, outputs)?;
    Ok(stands.map_or(state, |s| s.state))
}

// All steps from the start, an argument each from the third on.
fn steps(rt: &(impl Env + Print), file: &[u8], outputs: u32) -> io::Result<()> {
    rt.write_all(b"start")?;
    show::stands(rt, stepper::start(file), outputs)?;
    let mut state = 0;
    for n in 2..usize::MAX {
        if !input::is_given(rt, n) {
            break;
        }
        state = stepped(rt, file, state, outputs, n)?;
    }
    Ok(())
}

fn opened(rt: &(impl Env + Print), file: &[u8]) -> io::Result<()> {
    match reader::open(file) {
        Ok(
            Sizes {
                inputs,
                outputs,
                states,
            },
        ) => {
            println!(rt; "inputs {inputs}, outputs {outputs}, states {states}")?;
            steps(rt, file, outputs)
        }
        Err(refusal) => println!(rt; "{refusal}"),
    }
}

fn main(rt: HostRuntime) -> io::Result<()> {
    let errors = rt.stderr();
    let mut path = [0u8; 4096];
    let mut buffer = [0u8; 65536];
    let usage = b"runner FILE INPUT..";
    if let Some(given) = input::named(&rt, &errors, 1, usage, &mut path, &mut buffer) {
        opened(&rt, &buffer[..given.bytes])?;
    }
    Ok(())
}
