// What does a source say? `front` reads one on standard input; `front FILE..` reads each file, and writes its name first.
#![tactic(auto)]

use std::io;
use std::io::{Input, Print};
use std::rt::{Env, Files};

// What a source says: `good`, or `refused N at P`.
fn answer(to: &impl Print, bytes: &[u8]) -> io::Result<()> {
    match source::check(bytes) {
        Ok(()) => println!(to; "good"),
        Err(r) => println!(to; "{r}"),
    }
}

// A source longer than the buffer is cut at 65,536 bytes, and refused with 3 as the whole would be.
fn standard(rt: &(impl Input + Print)) -> io::Result<()> {
    let mut buffer = [0u8; 65536];
    let got = input::standard(rt, &mut buffer);
    answer(rt, &buffer[..got])
}

// .. and so is the file that argument n names.
fn named(rt: &(impl Env + Files + Print), errors: &impl Print, n: usize) -> io::Result<()> {
    let mut path = [0u8; 4096];
    let mut buffer = [0u8; 65536];
    if let Some(given) = input::named(rt, errors, n, b"argument", &mut path, &mut buffer) {
        rt.write_all(&path[..given.name])?;
        rt.write_all(b": ")?;
        answer(rt, &buffer[..given.bytes])?;
    }
    Ok(())
}

fn main(rt: HostRuntime) -> io::Result<()> {
    if !input::is_given(&rt, 1) {
        return standard(&rt);
    }
    let errors = rt.stderr();
    for n in 1..usize::MAX {
        if !input::is_given(&rt, n) {
            break;
        }
        named(&rt, &errors, n)?;
    }
    Ok(())
}
