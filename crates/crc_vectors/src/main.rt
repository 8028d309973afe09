// Runs the vectors: each argument names a file of data/, and a line with its name and its check in eight hexadecimal digits is written.
// A name ends in the length; `ones` are bytes of ones, `rising` counts up from 0, `mixed` has no order.
#![tactic(auto)]

use std::io;
use std::io::Print;
use std::rt::{Env, Files};

// One vector.
fn one(rt: &(impl Env + Files + Print), errors: &impl Print, n: usize) -> io::Result<()> {
    let mut path = [0u8; 4096];
    let mut file = [0u8; 4096];
    if let Some(given) = input::named(rt, errors, n, b"argument", &mut path, &mut file) {
        let check = crc::crc(&file[..given.bytes]);
        rt.write_all(&path[..given.name])?;
        println!(rt; " {check:08x}")?;
    }
    Ok(())
}

fn main(rt: HostRuntime) -> io::Result<()> {
    let errors = rt.stderr();
    for n in 1..usize::MAX {
        if !input::is_given(&rt, n) {
            break;
        }
        one(&rt, &errors, n)?;
    }
    Ok(())
}
