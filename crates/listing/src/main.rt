// The listing of a source on standard input, with room 256, or `refused N at P`.
#![tactic(auto)]

use std::io;
use std::io::Print;

const ROOM: u32 = 256;

// What is said of a source: the work area for that room, and a buffer for the largest file.
fn answer(to: &impl Print, source: &[u8]) -> io::Result<()> {
    let mut work = [0u8; 49152];
    let mut file = [0u8; 34304];
    match compiler::compile(source, ROOM, &mut work, &mut file) {
        Ok(made) => {
            let end = 512 * made.blocks as usize;
            lines::listing(to, source, &file[..end], made.states)
        }
        Err(refusal) => to.println(refusal),
    }
}

// A longer source is cut at 65,536 bytes, and refused with 3 as the whole would be.
fn main(rt: HostRuntime) -> io::Result<()> {
    let mut buffer = [0u8; 65536];
    let got = input::standard(&rt, &mut buffer);
    answer(&rt, &buffer[..got])
}
