// The lines of a listing: the heading from the source, the rows from the table file.
#![tactic(auto)]

use std::io;
use std::io::Print;
use words::kinds;

mod names;
mod rows;

pub fn listing(to: &impl Print, source: &[u8], file: &[u8], states: u32) -> io::Result<()> {
    print!(to; "machine")?;
    names::own(to, source)?;
    print!(to; "\ninputs")?;
    names::declared(to, source, kinds::INPUT)?;
    print!(to; "\noutputs")?;
    names::declared(to, source, kinds::OUTPUT)?;
    println!(to; "\nstates {states}")?;
    rows::all(to, file)
}
