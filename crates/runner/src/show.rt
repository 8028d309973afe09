// What the runner writes of a step.
use moves::Stands;
use refusals::Refusal;
use std::io::Print;
use std::{fmt, io};

// The bits of the outputs in declared order, first declared lowest; `-` where there are none.
#[derive(Drop)]
struct Bits {
    outputs: u32,
    count: u32,
}

impl fmt::Display for Bits {
    fn fmt<W: fmt::Write>(&self, f: &mut fmt::Formatter<W>) -> fmt::Result {
        if self.count == 0 {
            f.write_str(" -")?;
        }
        let mut rest = self.outputs;
        for _ in 0..self.count {
            write!(f, " {}", rest % 2)?;
            rest /= 2;
        }
        Ok(())
    }
}

pub fn stands(to: &impl Print, stands: Result<Stands, Refusal<u32>>, count: u32) -> io::Result<()> {
    match stands {
        Ok(Stands { state, outputs }) => {
            println!(to; ": state {state}, outputs{}", Bits { outputs, count })
        }
        Err(refusal) => println!(to; ": {refusal}"),
    }
}
