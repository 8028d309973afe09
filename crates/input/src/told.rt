// How a failure is told.
use std::fmt::Write;
use std::io::Print;
use std::{fmt, io};

// Passes text on up to the error's number, which is not told.
#[derive(Drop)]
struct Unnumbered<'a, P> {
    to: &'a P,
    over: bool,
}

impl<P: Print> fmt::Write for Unnumbered<'_, P> {
    fn write_str(&mut self, s: &str) -> fmt::Result {
        if self.over {
            return Ok(());
        }
        let shown = match s.split_once(" (os error ") {
            Some((before, _)) => {
                self.over = true;
                before
            }
            None => s,
        };
        self.to.write_all(shown.as_bytes()).map_err(|_| fmt::Error)
    }
}

// A line: what failed, as the caller names it, a colon and the error's text. A line that can't be written is not written.
pub fn fail(errors: &impl Print, what: &[u8], error: io::Error) {
    let _ = line(errors, what, error);
}

fn line(errors: &impl Print, what: &[u8], error: io::Error) -> io::Result<()> {
    errors.write_all(what)?;
    errors.write_all(b": ")?;
    let mut text = Unnumbered {
        to: errors,
        over: false,
    };
    write!(text, "{error}")?;
    errors.write_all(b"\n")
}
