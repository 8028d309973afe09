// What a program is given to read: standard input, or the file that an argument names. Whatever is past the end of the buffer is not read.
#![tactic(auto)]

ghost use Rattle.std.specs.Prelude.{IfSome};
ghost use Rattle.input.specs.Counts.{IsPrefixLen};

use std::env::FillError;
use std::io::{Input, Print, Read};
use std::rt::{Env, Files};
use std::{fs, io};

mod told;

// Linux's numbers of the errors that are told of an argument: there is none, it is no text, it is too long.
const MISSING: i32 = 22;

const NO_TEXT: i32 = 84;

const TOO_LONG: i32 = 36;

// A file: how many bytes the name has that it was given by, and how many of its bytes were read. Counts, and no slices: a clause
// says of a count that what it counts is the buffer's own start, and of a slice that is handed back out of a `&mut` only its length.
#[derive(Drop)]
pub struct Given {
    pub name: usize,
    pub bytes: usize,
}

// How many bytes of standard input were read. A read that fails ends them, as the input's end does.
pub fn standard(rt: &impl Input, buffer: &mut [u8]) -> usize
    ensures { IsPrefixLen result buffer.new }
{
    let mut reader = rt.reader();
    filled(&mut reader, buffer)
}

// Reads until the buffer is full, the bytes end or a read fails. The loop counts no index: a read says how far it came.
fn filled(reader: &mut impl Read, buffer: &mut [u8]) -> usize
    ensures { IsPrefixLen result buffer.new }
{
    let mut done = 0;
    while done < buffer.len() {
        match reader.read(&mut buffer[done..]) {
            Ok(0) | Err(_) => break,
            Ok(n) => done += n,
        }
    }
    done
}

// Whether argument n is there.
pub fn is_given(rt: &impl Env, n: usize) -> bool {
    !matches!(rt.arg(n, &mut []), Err(FillError::NotPresent))
}

// How many bytes argument n has, which stand at the start of the word; 0 where it is missing or longer than the word.
pub fn argument(rt: &impl Env, n: usize, word: &mut [u8]) -> usize
    ensures { IsPrefixLen result word.new }
{
    rt.arg(n, word).unwrap_or(0)
}

// The file that argument n names, with its name in path. What fails is told as an error: the usage where the argument is missing.
pub fn named(
    rt: &(impl Env + Files),
    errors: &impl Print,
    n: usize,
    usage: &[u8],
    path: &mut [u8],
    buffer: &mut [u8],
) -> Option<Given>
    ensures { IfSome result (λ g. IsPrefixLen g.name path.new × IsPrefixLen g.bytes buffer.new) }
{
    let name = match rt.arg(n, path) {
        Ok(length) => length,
        Err(error) => {
            told::fail(errors, usage, io::Error::from_raw_os_error(number(error)));
            return None;
        }
    };
    match opened(rt, &path[..name]) {
        Ok(mut file) => Some(Given {
            name,
            bytes: filled(&mut file, buffer),
        }),
        Err(error) => {
            told::fail(errors, &path[..name], error);
            None
        }
    }
}

fn number(error: FillError) -> i32 {
    match error {
        FillError::NotPresent => MISSING,
        FillError::TooLong => TOO_LONG,
    }
}

// The file of that name, to be read. A name that is no UTF-8 has none.
fn opened<R: Files>(rt: &R, name: &[u8]) -> io::Result<R::File> {
    let Ok(text) = std::str::from_utf8(name) else {
        return Err(io::Error::from_raw_os_error(NO_TEXT));
    };
    fs::open(rt, text)
}
