// What a call refuses: why, by the number that the rules give it, and where.
#![tactic(auto)]

ghost use Rattle.std.specs.Prelude.{◌≡◌, ◌+◌, ◌*◌};
ghost use Rattle.refusals.specs.Number.{number_of, code_of, refusal_text};

use std::fmt;

// Why a call refuses, in the order of the numbers.
#[derive(Clone, Copy, Debug, PartialEq, Eq)]
pub enum Cause {
    Room,
    WorkArea,
    TooLong,
    NoWord,
    NoProgram,
    Name,
    Kind,
    Jump,
    Size,
    WorstSize,
    States,
    Buffer,
    NotInTable,
    NoKiss,
    Length,
    BlockNumber,
    Check,
    Content,
}

impl Cause {
    // The number that the rules give it.
    pub fn number(self) -> u32
        ensures { result ≡ number_of self }
    {
        match self {
            Cause::Room => 1,
            Cause::WorkArea => 2,
            Cause::TooLong => 3,
            Cause::NoWord => 4,
            Cause::NoProgram => 5,
            Cause::Name => 6,
            Cause::Kind => 7,
            Cause::Jump => 8,
            Cause::Size => 9,
            Cause::WorstSize => 10,
            Cause::States => 11,
            Cause::Buffer => 12,
            Cause::NotInTable => 14,
            Cause::NoKiss => 15,
            Cause::Length => 21,
            Cause::BlockNumber => 22,
            Cause::Check => 23,
            Cause::Content => 24,
        }
    }
}

// Why and where.
#[derive(Clone, Copy, Debug, PartialEq, Eq)]
pub struct Refusal<P> {
    pub cause: Cause,
    pub place: P,
}

// The one number that C gets: the cause's times 2^32 plus the place.
impl From<Refusal<u32>> for u64 {
    ghost from_gives = { λ r n. n ≡ code_of r };

    fn from(r: Refusal<u32>) -> u64 {
        u64::from(r.cause.number()) * 4294967296 + u64::from(r.place)
    }
}

impl<P: fmt::Display> fmt::Display for Refusal<P> {
    ghost output = { refusal_text P.output };

    fn fmt<W: fmt::Write>(&self, f: &mut fmt::Formatter<W>) -> fmt::Result {
        write!(f, "refused {} at {}", self.cause.number(), self.place)
    }
}
