// One clock of a program: a state and its inputs to the next state, with the input bits that it rests on.
#![tactic(auto)]

ghost use Rattle.std.specs.Prelude.{◌≡◌, ◌<◌};
ghost use Rattle.nodes.specs.Ready.{Ready};
ghost use Rattle.clock.specs.Step.{settled_in, Clocks, Starts};

use nodes::Tree;
use runs::{Buffer, Entry, How};
use value::Reads;

// A clock's fuel: three for each of 512 statements and case tests.
pub const FUEL: u16 = 1536;

#[derive(Clone, Copy)]
pub struct State {
    pub entries: [Entry; 8],
    pub word: u32,
}

// The next state, and the input bits that were looked at.
#[derive(Clone, Copy)]
pub struct Clocked {
    pub state: State,
    pub looked: u8,
}

fn settled(o: &Buffer, h: How, word: u32) -> State
    ensures { result ≡ settled_in o.now h word }
{
    if !h.is_waiting() {
        return State {
            entries: o.entries,
            word,
        };
    }
    let set = word | o.ones;
    State {
        entries: o.entries,
        word: set ^ (set & o.zeros),
    }
}

// The first state of a program with n statements and case tests.
pub fn start(n: u16, word: u32) -> State
    ensures { Starts n word result }
{
    let mut entries = [Entry::NOWHERE; 8];
    if n > 0 {
        entries[0].place = 1;
    }
    State { entries, word }
}

// The program has n statements and case tests.
pub fn step(t: &Tree, n: u16, left: u16, s: State, input: u32) -> Clocked
    requires { Ready t.now n left × (input < 64) }
    ensures { Clocks t.now n left s input result }
{
    let old = &s.entries;
    // As a bound that no statement reaches u16::MAX needs no case of its own, and an Option would.
    let m = runs::least_at(old, 0, 8, 0, u16::MAX);
    let mut o = Buffer::BLANK;
    let r = Reads {
        word: s.word,
        inputs: input,
    };
    let h = resume::list(t, r, 0, n, left, 0, 8, m, old, &mut o);
    Clocked {
        state: settled(&o, h, s.word),
        looked: (o.looked % 64) as u8,
    }
}
