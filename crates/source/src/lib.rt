// What a text says: refused with 3 to 10, or a program, whose tree lies in lent bytes.
#![tactic(auto)]

ghost use Rattle.std.specs.Prelude.{◌≡◌, ◌≤◌, length};
ghost use Rattle.own_law.specs.Noted.{tell_by};
ghost use Rattle.frames_law.specs.Frames.{no_place};
ghost use Rattle.told_law.proofs.Whole.{own as ownText};
ghost use Rattle.source.specs.Settled.{fault_in};
ghost use Rattle.source.specs.Area.{tree_of};
ghost use Rattle.source.specs.Says.{Says, ReadDone};

use decls::Read;
use frames::Under;
use refusals::{Cause, Refusal};

mod area;

// A program: its statements and case tests are n, with its inputs, its outputs and the value word at the start.
#[derive(Clone, Copy)]
pub struct Program {
    pub n: u16,
    pub inputs: u32,
    pub outputs: u32,
    pub word: u32,
}

// A refusal at a place of the text.
fn at(cause: Cause, place: u16) -> Refusal<u32>
    ensures { result ≡ record { cause = cause; place = place } }
{
    Refusal {
        cause,
        place: u32::from(place),
    }
}

// The fault that is told, by the least place of each, 65,535 where there is none. One test to each: an edit changes one of them.
fn settle(six: u16, seven: u16, eight: u16, nine: u16, ten: u16) -> Result<(), Refusal<u32>>
    ensures { fault_in result ≡ tell_by no_place six seven eight nine ten }
{
    if six < 65535 {
        return Err(at(Cause::Name, six));
    }
    if seven < 65535 {
        return Err(at(Cause::Kind, seven));
    }
    if eight < 65535 {
        return Err(at(Cause::Jump, eight));
    }
    if nine < 65535 {
        return Err(at(Cause::Size, nine));
    }
    if ten < 65535 {
        return Err(at(Cause::WorstSize, ten));
    }
    Ok(())
}

// No call is open: every procedure can be called, and frames are written behind the names.
fn own(d: Read) -> Under
    requires { d.marks.names ≤ 4096 }
    ensures { result ≡ ownText d }
{
    Under {
        at: u16::MAX,
        frame: 0,
        depth: 0,
        seen: d.procedures,
        top: d.marks.names * 4 + 4,
    }
}

// Reads a text: its tree lies in the first 16,384 bytes of the area, and the names that it declares in the 16,384 behind them.
pub fn read(s: &[u8], work: &mut [u8]) -> Result<Program, Refusal<u32>>
    requires { 32768 ≤ length work.old }
    ensures { ReadDone s.now work.new result × (length work.new ≡ length work.old) }
{
    grammar::check(s)?;
    let d = area::prepare(s, work);
    let m = d.marks;
    let b = stmts::body(s, m.names, work, own(d), d.word);
    let k = b.marks;
    let n = k.notes;
    settle(
        m.six.min(n.six),
        n.seven,
        k.eight,
        m.nine.min(n.nine),
        n.ten,
    )?;
    Ok(Program {
        n: k.nodes,
        inputs: u32::from(m.inputs),
        outputs: u32::from(m.outputs),
        word: m.word,
    })
}

// The tree that lies in an area, copied: the clock reads a thin array.
pub fn tree(work: &[u8]) -> [u8; 16384]
    requires { 16384 ≤ length work.now }
    ensures { result ≡ tree_of work.now }
{
    let mut t = [0u8; 16384];
    t.copy_from_slice(&work[..16384]);
    t
}

// What any text says. Its stack is bounded: no more than 32 levels are open, each of some 4 KB in an expression and 1.3 KB in a statement.
pub fn check(s: &[u8]) -> Result<(), Refusal<u32>>
    ensures { Says s.now result }
{
    let mut work = [0u8; 32768];
    read(s, &mut work)?;
    Ok(())
}
