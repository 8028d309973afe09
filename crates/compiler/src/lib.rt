// The compile call: what is refused, the search, the file, and the work area all zero at the end.
#![tactic(auto)]

ghost use Rattle.std.specs.Prelude.{◌≡◌, ◌*◌, ◌≤◌, length};
ghost use Rattle.stored.specs.Stored.{Stored};
ghost use Rattle.language.specs.Promise.{Compiles, Ready};
ghost use Rattle.compiler.specs.Answered.{lent, ended, EndsSo};

use nodes::Tree;
use refusals::{Cause, Refusal};
use search::Task;
use source::Program;
use stream::sizes::{Sizes, pow2};

mod behind;

// The bytes of a tree: the search's part of the work area lies behind them.
const TREE: usize = 16384;

// The file that was made: so many states, in so many blocks.
#[derive(Clone, Copy, Debug, PartialEq, Eq)]
pub struct Made {
    pub states: u32,
    pub blocks: u32,
}

// The states and the file of a program that is stored; the work area is free behind its tree.
fn finish(
    source: &[u8],
    tree: &Tree,
    p: Program,
    room: u32,
    work: &mut [u8],
    file: &mut [u8],
) -> Result<Made, Refusal<u32>>
    requires { Stored source.now tree.now p.n p.inputs p.outputs p.word × (3 * p.n ≤ 1536) × Ready (lent source.now room work.old file.old) }
    ensures { EndsSo source.now room (length work.old) file.old result file.new × (length work.new ≡ length work.old) }
{
    let task = Task {
        count: p.n,
        left: clock::FUEL,
        word: p.word,
        inputs: pow2(p.inputs),
        room: room as usize,
    };
    let Some(n) = behind::search(tree, work, TREE, task) else {
        return Err(Refusal {
            cause: Cause::States,
            place: 0,
        });
    };
    let sizes = Sizes {
        inputs: p.inputs,
        outputs: p.outputs,
        states: n as u32,
    };
    let Some(blocks) = behind::write_file(work, TREE, sizes, file) else {
        return Err(Refusal {
            cause: Cause::Buffer,
            place: 0,
        });
    };
    Ok(Made {
        states: sizes.states,
        blocks: u32::from(blocks),
    })
}

// What is said of a text, with room and work area as they should be.
fn answer(source: &[u8], room: u32, work: &mut [u8], file: &mut [u8]) -> Result<Made, Refusal<u32>>
    requires { Ready (lent source.now room work.old file.old) }
    ensures { EndsSo source.now room (length work.old) file.old result file.new × (length work.new ≡ length work.old) }
{
    let p = source::read(source, work)?;
    let tree = source::tree(work);
    finish(source, &tree, p, room, work, file)
}

// A source into a table file, for any bytes and any numbers.
pub fn compile(
    source: &[u8],
    room: u32,
    work: &mut [u8],
    file: &mut [u8],
) -> Result<Made, Refusal<u32>>
    ensures { Compiles (lent source.now room work.old file.old) (ended result work.new file.new) }
{
    if room < 1 || 256 < room {
        return Err(Refusal {
            cause: Cause::Room,
            place: 0,
        });
    }
    if work.len() < 32768 + 64 * room as usize {
        return Err(Refusal {
            cause: Cause::WorkArea,
            place: 0,
        });
    }
    let r = answer(source, room, work, file);
    work.fill(0);
    r
}
