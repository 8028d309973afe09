// The reachable states of a stored program, numbered, with their next numbers. An input that agrees with an earlier one on all
// that its clock looked at needs no clock of its own.
#![tactic(auto)]

ghost use Rattle.std.specs.Prelude.{◌≡◌, ◌<◌, length};
ghost use Rattle.nodes.specs.Ready.{Ready};
ghost use Rattle.rows.specs.Area.{next_at, next_in};
ghost use Rattle.rows.specs.Nexts.{NextPut};
ghost use Rattle.search.specs.Machine.{machine_in};
ghost use Rattle.search.specs.Going.{Sized, Going, InRow, RowDone, Searched};
ghost use Rattle.search.specs.Masks.{Earlier, StepDone};

use clock::State;
use nodes::Tree;
use rows::{next, row};

// What is searched: a tree's statements and case tests, the clock's fuel, the word at the start, the inputs, and the room.
// The tree goes beside it: `machine_in` names the bytes and these numbers apart.
#[derive(Clone, Copy)]
pub struct Task {
    pub count: u16,
    pub left: u16,
    pub word: u32,
    pub inputs: u32,
    pub room: usize,
}

// So many states, and the input bits that a clock looked at.
#[derive(Clone, Copy)]
pub struct Met {
    pub states: usize,
    pub looked: u8,
}

// An earlier input that x was not told apart from, or none: from input 0 on, each time with the bits that were looked at so far.
fn earlier(masks: &[u8; 64], x: u32) -> Option<u32>
    requires { x < 64 }
    ensures { Earlier masks.now x result }
{
    let mut seen: u32 = 0;
    for _ in 0..7 {
        let p = x & seen;
        if p >= x {
            return None;
        }
        let mask = u32::from(masks[p as usize]);
        if (x & mask) == (p & mask) {
            return Some(p);
        }
        seen |= mask;
    }
    None
}

// The next number of an earlier input once more.
fn copy_next(area: &mut [u8], i: usize, x: usize, p: usize)
    requires { (next_at i x < length area.old) × (x < 64) × (p < x) }
    ensures { NextPut area.old i x (next_in area.old i p) area.new }
{
    let j = next::read(area, i, p);
    next::put(area, i, x, j);
}

// A clock: state i, which is s, with input x. None where there are more states than the room.
fn clocked(
    tree: &Tree,
    area: &mut [u8],
    task: Task,
    n: usize,
    i: usize,
    s: State,
    x: u32,
) -> Option<Met>
    requires { Ready tree.now task.count task.left × InRow (machine_in tree.now task) task.room area.old n i x s × (x < task.inputs) }
    ensures { StepDone (machine_in tree.now task) task.room area.old i x s result area.new }
{
    let c = clock::step(tree, task.count, task.left, s, x);
    let t = c.state;
    let looked = c.looked;
    match index::find(area, n, t) {
        Ok(j) => {
            next::put(area, i, x as usize, j);
            Some(Met { states: n, looked })
        }
        Err(slot) => {
            if n < task.room {
                index::add(area, n, slot, t);
                next::put(area, i, x as usize, n);
                return Some(Met {
                    states: n + 1,
                    looked,
                });
            }
            None
        }
    }
}

// All inputs of state i.
fn one_row(tree: &Tree, area: &mut [u8], task: Task, n: usize, i: usize) -> Option<usize>
    requires { Ready tree.now task.count task.left × Going (machine_in tree.now task) task.room area.old n i 0 × (i < n) }
    ensures { RowDone (machine_in tree.now task) task.room area.old i result area.new }
{
    let s = row::read(area, i);
    let mut masks = [0u8; 64];
    let mut m = n;
    for x in 0..task.inputs {
        let at = x as usize;
        if let Some(p) = earlier(&masks, x) {
            let from = p as usize;
            copy_next(area, i, at, from);
            masks[at] = masks[from];
            continue;
        }
        let met = clocked(tree, area, task, m, i, s, x)?;
        m = met.states;
        masks[at] = met.looked;
    }
    Some(m)
}

// The number of all reachable states, with their next numbers, or none where they are more than the room.
pub fn search(tree: &Tree, area: &mut [u8], task: Task) -> Option<usize>
    requires { Ready tree.now task.count task.left × Sized (machine_in tree.now task) task.room area.old × (0 < task.room) }
    ensures { Searched (machine_in tree.now task) task.room area.old result area.new }
{
    index::clear(area);
    let s = clock::start(task.count, task.word);
    let home = index::hash(s);
    index::add(area, 0, home, s);
    let mut n: usize = 1;
    let mut i: usize = 0;
    // The bound grows while states are found, which the range of a `for` does not.
    while i < n {
        n = one_row(tree, area, task, n, i)?;
        i += 1;
    }
    Some(n)
}
