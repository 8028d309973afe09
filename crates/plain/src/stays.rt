// Calls that are not expanded: those that are refused, and those that pass a size by themselves.
ghost use Rattle.std.specs.Prelude.{◌≡◌};
ghost use Rattle.plain.specs.Stays.{Refuses, Idles, Passes};

use hand::Here;
use items::{Marks, Read};

// P7: a refused call at p is a skip, and a fault 6.
pub fn refused(t: &mut [u8], word: Here, marks: Marks, p: u16) -> Read
    ensures { Refuses p word marks t.old t.new result }
{
    let i = marks.nodes;
    let m = items::noted::begun(marks, p);
    let k = items::noted::refused(m, p);
    written::finish(t, i, 0, p, word, k, 0, 0, 0, 0)
}

// A branch with a skip.
fn idle(t: &mut [u8], word: Here, marks: Marks, p: u16) -> Read
    ensures { Idles p word marks t.old t.new result }
{
    let m = items::noted::with_acts(marks, 1);
    let k = items::noted::begun(m, p);
    let r = written::finish(t, m.nodes, 0, p, word, k, 0, 0, 0, 0);
    written::branched(t, marks, r)
}

// P13, P14: a call at p that passes a size is a parallel of so many skips, and a fault 9.
pub fn passing(t: &mut [u8], word: Here, marks: Marks, p: u16, acts: u16) -> Read
    ensures { Passes p acts word marks t.old t.new result }
{
    let i = marks.nodes;
    let m = items::noted::begun(marks, p);
    let mut at = items::made(word, items::noted::with_acts(m, 0));
    for j in 0..acts {
        at = idle(t, word, at.marks, p);
    }
    let n = items::noted::together(at.marks, marks.acts, p);
    written::finish(t, i, 12, p, word, items::noted::passing(n, p), 0, 0, 0, 0)
}
