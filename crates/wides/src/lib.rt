// The activities that each procedure can have (P14), from the words of its body, filled into its row.
#![tactic(auto)]

ghost use Rattle.std.specs.Prelude.{◌≤◌, length};
ghost use Rattle.hand.specs.Along.{Near};
ghost use Rattle.parts.specs.Beside.{beside};
ghost use Rattle.wides.specs.Fill.{ListCounted, ParallelCounted, BodyCounted, WideOf, FilledBehind};

use hand::Here;
use words::kinds;

mod calls;
mod counts;
mod put;

// A list of statements: the word that ends it, and its activities.
#[derive(Clone, Copy)]
pub struct Counted {
    pub word: Here,
    pub acts: u8,
}

// The parentheses of a call: the word behind them, and how many actuals stand in them.
#[derive(Clone, Copy)]
pub struct Passed {
    pub word: Here,
    pub count: u16,
}

// A list of statements, before which so many activities are known.
#[cycle(list_parallel)]
fn list(s: &[u8], t: &[u8], n: u16, first: Here, here: u8) -> Counted
    requires { Near s.now first }
    ensures { ListCounted s.now (beside t.now).names n first here result }
{
    let mut word = first;
    let mut acts = here;
    loop {
        if counts::ends(word.kind) {
            return Counted { word, acts };
        }
        let v = hand::word_from(s, word.next);
        if word.kind == kinds::PARALLEL {
            let c = parallel(s, t, n, v, acts);
            acts = c.acts;
            word = c.word;
            continue;
        }
        if counts::calls(word.kind, v.kind) {
            let p = calls::over(s, hand::word_from(s, v.next));
            acts = acts.max(calls::of_call(s, t, n, word.place, word.next, p.count));
            word = p.word;
            continue;
        }
        word = v;
    }
}

// A parallel, from the word behind its first on.
#[cycle(list_parallel)]
fn parallel(s: &[u8], t: &[u8], n: u16, first: Here, here: u8) -> Counted
    requires { Near s.now first }
    ensures { ParallelCounted s.now (beside t.now).names n first here result }
{
    let mut at = list(s, t, n, first, 1);
    let mut sum: u8 = 0;
    loop {
        let w = at.word;
        if w.kind == kinds::ENDPARALLEL {
            let word = hand::word_from(s, w.next);
            let acts = here.max(counts::added(sum, at.acts));
            return Counted { word, acts };
        }
        if w.kind != kinds::BARS {
            return at;
        }
        let v = hand::word_from(s, w.next);
        sum = counts::added(sum, at.acts);
        at = list(s, t, n, v, 1);
    }
}

// A body, from its first word up to its `endproc`; a sign that ends no parallel changes nothing.
fn body(s: &[u8], t: &[u8], n: u16, first: Here) -> u8
    requires { Near s.now first }
    ensures { BodyCounted s.now (beside t.now).names n first result }
{
    let mut at = list(s, t, n, first, 1);
    loop {
        let w = at.word;
        if w.kind > kinds::ENDPARALLEL {
            return at.acts;
        }
        at = list(s, t, n, hand::word_from(s, w.next), at.acts);
    }
}

// The activities that the procedure of row i can have, by those of the rows before.
fn wide_of(s: &[u8], t: &[u8], i: u16) -> u8
    requires { length s.now ≤ 8192 }
    ensures { WideOf s.now (beside t.now).names i result }
{
    let p = frames::area::procedure_at(t, i);
    let h = frames::list::head_of(s, usize::from(p));
    if h.body > s.len() {
        return 1;
    }
    body(s, t, i, hand::word_from(s, h.body as u16))
}

// The rows of n procedures, in the order of the text.
pub fn fill(s: &[u8], t: &mut [u8], n: u16)
    requires { (length s.now ≤ 8192) × (32768 ≤ length t.old) × (n ≤ 4096) }
    ensures { FilledBehind s.now t.old t.new n }
{
    for i in 0..n {
        let x = wide_of(s, t, i);
        put::put_wide(t, i, x);
    }
}
