// A text walked through, field by field: a KISS text that can be written, or the place where it stops being one.
#![tactic(auto)]

ghost use Rattle.std.specs.Prelude.{ℕ, ◌+◌, ◌^◌, ◌<◌};
ghost use Rattle.kiss_law.specs.Text.{ascii};
ghost use Rattle.kiss_law.specs.Fields.{over, fixed};
ghost use Rattle.kiss_walk.specs.Walk.{Stands, rows_form, in_form, Went, Came, Headed, HeadedSo, Checked};

use kiss_fields::Taken;
use stream::sizes::pow2;

mod sizes;

pub use sizes::Sizes;

// The sizes that a text begins with, and the place of its first row. Where there are none, the place where the text stops being one.
#[derive(Clone, Copy)]
pub struct Walked {
    pub sizes: Sizes,
    pub at: usize,
}

// The lines before the rows.
fn heading(text: &[u8]) -> Result<Walked, usize>
    ensures { HeadedSo text.now result }
{
    let ins = kiss_fields::size(text, 0, b'i', 1, 6)?;
    let outs = kiss_fields::size(text, ins.end, b'o', 1, 16)?;
    let k = ins.value + 1;
    let rows = kiss_fields::size(text, outs.end, b'p', pow2(k), 256)?;
    let n = rows.value + 1;
    let all = kiss_fields::size(text, rows.end, b's', n, 1)?;
    let start = kiss_fields::fixed(text, all.end, b".r s0\n")?;
    Ok(Walked {
        sizes: Sizes {
            inputs: k,
            outputs: outs.value + 1,
            states: n,
        },
        at: start.end,
    })
}

// The first row of a state: its outputs, and where it ends.
fn first_row(text: &[u8], at: usize, z: Sizes, state: u32) -> Result<Taken, usize>
    requires { (state < z.states) × Stands text.now (rows_form z.inputs z.outputs z.states state) at }
    ensures { Went text.now (λ (w : ℕ). in_form z.inputs z.outputs z.states state w 1) result }
{
    let head = kiss_fields::head(text, at, z.inputs, state, 0)?;
    let next = kiss_fields::next(text, head.end, z.states)?;
    let outs = kiss_fields::outs(text, next.end, z.outputs)?;
    let line = kiss_fields::fixed(text, outs.end, b"\n")?;
    Ok(Taken {
        value: outs.value,
        end: line.end,
    })
}

// Another row of a state that shows `w`: where it ends.
fn other_row(
    text: &[u8],
    at: usize,
    z: Sizes,
    state: u32,
    input: u32,
    w: u32,
) -> Result<usize, usize>
    requires { (state < z.states) × (input < 2 ^ z.inputs) × Stands text.now (in_form z.inputs z.outputs z.states state w input) at }
    ensures { Came text.now (in_form z.inputs z.outputs z.states state w (input + 1)) result }
{
    let head = kiss_fields::head(text, at, z.inputs, state, input)?;
    let next = kiss_fields::next(text, head.end, z.states)?;
    let shown = kiss_fields::shown(text, next.end, z.outputs, w)?;
    let line = kiss_fields::fixed(text, shown.end, b"\n")?;
    Ok(line.end)
}

// All rows of a state: where they end.
fn state_rows(text: &[u8], at: usize, z: Sizes, state: u32) -> Result<usize, usize>
    requires { (state < z.states) × Stands text.now (rows_form z.inputs z.outputs z.states state) at }
    ensures { Came text.now (rows_form z.inputs z.outputs z.states (state + 1)) result }
{
    let first = first_row(text, at, z, state)?;
    let most = pow2(z.inputs);
    let mut end = first.end;
    for input in 1..most {
        end = other_row(text, end, z, state, input, first.value)?;
    }
    Ok(end)
}

// The rows of all states: where they end.
fn all_rows(text: &[u8], at: usize, z: Sizes) -> Result<usize, usize>
    requires { Stands text.now (rows_form z.inputs z.outputs z.states 0) at }
    ensures { Came text.now (fixed (ascii ".e\n") over) result }
{
    let mut end = at;
    for state in 0..z.states {
        end = state_rows(text, end, z, state)?;
    }
    Ok(end)
}

// The rows, the last line, and nothing behind it.
fn check_rows(text: &[u8], headed: Walked) -> Result<Walked, usize>
    requires { Headed text.now headed }
    ensures { Checked text.now result }
{
    let rows = all_rows(text, headed.at, headed.sizes)?;
    let last = kiss_fields::fixed(text, rows, b".e\n")?;
    if last.end < text.len() {
        return Err(last.end);
    }
    Ok(headed)
}

// The whole text.
pub fn check(text: &[u8]) -> Result<Walked, usize>
    ensures { Checked text.now result }
{
    let headed = heading(text)?;
    check_rows(text, headed)
}
