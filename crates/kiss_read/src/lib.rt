// A KISS text, read back into a table file.
#![tactic(auto)]

ghost use Rattle.std.specs.Prelude.{◌≡◌, ◌+◌, ◌^◌, ◌≤◌, ◌<◌, length};
ghost use Rattle.kiss_law.specs.Kiss.{KissReads};
ghost use Rattle.kiss_walk.specs.Walk.{GoodText};
ghost use Rattle.kiss_read.specs.Cursor.{RowIs, WordIs, PieceIs, BlockIs, FileIs};
ghost use Rattle.kiss_read.specs.Meaning.{meaning};

use kiss_walk::{Sizes, Walked};
use refusals::{Cause, Refusal};
use shape::Shape;
use stream::sizes::pow2;

mod shape;

// A row: its next state, its outputs, and where it ends.
#[derive(Drop)]
struct Line {
    next: u32,
    outs: u32,
    end: usize,
}

// The row from `at` on, or the place where the text leaves it.
fn row(text: &[u8], at: usize, z: Sizes, state: u32, input: u32) -> Result<Line, usize>
    requires { (at ≤ length text.now) × (state < z.states) }
    ensures { RowIs text.now z.inputs z.outputs z.states state input at result }
{
    let head = kiss_fields::head(text, at, z.inputs, state, input)?;
    let next = kiss_fields::next(text, head.end, z.states)?;
    let outs = kiss_fields::outs(text, next.end, z.outputs)?;
    if text.len() <= outs.end {
        return Err(outs.end);
    }
    Ok(Line {
        next: next.value,
        outs: outs.value,
        end: outs.end + 1,
    })
}

// A word of the stream, and where the text stands behind it.
#[derive(Drop)]
struct Got {
    value: u16,
    at: usize,
}

// Word w of the stream, which is 0 behind its end.
fn word(text: &[u8], w: u32, at: usize, shape: Shape) -> Got
    requires { (at ≤ length text.now) × (w < 65536) }
    ensures { WordIs text.now shape.sizes.inputs shape.sizes.outputs shape.sizes.states w at result }
{
    let z = shape.sizes;
    if w == 0 {
        return Got {
            value: (z.inputs + 256 * z.outputs) as u16,
            at,
        };
    }
    if w == 1 {
        return Got {
            value: z.states as u16,
            at,
        };
    }
    let state = (w - 2) / shape.width;
    let c = (w - 2) % shape.width;
    if z.states <= state {
        return Got { value: 0, at };
    }
    // A good text has a row here: on another the word is 0.
    match row(text, at, z, state, c.saturating_sub(1)) {
        Ok(line) if c == 0 => Got {
            value: line.outs as u16,
            at,
        },
        Ok(line) => Got {
            value: line.next as u16,
            at: line.end,
        },
        Err(_) => Got { value: 0, at },
    }
}

// The 252 words of the stream from word w on.
fn fill_piece(text: &[u8], piece: &mut [u8], w: u32, at: usize, shape: Shape) -> usize
    requires { (at ≤ length text.now) × (w < 65000) × (length piece.old ≡ 504) }
    ensures { PieceIs text.now shape.sizes.inputs shape.sizes.outputs shape.sizes.states w at piece.new result }
{
    let mut end = at;
    for e in 0..252 {
        let got = word(text, w + e, end, shape);
        let i = 2 * e as usize;
        piece[i..i + 2].copy_from_slice(&got.value.to_le_bytes());
        end = got.at;
    }
    end
}

// Block b of the file.
fn put_block(text: &[u8], file: &mut [u8], b: u32, total: u32, at: usize, shape: Shape) -> usize
    requires { (at ≤ length text.now) × (b < 256) × (total < 256) }
    ensures { BlockIs text.now shape.sizes.inputs shape.sizes.outputs shape.sizes.states b total at file.old result file.new }
{
    let mut piece = [0u8; 504];
    let end = fill_piece(text, &mut piece, 252 * b, at, shape);
    writer::write_block(file, b as u16, total as u16, &piece);
    end
}

// All blocks of the file.
fn put_blocks(text: &[u8], file: &mut [u8], total: u32, at: usize, shape: Shape)
    requires { (at ≤ length text.now) × (total < 256) }
    ensures { FileIs text.now shape.sizes.inputs shape.sizes.outputs shape.sizes.states total at file.old file.new }
{
    let mut end = at;
    for b in 0..total {
        end = put_block(text, file, b, total, end, shape);
    }
}

// The file of a good text: refusal 12, or its blocks.
fn read_good(text: &[u8], file: &mut [u8], walked: Walked) -> Result<u32, Refusal<usize>>
    requires { GoodText text.now walked }
    ensures { KissReads text.now file.old (meaning result) file.new }
{
    let sizes = walked.sizes;
    let width = pow2(sizes.inputs) + 1;
    let total = ((2 + sizes.states * width) * 2 + 503) / 504;
    if file.len() < 512 * total as usize {
        return Err(Refusal {
            cause: Cause::Buffer,
            place: 0,
        });
    }
    put_blocks(text, file, total, walked.at, Shape { sizes, width });
    Ok(total)
}

// The table file of a KISS text at the start of a lent buffer: its blocks, or why not.
pub fn read(text: &[u8], file: &mut [u8]) -> Result<u32, Refusal<usize>>
    ensures { KissReads text.now file.old (meaning result) file.new }
{
    match kiss_walk::check(text) {
        Ok(walked) => read_good(text, file, walked),
        Err(place) => Err(Refusal {
            cause: Cause::NoKiss,
            place,
        }),
    }
}
