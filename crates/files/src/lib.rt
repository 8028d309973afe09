// The table file of what the search found, block by block into the lent buffer.
// The area and the sizes go side by side: README names `write_file`, which takes them so, and `Small` and `stream_from` name each size.
#![tactic(auto)]

ghost use Rattle.std.specs.Prelude.{◌≡◌, ℕ, ◌+◌, ◌*◌, ◌%◌, ◌^◌, ◌<◌, length, get_or, drop};
ghost use Rattle.file_law.specs.File.{file_of, with_block};
ghost use Rattle.rows.specs.Area.{row_in};
ghost use Rattle.files.specs.Written.{stream_from, Small, WordIs, Wrote};

use stream::sizes::{Sizes, blocks_for, pow2};

// The outputs of state i.
fn outputs_at(area: &[u8], sizes: Sizes, i: usize) -> u16
    requires { Small area.now sizes.inputs sizes.outputs sizes.states × (i < sizes.states) }
    ensures { result ≡ (row_in area.now i).word % 2 ^ sizes.outputs }
{
    (rows::row::word(area, i) % pow2(sizes.outputs)) as u16
}

// Word v behind the first two: the outputs or a next number of a state, and 0 behind the last one's.
fn cell_at(area: &[u8], sizes: Sizes, v: u32) -> u16
    requires { Small area.now sizes.inputs sizes.outputs sizes.states × (v < 131072) }
    ensures { WordIs (stream_from area.now sizes.inputs sizes.outputs sizes.states) (v + 2) result }
{
    let width = pow2(sizes.inputs) + 1;
    let i = (v / width) as usize;
    if sizes.states as usize <= i {
        return 0;
    }
    let c = (v % width) as usize;
    if c == 0 {
        return outputs_at(area, sizes, i);
    }
    rows::next::read(area, i, c - 1) as u16
}

// Word w of the stream, and 0 behind its end.
fn word_at(area: &[u8], sizes: Sizes, w: u32) -> u16
    requires { Small area.now sizes.inputs sizes.outputs sizes.states × (w < 131072) }
    ensures { WordIs (stream_from area.now sizes.inputs sizes.outputs sizes.states) w result }
{
    match w {
        0 => (sizes.inputs + 256 * sizes.outputs) as u16,
        1 => sizes.states as u16,
        _ => cell_at(area, sizes, w - 2),
    }
}

// The 504 bytes of the stream from word `from` on.
fn fill_piece(area: &[u8], piece: &mut [u8], sizes: Sizes, from: u32)
    requires { Small area.now sizes.inputs sizes.outputs sizes.states × (length piece.old ≡ 504) × (from < 65536) }
    ensures { (length piece.new ≡ 504) × ((j : ℕ) → j < 504 → get_or piece.new j 0 ≡ get_or (stream_from area.now sizes.inputs sizes.outputs sizes.states) (2 * from + j) 0) }
{
    for e in 0..252 {
        let v = word_at(area, sizes, from + e as u32);
        let [low, high] = v.to_le_bytes();
        piece[2 * e] = low;
        piece[2 * e + 1] = high;
    }
}

// Block b of the file.
fn put_block(area: &[u8], file: &mut [u8], sizes: Sizes, b: u16, total: u16)
    requires { Small area.now sizes.inputs sizes.outputs sizes.states × (b < 256) × (total < 256) }
    ensures { file.new ≡ with_block file.old b total (drop (504 * b) (stream_from area.now sizes.inputs sizes.outputs sizes.states)) }
{
    let mut piece = [0u8; 504];
    fill_piece(area, &mut piece, sizes, 252 * u32::from(b));
    writer::write_block(file, b, total, &piece);
}

// The blocks of the file of these sizes, or none where the buffer is too short for it.
pub fn write_file(area: &[u8], sizes: Sizes, file: &mut [u8]) -> Option<u16>
    requires { Small area.now sizes.inputs sizes.outputs sizes.states }
    ensures { Wrote file.old (file_of (stream_from area.now sizes.inputs sizes.outputs sizes.states)) result file.new }
{
    let total = blocks_for(sizes.inputs, sizes.states) as u16;
    if file.len() < 512 * usize::from(total) {
        return None;
    }
    for b in 0..total {
        put_block(area, file, sizes, b, total);
    }
    Some(total)
}
