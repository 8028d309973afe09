// The block writer of the table file: each block into its own 512 bytes of the lent buffer.
#![tactic(auto)]

ghost use Rattle.std.specs.Prelude.{◌≡◌, length};
ghost use Rattle.file_law.specs.File.{piece_of, block_of, with_block};

// The first 504 bytes of `rest`, filled with zeros.
fn put_piece(piece: &mut [u8], rest: &[u8])
    requires { length piece.old ≡ 504 }
    ensures { piece.new ≡ piece_of rest.now }
{
    let held = rest.len().min(504);
    piece[..held].copy_from_slice(&rest[..held]);
    piece[held..].fill(0);
}

// A whole block: number, total and piece, and then the check of these 508 bytes.
fn fill_block(block: &mut [u8], number: u16, total: u16, rest: &[u8])
    requires { length block.old ≡ 512 }
    ensures { block.new ≡ block_of number total rest.now }
{
    block[..2].copy_from_slice(&number.to_le_bytes());
    block[2..4].copy_from_slice(&total.to_le_bytes());
    put_piece(&mut block[4..508], rest);
    let check = crc::crc(&block[..508]);
    block[508..].copy_from_slice(&check.to_le_bytes());
}

// Block `number` of `total` into its own 512 bytes; a buffer that ends before them is left alone.
pub fn write_block(file: &mut [u8], number: u16, total: u16, rest: &[u8])
    ensures { file.new ≡ with_block file.old number total rest.now }
{
    let start = 512 * usize::from(number);
    let end = start + 512;
    if file.len() < end {
        return;
    }
    fill_block(&mut file[start..end], number, total, rest);
}
