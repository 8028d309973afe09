// Numbers of two and four bytes, low byte first.
ghost use Rattle.std.specs.Prelude.{◌≡◌, ◌+◌, ◌≤◌, length};
ghost use Rattle.file_law.specs.Bytes.{word2, word4, bytes_of};
ghost use Rattle.rows.specs.Area.{Changed};

pub fn half_at(area: &[u8], at: usize) -> u16
    requires { at + 2 ≤ length area.now }
    ensures { result ≡ word2 (bytes_of area.now) at }
{
    u16::from_le_bytes([area[at], area[at + 1]])
}

pub fn full_at(area: &[u8], at: usize) -> u32
    requires { at + 4 ≤ length area.now }
    ensures { result ≡ word4 (bytes_of area.now) at }
{
    u32::from_le_bytes([area[at], area[at + 1], area[at + 2], area[at + 3]])
}

pub fn put_half(area: &mut [u8], at: usize, v: u16)
    requires { at + 2 ≤ length area.old }
    ensures { Changed at (at + 2) area.old area.new × (word2 (bytes_of area.new) at ≡ v) }
{
    area[at..at + 2].copy_from_slice(&v.to_le_bytes());
}

pub fn put_full(area: &mut [u8], at: usize, v: u32)
    requires { at + 4 ≤ length area.old }
    ensures { Changed at (at + 4) area.old area.new × (word4 (bytes_of area.new) at ≡ v) }
{
    area[at..at + 4].copy_from_slice(&v.to_le_bytes());
}
