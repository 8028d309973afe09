// Numbers of one, two and four bytes in a slice, low byte first.
ghost use Rattle.std.specs.Prelude.{◌≡◌, ◌+◌, ◌≤◌, ◌<◌, length};
ghost use Rattle.file_law.specs.Bytes.{word2, word4, bytes_of};

pub fn byte(s: &[u8], at: usize) -> u32
    requires { at < length s.now }
    ensures { (result ≡ bytes_of s.now at) × (result < 256) }
{
    u32::from(s[at])
}

pub fn word(s: &[u8], at: usize) -> u32
    requires { at + 2 ≤ length s.now }
    ensures { (result ≡ word2 (bytes_of s.now) at) × (result < 65536) }
{
    u32::from(u16::from_le_bytes([s[at], s[at + 1]]))
}

pub fn four(s: &[u8], at: usize) -> u32
    requires { at + 4 ≤ length s.now }
    ensures { result ≡ word4 (bytes_of s.now) at }
{
    u32::from_le_bytes([s[at], s[at + 1], s[at + 2], s[at + 3]])
}
