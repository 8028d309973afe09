// CRC-32 of a slice, a byte at a time, by a table of 256 remainders.
#![tactic(auto)]

ghost use Rattle.std.specs.Prelude.{◌≡◌};
ghost use Rattle.crc_law.specs.Crc.{step_byte, register, ones, crc_of};
ghost use Rattle.crc.specs.Remainders.{Remainders};

mod table;

// The register after one more byte.
fn next(t: &[u32; 256], r: u32, b: u8) -> u32
    requires { Remainders t.now }
    ensures { result ≡ step_byte r b }
{
    let x = r ^ u32::from(b);
    t[(x % 256) as usize] ^ (x / 256)
}

// The register after all bytes of `s`, from 32 ones. By places: an edit says that the first byte is not left out.
fn over(t: &[u32; 256], s: &[u8]) -> u32
    requires { Remainders t.now }
    ensures { result ≡ register ones s.now }
{
    let mut r: u32 = 0xFFFF_FFFF;
    for i in 0..s.len() {
        r = next(t, r, s[i]);
    }
    r
}

// The check of the bytes of `s`.
pub fn crc(s: &[u8]) -> u32
    ensures { result ≡ crc_of s.now }
{
    // The copy is made once: an index into the constant itself would copy it at every byte.
    let t = table::TABLE;
    0xFFFF_FFFF - over(&t, s)
}
