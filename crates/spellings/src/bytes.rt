// Bytes of a text: the one at a place, those from a place to another, and whether those of another text stand at a place.
ghost use Rattle.std.specs.Prelude.{◌≡◌, get_or, drop};
ghost use Rattle.language.specs.Scan.{begins};
ghost use Rattle.spellings.specs.Part.{part};

// The byte at i, or 0 where there is none.
pub fn byte_at(s: &[u8], i: usize) -> u8
    ensures { result ≡ get_or s.now i 0 }
{
    s.get(i).copied().unwrap_or(0)
}

// The bytes of s from a place to another: for any numbers.
pub fn part(s: &[u8], from: usize, to: usize) -> &[u8]
    ensures { result.now ≡ part s.now from to }
{
    let end = to.min(s.len());
    &s[from.min(end)..end]
}

// Whether s goes on at `at` with the bytes of t from b to f: for any numbers.
pub fn stands(s: &[u8], at: usize, t: &[u8], b: usize, f: usize) -> bool
    ensures { result ≡ begins (drop at s.now) (part t.now b f) }
{
    let rest = &s[at.min(s.len())..];
    rest.starts_with(part(t, b, f))
}
