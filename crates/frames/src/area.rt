// Bytes behind the tree; past the end of the area each is 0.
ghost use Rattle.std.specs.Prelude.{◌≡◌, get_or, ◌<◌, ◌≤◌};
ghost use Rattle.parts.specs.Beside.{beside};
ghost use Rattle.frames.specs.Layout.{half_at, row_at, procedure_at, wide_at, place_at, parts_at, levels_at};

fn byte(t: &[u8], i: usize) -> u8
    ensures { result ≡ get_or t.now i 0 }
{
    t.get(i).copied().unwrap_or(0)
}

// Byte o behind the tree.
pub fn byte_at(t: &[u8], o: u32) -> u8
    ensures { result ≡ get_or (beside t.now).names o 0 }
{
    byte(t, 16384 + o as usize)
}

// Two bytes, the low one first.
#[tactic(auto, unfolding(crate::specs::Layout::half_at))]
pub fn half_at(t: &[u8], o: u32) -> u16
    requires { o < 1000000 }
    ensures { result ≡ half_at (beside t.now).names o }
{
    u16::from_le_bytes([byte_at(t, o), byte_at(t, o + 1)])
}

// Where the text of an actual begins.
pub fn place_at(t: &[u8], o: u32) -> u16
    requires { o < 1000000 }
    ensures { (result ≡ place_at (beside t.now).names o) × (result < 8192) }
{
    u16::from_le_bytes([byte_at(t, o), byte_at(t, o + 1)]) % 8192
}

// Its parts.
pub fn parts_at(t: &[u8], o: u32) -> u16
    requires { o < 1000000 }
    ensures { result ≡ parts_at (beside t.now).names o }
{
    u16::from_le_bytes([byte_at(t, o + 1), byte_at(t, o + 2)]) / 32
}

// Its levels.
#[tactic(auto, unfolding(crate::specs::Layout::levels_at))]
pub fn levels_at(t: &[u8], o: u32) -> u8
    requires { o < 1000000 }
    ensures { result ≡ levels_at (beside t.now).names o }
{
    byte_at(t, o + 3)
}

// Where row i of the procedures lies.
fn row_at(i: u16) -> u32
    ensures { (result ≡ row_at i) × (result ≤ 16380) }
{
    16380u32.saturating_sub(u32::from(i) * 4)
}

// The place of its name.
#[tactic(auto, unfolding(crate::specs::Layout::procedure_at))]
pub fn procedure_at(t: &[u8], i: u16) -> u16
    ensures { result ≡ procedure_at (beside t.now).names i }
{
    half_at(t, row_at(i))
}

// The activities that it can have.
#[tactic(auto, unfolding(crate::specs::Layout::wide_at))]
pub fn wide_at(t: &[u8], i: u16) -> u8
    ensures { result ≡ wide_at (beside t.now).names i }
{
    byte_at(t, row_at(i) + 2)
}
