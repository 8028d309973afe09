// What a formal stands for, by the frame of the call that is open.
ghost use Rattle.std.specs.Prelude.{◌≡◌, ◌+◌, ◌-◌};
ghost use Rattle.words.specs.Runs.{part};
ghost use Rattle.parts.specs.Beside.{beside};
ghost use Rattle.frames.specs.Layout.{half_at, formals_at};
ghost use Rattle.frames.specs.List.{index_in};
ghost use Rattle.frames.specs.Row.{row_in};
ghost use Rattle.frames.specs.Meant.{placed, formal_under, caller_of, SizesOf};

use crate::{Sizes, Under, area, list};

// Which formal of the frame's procedure has the name from a to b.
fn index(s: &[u8], t: &[u8], frame: u16, a: u16, b: u16) -> Option<u16>
    ensures { placed result ≡ index_in s.now (formals_at s.now (half_at (beside t.now).names (frame + 2))) (part s.now a b) }
{
    let p = area::half_at(t, u32::from(frame) + 2);
    list::index(s, usize::from(p), a, b)
}

// Where the text of the actual begins for the formal from a to b, if it is one.
pub fn formal(s: &[u8], t: &[u8], u: Under, a: u16, b: u16) -> Option<u16>
    ensures { placed result ≡ formal_under s.now (beside t.now).names u (part s.now a b) }
{
    if u.depth == 0 {
        return None;
    }
    let i = index(s, t, u.frame, a, b)?;
    Some(area::place_at(t, u32::from(u.frame) + 4 + u32::from(i) * 4))
}

// The sizes of that actual; they are asked of a formal alone.
pub fn sizes(s: &[u8], t: &[u8], u: Under, a: u16, b: u16) -> Sizes
    ensures { SizesOf s.now (beside t.now).names u (part s.now a b) result }
{
    let i = index(s, t, u.frame, a, b).unwrap_or(0);
    let o = u32::from(u.frame) + 4 + u32::from(i) * 4;
    Sizes {
        parts: area::parts_at(t, o),
        levels: area::levels_at(t, o),
    }
}

// Under what the text around the call is read.
pub fn caller(t: &[u8], u: Under) -> Under
    ensures { result ≡ caller_of (beside t.now).names u }
{
    Under {
        frame: area::half_at(t, u32::from(u.frame)),
        depth: u.depth.saturating_sub(1),
        ..u
    }
}

// The row of the procedure that the name from a to b calls, among the first `seen`.
pub fn procedure(s: &[u8], t: &[u8], seen: u16, a: u16, b: u16) -> Option<u16>
    ensures { placed result ≡ row_in s.now (beside t.now).names seen (part s.now a b) }
{
    for n in (0..seen).rev() {
        if list::same_at(s, usize::from(area::procedure_at(t, n)), a, b) {
            return Some(n);
        }
    }
    None
}
