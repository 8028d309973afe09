// Where a call's frame ends, and where its procedure's body begins.
ghost use Rattle.std.specs.Prelude.{◌≡◌, ◌≤◌, length};
ghost use Rattle.parts.specs.Beside.{beside};
ghost use Rattle.frames.specs.Meant.{placed};
ghost use Rattle.calls.specs.Room.{frame_end, BodyAt};

use frames::{Under, put};
use hand::Here;

// The place behind the frame of a procedure with so many formals, where one can be written; no row is 65,535, but `frame_end` of specs/Room asks it.
pub fn frame_end(t: &[u8], u: Under, row: u16, count: u16) -> Option<u16>
    ensures { placed result ≡ frame_end (beside t.now).names u row count }
{
    if row == 65535 || u.depth == 65535 {
        return None;
    }
    let to = u32::from(u.top) + 4 + u32::from(count) * 4;
    if to > 16384 || !put::clean(t, u.top, to as u16) {
        return None;
    }
    Some(to as u16)
}

// The first word of a body that begins at a place.
pub fn body_word(s: &[u8], from: usize) -> Here
    requires { length s.now ≤ 8192 }
    ensures { BodyAt s.now from result }
{
    hand::word_from(s, from.min(s.len()) as u16)
}
