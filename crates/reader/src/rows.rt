// The rows of a file, and the filling after them.
ghost use Rattle.std.specs.Prelude.{◌≡◌, ◌-◌, ◌*◌, ◌≤◌, ◌<◌, length};
ghost use Rattle.file_law.specs.Answer.{every};
ghost use Rattle.file_law.specs.Table.{most_outputs};
ghost use Rattle.file_law.specs.Reading.{most_blocks, stream_in, blocks_for, clear_at, zero_at, nexts_good, rows_good};
ghost use Rattle.reader.specs.Room.{Room};

use stream::bytes;
use stream::sizes::{self, Sizes};

// The rows of a file with the blocks that its sizes call for.
#[derive(Clone, Copy)]
pub struct Rows<'a> {
    pub file: &'a [u8],
    pub size: Sizes,
    ghost room: { Room file.now size.inputs size.states },
    ghost outputs: { size.outputs ≤ most_outputs },
}

impl Rows<'_> {
    // No state has a spare output bit.
    fn all_clear(self) -> bool
        ensures { result ≡ every (clear_at (stream_in self.entry.file.now) self.entry.size.inputs self.entry.size.outputs) self.entry.size.states 0 }
    {
        let most = sizes::pow2(self.size.outputs);
        (0..self.size.states).all(|s| stream::outputs_at(self.file, self.size.inputs, s) < most)
    }

    // Each next state of a state is in the table.
    fn nexts_good(self, state: u32) -> bool
        requires { state < self.size.states }
        ensures { result ≡ nexts_good (stream_in self.entry.file.now) self.entry.size.inputs self.entry.size.states state }
    {
        let Sizes { inputs, states, .. } = self.size;
        (0..sizes::pow2(inputs)).all(|i| stream::next_at(self.file, inputs, state, i) < states)
    }

    // .. and so for every state.
    fn all_nexts_good(self) -> bool
        ensures { result ≡ every (nexts_good (stream_in self.entry.file.now) self.entry.size.inputs self.entry.size.states) self.entry.size.states 0 }
    {
        (0..self.size.states).all(|state| self.nexts_good(state))
    }

    // No spare output bit, filling of zeros, next states in the table.
    pub fn are_good(self) -> bool
        ensures { result ≡ rows_good (stream_in self.entry.file.now) (blocks_for self.entry.size.inputs self.entry.size.states) self.entry.size.inputs self.entry.size.outputs self.entry.size.states }
    {
        let Sizes { inputs, states, .. } = self.size;
        self.all_clear()
            && all_zero(
                self.file,
                sizes::row_at(inputs, states),
                sizes::blocks_for(inputs, states),
            )
            && self.all_nexts_good()
    }
}

// The stream of `total` blocks is zero from byte `from` on.
fn all_zero(file: &[u8], from: u32, total: u32) -> bool
    requires { (total ≤ most_blocks) × (512 * total ≤ length file.now) }
    ensures { result ≡ every (zero_at (stream_in file.now)) (504 * total - from) from }
{
    (from..504 * total).all(|j| bytes::byte(file, stream::place_of(j)) == 0)
}
