// The sizes that a file may state, and what they call for.
ghost use Rattle.std.specs.Prelude.{◌≡◌, ◌^◌, ◌≤◌};
ghost use Rattle.file_law.specs.Table.{most_inputs, most_outputs, most_states};
ghost use Rattle.file_law.specs.Reading.{most_blocks, sizes_good, blocks_for, row_at};

// The sizes of a file.
#[derive(Clone, Copy, Debug, PartialEq, Eq)]
pub struct Sizes {
    pub inputs: u32,
    pub outputs: u32,
    pub states: u32,
}

impl Sizes {
    // Whether each is in its range.
    pub fn are_good(self) -> bool
        ensures { result ≡ sizes_good self.inputs self.outputs self.states }
    {
        self.inputs <= 6 && self.outputs <= 16 && 1 <= self.states && self.states <= 256
    }
}

pub fn pow2(k: u32) -> u32
    requires { k ≤ most_outputs }
    ensures { (result ≡ 2 ^ k) × (result ≤ 65536) }
{
    1 << k
}

// Where a state's row begins in the stream; for the number of states, where the stream ends.
pub fn row_at(k: u32, state: u32) -> u32
    requires { (k ≤ most_inputs) × (state ≤ most_states) }
    ensures { (result ≡ row_at k state) × (result ≤ 33284) }
{
    4 + state * (2 + 2 * pow2(k))
}

// The blocks of a file with k inputs and n states.
pub fn blocks_for(k: u32, n: u32) -> u32
    requires { (k ≤ most_inputs) × (n ≤ most_states) }
    ensures { (result ≡ blocks_for k n) × (result ≤ most_blocks) }
{
    (row_at(k, n) + 503) / 504
}
