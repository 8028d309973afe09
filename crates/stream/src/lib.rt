// The stream where it stands in the file: words of a row, and the sizes that say where rows begin.
#![tactic(auto)]

ghost use Rattle.std.specs.Prelude.{◌≡◌, ◌+◌, ◌*◌, ◌/◌, ◌%◌, ◌^◌, ◌≤◌, ◌<◌, length};
ghost use Rattle.file_law.specs.Table.{most_inputs, most_states};
ghost use Rattle.file_law.specs.Reading.{place, stream_in, row_at, outputs_at, next_at};

pub mod bytes;
pub mod sizes;

// The block of byte j: j / 504, by a product, which is there sooner: 504 * 8,521,761 is 2^32 and 248 more.
fn block_of(j: u32) -> u32
    requires { j < 16777216 }
    ensures { result ≡ j / 504 }
{
    (j as u64 * 8521761 / 4294967296) as u32
}

// Where byte j of the stream stands: past eight bytes for each whole block before it, and its own block's four.
pub fn place_of(j: u32) -> usize
    requires { j < 65536 }
    ensures { result ≡ place j }
{
    (j + 8 * block_of(j) + 4) as usize
}

// The outputs of a state.
pub fn outputs_at(file: &[u8], k: u32, state: u32) -> u32
    requires { (k ≤ most_inputs) × (state < most_states) × (place (row_at k state) + 2 ≤ length file.now) }
    ensures { (result ≡ outputs_at (stream_in file.now) k state) × (result < 65536) }
{
    bytes::word(file, place_of(sizes::row_at(k, state)))
}

// Where the next state for a state and an input stands.
fn next_place(k: u32, state: u32, input: u32) -> usize
    requires { (k ≤ most_inputs) × (state < most_states) × (input < 2 ^ k) }
    ensures { result ≡ place (row_at k state + 2 + 2 * input) }
{
    place_of(sizes::row_at(k, state) + 2 + 2 * input)
}

// The next state that the stream names for a state and an input.
pub fn next_at(file: &[u8], k: u32, state: u32, input: u32) -> u32
    requires { (k ≤ most_inputs) × (state < most_states) × (input < 2 ^ k) × (place (row_at k state + 2 + 2 * input) + 2 ≤ length file.now) }
    ensures { (result ≡ next_at (stream_in file.now) k state input) × (result < 65536) }
{
    bytes::word(file, next_place(k, state, input))
}

// The low byte of that next state.
pub fn next_low(file: &[u8], k: u32, state: u32, input: u32) -> u32
    requires { (k ≤ most_inputs) × (state < most_states) × (input < 2 ^ k) × (place (row_at k state + 2 + 2 * input) + 2 ≤ length file.now) }
    ensures { result ≡ next_at (stream_in file.now) k state input % 256 }
{
    bytes::byte(file, next_place(k, state, input))
}
