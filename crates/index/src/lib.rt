// The index of a search's states, in lent bytes: a state is looked for from its hash on, slot by slot, up to the first empty one.
#![tactic(auto)]

ghost use Rattle.std.specs.Prelude.{◌≡◌, ◌*◌, ◌≤◌, ◌<◌, length};
ghost use Rattle.rows.specs.Area.{homes, most_rows, nexts_at, hash_of};
ghost use Rattle.index.specs.Indexed.{Indexed, Free, Looked, Added};

use clock::State;
use rows::{bytes, row};

const INDEX: usize = 2560;

// A number times a factor, in 64 bits.
fn scaled(x: u16, by: u64) -> u64
    requires { by < 65536 }
    ensures { (result ≡ x * by) × (result < 4294967296) }
{
    u64::from(x) * by
}

pub fn hash(s: State) -> usize
    ensures { (result ≡ hash_of s) × (result < homes) }
{
    let [a, b, c, d, ..] = s.entries;
    let mixed = u64::from(s.word) * 40503
        + scaled(a.place, 30011)
        + scaled(b.place, 25717)
        + scaled(c.place, 52711)
        + scaled(d.place, 17389)
        + scaled(u16::from(a.left), 60493)
        + scaled(u16::from(b.left), 35969);
    (mixed / 64 % 1024) as usize
}

// The state's number, or as an error the slot that is free for it. How many states there are goes beside the bytes, as `Indexed` takes it.
pub fn find(area: &[u8], n: usize, s: State) -> Result<usize, usize>
    requires { Indexed area.now n × (length s.entries ≡ 8) }
    ensures { Looked area.now n s result }
{
    // A walk up to the first empty slot: a `for` over the slots would need an answer for a walk that meets none.
    let mut j = hash(s);
    let mut v = bytes::half_at(area, 2 * j);
    while v != 0 {
        let i = usize::from(v) - 1;
        if row::same(area, i, s) {
            return Ok(i);
        }
        j += 1;
        v = bytes::half_at(area, 2 * j);
    }
    Err(j)
}

// State n, with its slot.
pub fn add(area: &mut [u8], n: usize, slot: usize, s: State)
    requires { Indexed area.old n × (n < most_rows) × Free area.old n s slot × (length s.entries ≡ 8) }
    ensures { Added area.old n s area.new }
{
    bytes::put_half(area, 2 * slot, (n + 1) as u16);
    row::put(area, n, s);
}

// The index, emptied.
pub fn clear(area: &mut [u8])
    requires { nexts_at ≤ length area.old }
    ensures { Indexed area.new 0 × (length area.new ≡ length area.old) }
{
    area[..INDEX].fill(0);
}
