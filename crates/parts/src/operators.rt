// What an operator between two operands takes and gives.
ghost use Rattle.std.specs.Prelude.{◌≡◌};
ghost use Rattle.parts.specs.Sum.{fine_at, size_at, group_at, order_at, cap};

use words::kinds;

// Whether an operator takes two operands of these kinds.
#[tactic(auto, unfolding(crate::specs::Sum::fine_at))]
pub fn fine(kind: u8, a: bool, b: bool) -> bool
    ensures { result ≡ fine_at kind a b }
{
    match kind {
        kinds::AND | kinds::OR => a && b,
        kinds::EQUAL | kinds::UNEQUAL => a == b,
        _ => !a && !b,
    }
}

// A size, or the one past the limit.
fn capped(x: u64) -> u32
    ensures { result ≡ cap x }
{
    x.min(2147483648) as u32
}

// The worst size of an operator's result.
#[tactic(auto, unfolding(crate::specs::Sum::size_at))]
pub fn size(kind: u8, a: u32, b: u32) -> u32
    ensures { result ≡ size_at kind a b }
{
    match kind {
        kinds::PLUS | kinds::MINUS => capped(u64::from(a) + u64::from(b)),
        kinds::TIMES => capped(u64::from(a) * u64::from(b)),
        kinds::OVER.. => a,
        _ => 0,
    }
}

// The kind of its part.
#[tactic(auto, unfolding(crate::specs::Sum::group_at))]
pub fn group(kind: u8) -> u8
    ensures { result ≡ group_at kind }
{
    match kind {
        kinds::PLUS.. => 9,
        kinds::AND | kinds::OR => 11,
        _ => 10,
    }
}

// Which of its group it is.
#[tactic(auto, unfolding(crate::specs::Sum::order_at))]
pub fn order(kind: u8) -> u8
    ensures { result ≡ order_at kind }
{
    match kind {
        kinds::MINUS | kinds::UNEQUAL | kinds::OR => 1,
        kinds::TIMES | kinds::ABOVE => 2,
        kinds::OVER | kinds::BELOW => 3,
        kinds::REST => 4,
        _ => 0,
    }
}
