// A decimal number from its digits.

// The number that all of the bytes make, if they are digits and it is below 2^32. In one pass that ends where none can be: the library's
// `parse` would take a sign, and to keep signs out takes a pass more.
pub fn parse(s: &[u8]) -> Option<u32> {
    if s.is_empty() {
        return None;
    }
    let mut value: u64 = 0;
    for b in s {
        if !b.is_ascii_digit() {
            return None;
        }
        value = value * 10 + u64::from(b - b'0');
        if value > u64::from(u32::MAX) {
            return None;
        }
    }
    Some(value as u32)
}
