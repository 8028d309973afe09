// The blocks of a file, each with its number, the total and its check.
ghost use Rattle.std.specs.Prelude.{◌≡◌, ◌+◌, ◌*◌, ◌≤◌, ◌<◌, length, IfSome};
ghost use Rattle.std.specs.Option.{unwrap_or};
ghost use Rattle.file_law.specs.Answer.{first_not};
ghost use Rattle.file_law.specs.Reading.{most_blocks, length_good, number_good, check_good, block_good, block_fault};
ghost use Rattle.refusals.specs.Number.{number_of};

use refusals::Cause;
use stream::bytes;

// Some whole blocks, and not too many.
pub fn length_good(n: usize) -> bool
    ensures { result ≡ length_good n }
{
    1 <= n && n % 512 == 0 && n / 512 <= 67
}

// Block n has its number, and the total.
fn number_good(file: &[u8], total: u32, n: u32) -> bool
    requires { (n ≤ most_blocks) × (512 * n + 512 ≤ length file.now) }
    ensures { result ≡ number_good file.now total n }
{
    let start = (512 * n) as usize;
    bytes::word(file, start) == n && bytes::word(file, start + 2) == total
}

// .. and its check.
fn check_good(file: &[u8], n: u32) -> bool
    requires { (n ≤ most_blocks) × (512 * n + 512 ≤ length file.now) }
    ensures { result ≡ check_good file.now n }
{
    let start = (512 * n) as usize;
    let end = start + 508;
    let check = crc::crc(&file[start..end]);
    bytes::four(file, end) == check
}

fn block_good(file: &[u8], total: u32, n: u32) -> bool
    requires { (n ≤ most_blocks) × (512 * n + 512 ≤ length file.now) }
    ensures { result ≡ block_good file.now total n }
{
    number_good(file, total, n) && check_good(file, n)
}

// What is broken in a block that is not good.
pub fn fault(file: &[u8], total: u32, n: u32) -> Cause
    requires { (n ≤ most_blocks) × (512 * n + 512 ≤ length file.now) }
    ensures { number_of result ≡ block_fault file.now total n }
{
    if number_good(file, total, n) {
        Cause::Check
    } else {
        Cause::BlockNumber
    }
}

// The first block that is not good, if one is not.
pub fn first_bad(file: &[u8], total: u32) -> Option<u32>
    requires { (total ≤ most_blocks) × (512 * total ≤ length file.now) }
    ensures { (unwrap_or result total ≡ first_not (block_good file.now total) total 0) × IfSome result (λ n. n < total) }
{
    (0..total).find(|n| !block_good(file, total, *n))
}
