// Reading KISS text for C: the answer as one number.
#![tactic(auto)]

ghost use Rattle.kiss_read.specs.Meaning.{ReadCoded};

use refusals::Refusal;

// The file's blocks, or the refusal's number times 2^32 plus its place.
#[unsafe(no_mangle)]
pub extern "C" fn windnadel_kiss_read(text: &[u8], file: &mut [u8]) -> u64
    ensures { ReadCoded text.now file.old result file.new }
{
    match kiss_read::read(text, file) {
        Ok(blocks) => u64::from(blocks),
        // No refused place is past 700,000: the cast keeps it.
        Err(refusal) => u64::from(Refusal {
            cause: refusal.cause,
            place: refusal.place as u32,
        }),
    }
}
