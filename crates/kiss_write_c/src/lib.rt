// Writing KISS text for C: the answer as one number.
#![tactic(auto)]

ghost use Rattle.kiss_write.specs.Meaning.{WriteCoded};

// The text's length, or the refusal's number times 2^32 plus its place.
#[unsafe(no_mangle)]
pub extern "C" fn windnadel_kiss_write(file: &[u8], text: &mut [u8]) -> u64
    ensures { WriteCoded file.now text.old result text.new }
{
    match kiss_write::write(file, text) {
        Ok(length) => u64::from(length),
        Err(refusal) => u64::from(refusal),
    }
}
