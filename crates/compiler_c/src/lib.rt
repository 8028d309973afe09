// The compile call for C: the answer as one number.
#![tactic(auto)]

ghost use Rattle.compiler.specs.Answered.{lent};
ghost use Rattle.compiler.specs.Code.{Coded};

// States + 65,536 x blocks, or the refusal's number times 2^32 plus its place.
#[unsafe(no_mangle)]
pub extern "C" fn windnadel_compile(
    source: &[u8],
    room: u32,
    work: &mut [u8],
    file: &mut [u8],
) -> u64
    ensures { Coded (lent source.now room work.old file.old) result work.new file.new }
{
    match compiler::compile(source, room, work, file) {
        Ok(made) => u64::from(made.states) + 65536 * u64::from(made.blocks),
        Err(refusal) => u64::from(refusal),
    }
}
