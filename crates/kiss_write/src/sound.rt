// A sound file and the sizes that it states.
ghost use Rattle.kiss_write.specs.Held.{Holds};

use stream::sizes::Sizes;

#[derive(Clone, Copy)]
pub struct Sound<'a> {
    pub file: &'a [u8],
    pub sizes: Sizes,
    pub ghost holds: { Holds file.now sizes.inputs sizes.outputs sizes.states },
}
