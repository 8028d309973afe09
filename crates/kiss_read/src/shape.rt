// The sizes of a text, and how many words of the stream a state's row takes.
ghost use Rattle.std.specs.Prelude.{◌≡◌, ◌+◌, ◌^◌};

use kiss_walk::Sizes;

#[derive(Clone, Copy)]
pub struct Shape {
    pub sizes: Sizes,
    pub width: u32,
    pub ghost wide: { width ≡ 2 ^ sizes.inputs + 1 },
}
