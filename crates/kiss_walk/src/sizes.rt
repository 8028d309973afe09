// The sizes that a text can state.
ghost use Rattle.kiss_law.specs.Forms.{TextSizes};

#[derive(Clone, Copy)]
pub struct Sizes {
    pub inputs: u32,
    pub outputs: u32,
    pub states: u32,
    pub ghost fit: { TextSizes inputs outputs states },
}
