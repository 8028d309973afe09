// Sizes counted since an outermost call, no further than one too many: statements and parts, whether another size is passed, and activities.
#![tactic(auto)]

ghost use Rattle.std.specs.Prelude.{◌≡◌};
ghost use Rattle.tally.specs.Tally.{start_tally, begun_tally, parted_tally, marked_tally, deep_tally, term_tally, full_tally, none_left, over_tally, acts_tally, summed_tally, together_tally};

// `large`: a delay, a parallel or a level is too much. `passed`: a statement or a part is too many, and nothing else is known.
#[derive(Clone, Copy)]
pub struct Tally {
    pub statements: u16,
    pub parts: u16,
    pub acts: u16,
    pub large: bool,
    pub passed: bool,
}

impl Tally {
    // Nothing is counted.
    pub fn start() -> Tally
        ensures { result ≡ start_tally }
    {
        Tally {
            statements: 0,
            parts: 0,
            acts: 1,
            large: false,
            passed: false,
        }
    }

    // Z5, Z6: too many.
    pub fn full(self) -> Tally
        ensures { result ≡ full_tally self }
    {
        Tally {
            passed: true,
            ..self
        }
    }

    // Z5, Z6: one statement more is too many.
    #[tactic(auto, unfolding(crate::specs::Tally::none_left))]
    pub fn none_left(self) -> bool
        ensures { result ≡ none_left self }
    {
        self.passed || self.statements >= 255
    }

    // P13: a size is passed.
    #[tactic(auto, unfolding(crate::specs::Tally::over_tally))]
    pub fn over(self) -> bool
        ensures { result ≡ over_tally self }
    {
        self.passed || self.large
    }

    // Z5: one statement more.
    #[tactic(auto, unfolding(crate::specs::Tally::begun_tally, crate::specs::Tally::none_left))]
    pub fn begun(self) -> Tally
        ensures { result ≡ begun_tally self }
    {
        if self.none_left() {
            return self.full();
        }
        Tally {
            statements: self.statements + 1,
            ..self
        }
    }

    // Z6: so many parts more.
    #[tactic(auto, unfolding(crate::specs::Tally::parted_tally))]
    fn parted(self, more: u16) -> Tally
        ensures { result ≡ parted_tally self more }
    {
        let parts = u32::from(self.parts) + u32::from(more);
        if self.passed || parts > 1024 {
            return self.full();
        }
        Tally {
            parts: parts as u16,
            ..self
        }
    }

    // Z7 to Z9: something is too large.
    #[tactic(auto, unfolding(crate::specs::Tally::marked_tally))]
    pub fn marked(self, big: bool) -> Tally
        ensures { result ≡ marked_tally self big }
    {
        Tally {
            large: self.large || big,
            ..self
        }
    }

    // Z9: so many levels are open, and so many more.
    #[tactic(auto, unfolding(crate::specs::Tally::deep_tally))]
    pub fn deep(self, around: u8, levels: u8) -> Tally
        ensures { result ≡ deep_tally self around levels }
    {
        self.marked(u16::from(around) + u16::from(levels) > 32)
    }

    // An expression with so many levels open around.
    #[tactic(auto, unfolding(crate::specs::Tally::term_tally))]
    pub fn term(self, around: u8, parts: u16, levels: u8) -> Tally
        ensures { result ≡ term_tally self around parts levels }
    {
        self.parted(parts).deep(around, levels)
    }

    // The activities that are known.
    pub fn with_acts(self, acts: u16) -> Tally
        ensures { result ≡ acts_tally self acts }
    {
        Tally { acts, ..self }
    }

    // A branch ends: so many stood before it.
    pub fn summed(self, before: u16) -> Tally
        ensures { result ≡ summed_tally self before }
    {
        self.with_acts(before.saturating_add(self.acts).min(256))
    }

    // Z8: a parallel ends: so many stood before it.
    #[tactic(auto, unfolding(crate::specs::Tally::together_tally))]
    pub fn together(self, before: u16) -> Tally
        ensures { result ≡ together_tally self before }
    {
        self.marked(self.acts > 8).with_acts(before.max(self.acts))
    }
}
