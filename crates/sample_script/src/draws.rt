ghost use Rattle.std.specs.Prelude.{◌≡◌, ◌/◌, ◌<◌};
ghost use Rattle.sample_script.specs.Sample.{next_value};

/// The draws of a number.
#[derive(Clone, Copy)]
pub(crate) struct Draws {
    /// The value of the generator.
    pub(crate) value: u32,
}

impl Draws {
    /// The next draw.
    #[tactic(auto, unfolding(crate::specs::Sample::next_value))]
    pub(crate) fn next(&mut self) -> u32
        ensures value { self.new.value ≡ next_value self.old.value }
        ensures draw { result ≡ self.new.value / 16777216 }
        ensures small { result < 256 }
    {
        let value = (1664525 * u64::from(self.value) + 1013904223) % 4294967296;
        self.value = value as u32;
        self.value / 16777216
    }
}
