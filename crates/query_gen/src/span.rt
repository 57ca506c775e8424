ghost use Rattle.std.specs.Prelude.{◌≡◌, min};

/// The numbers of candidates from the least to the greatest. There are none where the greatest is
/// below the least.
#[derive(Clone, Copy, Debug, PartialEq, Eq)]
pub(crate) struct Span {
    pub(crate) least: u32,
    pub(crate) greatest: u32,
}

impl Span {
    /// No number.
    pub(crate) fn none() -> Span
        ensures least { result.least ≡ 4294967295 }
        ensures greatest { result.greatest ≡ 0 }
    {
        Span {
            least: u32::MAX,
            greatest: 0,
        }
    }

    /// The numbers up to this one, which isn't below any of them.
    pub(crate) fn reach(&mut self, number: u32)
        ensures least { self.new.least ≡ min self.old.least number }
        ensures greatest { self.new.greatest ≡ number }
    {
        self.least = self.least.min(number);
        self.greatest = number;
    }
}
