ghost use Rattle.std.specs.Prelude.{◌≡◌, ◌≤◌, ◌≤ℤ◌, pos, negsuc};
ghost use Rattle.voc_read.specs.Ranges.{is_value};

/// The values of the domain: so many whole numbers from the least one on.
#[derive(Clone, Copy)]
pub struct Domain {
    pub least_value: i64,
    pub value_count: u32,
    ghost some: { 1 ≤ value_count },
    ghost few: { value_count ≤ 64 },
    ghost low: { negsuc 999999 ≤ℤ least_value },
    ghost high: { least_value ≤ℤ pos 1000000 },
}

impl Domain {
    /// Whether a value is one of them.
    pub fn has(self, value: i64) -> bool
        ensures { result ≡ is_value self.least_value self.value_count value }
    {
        self.least_value <= value && value < self.least_value + i64::from(self.value_count)
    }
}
