//! Digits of letters that follow one another in their parts too.

ghost use Rattle.std.specs.Prelude.{◌≡◌, ◌+◌, ◌<◌, ◌^◌, ℕ, IfSome};
ghost use Rattle.track_parts.specs.Runs.{IsPositive, run_part};

/// The digits that are left of a letter after a division, below the size, and what they count in the part.
#[derive(Clone, Copy)]
pub struct Run {
    pub divisor: u32,
    pub size: u32,
    pub factor: u32,
}

impl Run {
    /// What the digits of a letter make of its part.
    pub fn part(self, letter: u32) -> u32
        requires positive { IsPositive self }
        requires small { run_part letter self < 2 ^ 32 }
        ensures { result ≡ run_part letter self }
    {
        letter / self.divisor % self.size * self.factor
    }

    /// This run and the one after it as one, if their digits follow one another in letters and in parts.
    pub fn joined(self, after: Run) -> Option<Run>
        requires positive { IsPositive self }
        requires after { IsPositive after }
        ensures sum { IfSome result (λ both. (letter : ℕ) → run_part letter both ≡ run_part letter self + run_part letter after) }
        ensures positive { IfSome result IsPositive }
    {
        let size = u64::from(after.size);
        let digits = u64::from(self.size) * size;
        if u64::from(after.divisor) * size == u64::from(self.divisor)
            && u64::from(after.factor) * size == u64::from(self.factor)
            && digits <= u64::from(u32::MAX)
        {
            return Some(Run {
                divisor: after.divisor,
                size: digits as u32,
                factor: after.factor,
            });
        }
        None
    }
}
