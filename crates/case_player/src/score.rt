//! How many cases came out.

ghost use Rattle.std.specs.Prelude.{◌≤◌};

/// How many of how many cases were right.
#[derive(Clone, Copy, Debug)]
pub struct Score {
    pub right: u64,
    pub all: u64,
    ghost within: { right ≤ all },
}

impl Score {
    ghost use Rattle.std.specs.Prelude.{◌≡◌, ◌+◌, ◌-◌, ◌^◌, ◌≤◌, ◌↔◌, IsTrue, min};

    /// No case.
    pub fn none() -> Score
        ensures right { result.right ≡ 0 }
        ensures all { result.all ≡ 0 }
    {
        Score { right: 0, all: 0 }
    }

    /// One case, right or not.
    pub fn one(right: bool) -> Score
        ensures all { result.all ≡ 1 }
        ensures right { IsTrue right ↔ (result.right ≡ 1) }
    {
        Score {
            right: u64::from(right),
            all: 1,
        }
    }

    /// The cases of both together, where 2^64 - 1 stands for more too.
    pub fn with(self, other: Score) -> Score
        ensures right { result.right ≡ min (self.right + other.right) (2 ^ 64 - 1) }
        ensures all { result.all ≡ min (self.all + other.all) (2 ^ 64 - 1) }
    {
        Score {
            right: self.right.saturating_add(other.right),
            all: self.all.saturating_add(other.all),
        }
    }

    /// Whether every case was right.
    pub fn is_full(self) -> bool
        ensures { IsTrue result ↔ (self.right ≡ self.all) }
    {
        self.right == self.all
    }
}
