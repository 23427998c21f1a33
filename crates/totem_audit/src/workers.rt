ghost use Rattle.std.specs.Prelude.{◌≡◌, ℕ, ◌≤◌, ◌<◌, ◌⊎◌, MatchOption};

use std::marker::Model;

/// How many threads judge a run, from 1 to 64.
#[derive(Clone, Copy, Debug, PartialEq, Eq)]
pub struct Workers {
    count: u32,
}

impl Model for Workers {
    ghost Value = { ℕ };

    ghost view = { λ w. w.count };

    ghost invariant = { λ w. (0 < w.count) × (w.count ≤ 64) };

    ghost inverse = { λ n. record { count = n } };
}

impl Workers {
    /// Returns this many workers, or `None` unless the count is from 1 to 64.
    pub fn new(count: u32) -> Option<Workers>
        ensures { MatchOption result ((count ≡ 0) ⊎ (64 < count)) (λ w. w ≡ count) }
    {
        if count == 0 || count > 64 {
            return None;
        }
        Some(Workers { count })
    }

    /// Returns one worker: the calling thread.
    pub fn one() -> Workers
        ensures { result ≡ 1 }
    {
        Workers { count: 1 }
    }

    /// Returns the number of threads, from 1 to 64.
    pub fn count(self) -> u32
        ensures value { result ≡ self }
        ensures range { (0 < result) × (result ≤ 64) }
    {
        self.count
    }
}
