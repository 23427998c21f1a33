ghost use Rattle.std.specs.Prelude.{◌≡◌, ℕ, ◌<◌, MatchOption};

use std::marker::Model;

/// The number of a message on its ring, or of a ring, from 1 to 4294967295.
#[derive(Clone, Copy, Debug, PartialEq, Eq, PartialOrd, Ord, Hash)]
pub struct Number {
    value: u32,
}

impl Model for Number {
    ghost Value = { ℕ };

    ghost view = { λ n. n.value };

    ghost invariant = { λ n. 0 < n.value };

    ghost inverse = { λ n. record { value = n } };
}

impl Number {
    /// Returns the number with this value, or `None` if the value is 0.
    pub fn new(value: u32) -> Option<Number>
        ensures { MatchOption result (value ≡ 0) (λ n. n ≡ value) }
    {
        if value == 0 {
            return None;
        }
        Some(Number { value })
    }

    /// Returns the number with a value that the caller knows is not 0.
    pub fn of(value: u32) -> Number
        requires { 0 < value }
        ensures { result ≡ value }
    {
        Number { value }
    }

    pub fn get(self) -> u32
        ensures value { result ≡ self }
        ensures positive { 0 < result }
    {
        self.value
    }
}
