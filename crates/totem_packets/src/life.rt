ghost use Rattle.std.specs.Prelude.{◌≡◌, ℕ, ◌<◌, MatchOption};

use std::marker::Model;

/// The number of one of the lives of an identifier, from 1 to 65535.
#[derive(Clone, Copy, Debug, PartialEq, Eq, PartialOrd, Ord, Hash)]
pub struct Life {
    value: u16,
}

impl Model for Life {
    ghost Value = { ℕ };

    ghost view = { λ n. n.value };

    ghost invariant = { λ n. 0 < n.value };

    ghost inverse = { λ n. record { value = n } };
}

impl Life {
    /// Returns the life with this number, or `None` if the number is 0.
    pub fn new(value: u16) -> Option<Life>
        ensures { MatchOption result (value ≡ 0) (λ n. n ≡ value) }
    {
        if value == 0 {
            return None;
        }
        Some(Life { value })
    }

    /// Returns the life with a number that the caller knows is not 0.
    pub fn of(value: u16) -> Life
        requires { 0 < value }
        ensures { result ≡ value }
    {
        Life { value }
    }

    pub fn first() -> Life
        ensures { result ≡ 1 }
    {
        Life { value: 1 }
    }

    pub fn get(self) -> u16
        ensures value { result ≡ self }
        ensures positive { 0 < result }
    {
        self.value
    }
}
