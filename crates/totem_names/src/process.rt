ghost use Rattle.std.specs.Prelude.{◌≡◌, ℕ, ◌<◌, MatchOption};

use std::marker::Model;

/// A process, named by its number from 1 to 65535.
#[derive(Clone, Copy, Debug, PartialEq, Eq, PartialOrd, Ord, Hash)]
pub struct ProcId {
    number: u16,
}

impl Model for ProcId {
    ghost Value = { ℕ };

    ghost view = { λ p. p.number };

    ghost invariant = { λ p. 0 < p.number };

    ghost inverse = { λ n. record { number = n } };
}

impl ProcId {
    /// Returns the process with this number, or `None` if the number is 0.
    pub fn new(number: u16) -> Option<ProcId>
        ensures { MatchOption result (number ≡ 0) (λ p. p ≡ number) }
    {
        if number == 0 {
            return None;
        }
        Some(ProcId { number })
    }

    /// Returns the process with a number that is known not to be 0.
    pub fn of(number: u16) -> ProcId
        requires { 0 < number }
        ensures { result ≡ number }
    {
        ProcId { number }
    }

    pub fn number(self) -> u16
        ensures value { result ≡ self }
        ensures positive { 0 < result }
    {
        self.number
    }
}
