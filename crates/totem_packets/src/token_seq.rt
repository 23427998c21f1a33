ghost use Rattle.std.specs.Prelude.{◌≡◌, ℕ, ◌<◌, MatchOption};

use std::marker::Model;

/// How often a token has been passed on, from 1 to 18446744073709551615.
#[derive(Clone, Copy, Debug, PartialEq, Eq, PartialOrd, Ord, Hash)]
pub struct TokenSeq {
    value: u64,
}

impl Model for TokenSeq {
    ghost Value = { ℕ };

    ghost view = { λ n. n.value };

    ghost invariant = { λ n. 0 < n.value };

    ghost inverse = { λ n. record { value = n } };
}

impl TokenSeq {
    /// Returns the count with this value, or `None` if the value is 0.
    pub fn new(value: u64) -> Option<TokenSeq>
        ensures { MatchOption result (value ≡ 0) (λ n. n ≡ value) }
    {
        if value == 0 {
            return None;
        }
        Some(TokenSeq { value })
    }

    /// Returns the count with a value that the caller knows is not 0.
    pub fn of(value: u64) -> TokenSeq
        requires { 0 < value }
        ensures { result ≡ value }
    {
        TokenSeq { value }
    }

    pub fn get(self) -> u64
        ensures value { result ≡ self }
        ensures positive { 0 < result }
    {
        self.value
    }
}
