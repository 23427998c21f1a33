ghost use Rattle.std.specs.Prelude.{◌≡◌, ◌↔◌, IsTrue, ◌<◌, ◌^◌, All, IfOk, MatchResult};
ghost use Rattle.totem_names.specs.Lists.{Refuses};
ghost use Rattle.totem_packets.specs.Rising.{IsBelow, IsRequests};

use crate::number::Number;
use std::alloc::{AllocError, Global};
use std::marker::Model;
use totem_names::{Refused, are_same, rising};

/// How many numbers a token may ask for at most.
const MOST: usize = 64;

/// The numbers that a token asks for: 0 to 64, strictly ascending.
#[derive(Debug, Drop)]
pub struct Requests {
    numbers: Vec<Number>,
}

impl Model for Requests {
    ghost use Rattle.std.specs.Prelude.{ℕ, List};
    ghost use Rattle.totem_packets.specs.Rising.{IsRequests};

    ghost Value = { List ℕ };

    ghost view = { λ r. r.numbers.items };

    ghost invariant = { λ r. IsRequests r.numbers.items };
}

impl Requests {
    /// Makes the requests for these numbers. A refusal gives the list back with the first rule that it breaks.
    pub fn new(numbers: Vec<Number>) -> Result<Requests, Refused<Vec<Number>>>
        ensures { MatchResult result (λ q. (q ≡ numbers.items) × IsRequests numbers.items)
            (λ r. (r.value.items ≡ numbers.items) × Refuses 0 64 IsBelow numbers.items r.fault) }
    {
        let numbers = rising(0, MOST, numbers)?;
        Ok(Requests { numbers })
    }

    /// Makes the requests for numbers that the caller knows keep the rules.
    pub fn of(numbers: Vec<Number>) -> Requests
        requires { IsRequests numbers.items }
        ensures { result ≡ numbers.items }
    {
        Requests { numbers }
    }

    pub fn as_slice(&self) -> &[Number]
        ensures value { result.now ≡ self.now }
        ensures requests { IsRequests self.now }
    {
        &self.numbers
    }

    /// Returns the numbers as a vector, without taking memory.
    pub fn into_vec(self) -> Vec<Number>
        ensures { result.items ≡ self }
    {
        let Requests { numbers } = self;
        numbers
    }

    /// Returns whether the two are the same numbers: `==` in a form that contracts can use.
    pub fn is(&self, other: &Requests) -> bool
        ensures { IsTrue result ↔ (self.now ≡ other.now) }
    {
        are_same(self.as_slice(), other.as_slice())
    }

    pub fn try_clone(&self, alloc: Global) -> Result<Requests, AllocError>
        ensures { IfOk result (λ r. r ≡ self.now) }
    {
        Ok(Requests {
            numbers: self.numbers.to_vec(alloc)?,
        })
    }
}
