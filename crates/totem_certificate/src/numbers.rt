ghost use Rattle.std.specs.Prelude.{◌≡◌, ◌↔◌, IsTrue, IfSome, IfNone, IfOk, MatchResult, All};
ghost use Rattle.totem_certificate.specs.Keeping.{IsNumber, IsNumbers, IsFirstZero, RefusesNumbers};

use std::alloc::{AllocError, Global};
use std::error::Error;
use std::fmt;
use std::marker::Model;
use thiserror::Error as ThisError;

/// How many numbers a line may have at most.
const MOST: usize = 1_000_000;

/// The first rule that the numbers of a line break. Indices count from 0.
#[derive(Clone, Copy, Debug, PartialEq, Eq, ThisError)]
pub enum NumbersFault {
    #[error("the list is empty")]
    Empty,
    #[error("more than {0} numbers")]
    TooMany(usize),
    #[error("the number at index {0} is 0")]
    Zero(usize),
}

/// Numbers that were refused, with the first rule that they break.
#[derive(Debug, Drop)]
pub struct RefusedNumbers {
    pub fault: NumbersFault,
    pub value: Vec<u32>,
}

impl fmt::Display for RefusedNumbers {
    fn fmt<W: fmt::Write>(&self, f: &mut fmt::Formatter<W>) -> fmt::Result {
        write!(f, "{}", self.fault)
    }
}

impl Error for RefusedNumbers {}

/// The numbers of a log's entries, in order: 1 to 1,000,000 of them, each 1 or more.
#[derive(Debug, Drop)]
pub struct Numbers {
    list: Vec<u32>,
}

impl Model for Numbers {
    ghost use Rattle.std.specs.Prelude.{ℕ, List};
    ghost use Rattle.totem_certificate.specs.Keeping.{IsNumbers};

    ghost Value = { List ℕ };

    ghost view = { λ n. n.list.items };

    ghost invariant = { λ n. IsNumbers n.list.items };
}

// Returns the index of the first 0 of a list.
fn first_zero(list: &[u32]) -> Option<usize>
    ensures found { IfSome result (IsFirstZero list.now) }
    ensures positive { IfNone result (All IsNumber list.now) }
{
    for (at, number) in list.iter().enumerate() {
        if *number == 0 {
            return Some(at);
        }
    }
    None
}

impl Numbers {
    /// Makes the numbers of a line from this list. Otherwise refuses the list, with the first rule that it breaks.
    pub fn new(list: Vec<u32>) -> Result<Numbers, RefusedNumbers>
        ensures { MatchResult result (λ n. (n ≡ list.items) × IsNumbers list.items)
            (λ r. (r.value.items ≡ list.items) × RefusesNumbers list.items r.fault) }
    {
        let fault = if list.is_empty() {
            NumbersFault::Empty
        } else if list.len() > MOST {
            NumbersFault::TooMany(MOST)
        } else if let Some(at) = first_zero(&list) {
            NumbersFault::Zero(at)
        } else {
            return Ok(Numbers { list });
        };
        Err(RefusedNumbers { fault, value: list })
    }

    /// Makes the numbers from a list that is known to keep the rules.
    pub fn of(list: Vec<u32>) -> Numbers
        requires { IsNumbers list.items }
        ensures { result ≡ list.items }
    {
        Numbers { list }
    }

    pub fn as_slice(&self) -> &[u32]
        ensures value { result.now ≡ self.now }
        ensures numbers { IsNumbers self.now }
    {
        &self.list
    }

    /// Returns the numbers as a vector, without taking memory.
    pub fn into_vec(self) -> Vec<u32>
        ensures { result.items ≡ self }
    {
        let Numbers { list } = self;
        list
    }

    /// Returns whether the two are the same numbers: `==` in a form that contracts can use.
    pub fn is(&self, other: &Numbers) -> bool
        ensures { IsTrue result ↔ (self.now ≡ other.now) }
    {
        self.as_slice() == other.as_slice()
    }

    pub fn try_clone(&self, alloc: Global) -> Result<Numbers, AllocError>
        ensures { IfOk result (λ n. n ≡ self.now) }
    {
        Ok(Numbers {
            list: self.list.to_vec(alloc)?,
        })
    }
}
