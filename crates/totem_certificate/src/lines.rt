ghost use Rattle.std.specs.Prelude.{◌≡◌, ◌↔◌, IsTrue, IfOk, MatchResult};
ghost use Rattle.totem_names.specs.Lists.{Refuses};
ghost use Rattle.totem_certificate.specs.Keeping.{IsBelowLine, IsCertificate};

use crate::line::Line;
use std::alloc::{AllocError, Global};
use std::marker::Model;
use totem_names::{Refused, are_same, copied, rising};

/// How many lines a certificate may have at most.
const MOST: usize = 32;

/// The lines of one certificate: 0 to 32 of them, their processes strictly ascending.
#[derive(Debug, Drop)]
pub struct Lines {
    list: Vec<Line>,
}

impl Model for Lines {
    ghost use Rattle.std.specs.Prelude.{List};
    ghost use Rattle.totem_evs.specs.Certificates.{Numbering};
    ghost use Rattle.totem_certificate.specs.Keeping.{IsCertificate};

    ghost Value = { List Numbering };

    ghost view = { λ l. l.list.items };

    ghost invariant = { λ l. IsCertificate l.list.items };
}

impl Lines {
    /// Makes the lines from this list. Otherwise refuses the list, with the first rule that it breaks.
    pub fn new(list: Vec<Line>) -> Result<Lines, Refused<Vec<Line>>>
        ensures { MatchResult result (λ l. (l ≡ list.items) × IsCertificate list.items)
            (λ r. (r.value.items ≡ list.items) × Refuses 0 32 IsBelowLine list.items r.fault) }
    {
        let list = rising(0, MOST, list)?;
        Ok(Lines { list })
    }

    /// Makes the lines from a list that is known to keep the rules.
    pub fn of(list: Vec<Line>) -> Lines
        requires { IsCertificate list.items }
        ensures { result ≡ list.items }
    {
        Lines { list }
    }

    pub fn as_slice(&self) -> &[Line]
        ensures value { result.now ≡ self.now }
        ensures certificate { IsCertificate self.now }
    {
        &self.list
    }

    /// Returns the lines as a vector, without taking memory.
    pub fn into_vec(self) -> Vec<Line>
        ensures { result.items ≡ self }
    {
        let Lines { list } = self;
        list
    }

    /// Returns whether the two are the same lines: `==` in a form that contracts can use.
    pub fn is(&self, other: &Lines) -> bool
        ensures { IsTrue result ↔ (self.now ≡ other.now) }
    {
        are_same(self.as_slice(), other.as_slice())
    }

    pub fn try_clone(&self, alloc: Global) -> Result<Lines, AllocError>
        ensures { IfOk result (λ l. l ≡ self.now) }
    {
        let list = copied(alloc, &self.list)?;
        Ok(Lines { list })
    }
}
