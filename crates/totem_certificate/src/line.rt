ghost use Rattle.std.specs.Prelude.{◌≡◌, ◌↔◌, IsTrue, IfOk};
ghost use Rattle.totem_certificate.specs.Keeping.{IsLine};

use crate::numbers::Numbers;
use std::alloc::{AllocError, Global};
use std::marker::Model;
use totem_names::{Keyed, Listed, Proc, Version, life_fits};

/// A line of a certificate: a process, and a number for each entry of its log.
#[derive(Debug, Drop)]
pub struct Line {
    pub proc: Proc,
    pub numbers: Numbers,
}

impl Model for Line {
    ghost use Rattle.totem_evs.specs.Certificates.{Numbering};

    ghost Value = { Numbering };

    ghost view = { λ l. record { proc = l.proc; numbers = l.numbers } };
}

impl Line {
    /// Does nothing. Its contract says which rules the line keeps, which the types of its parts ensure.
    pub(crate) fn keeps_its_rules(&self)
        ensures { IsLine self.now }
    {
        life_fits(Version::Two, self.proc);
        let _ = self.numbers.as_slice();
    }

    /// Returns whether the two are the same line: `==` in a form that contracts can use.
    pub fn is(&self, other: &Line) -> bool
        ensures { IsTrue result ↔ (self.now ≡ other.now) }
    {
        self.proc == other.proc && self.numbers.is(&other.numbers)
    }

    pub fn try_clone(&self, alloc: Global) -> Result<Line, AllocError>
        ensures { IfOk result (λ l. l ≡ self.now) }
    {
        Ok(Line {
            proc: self.proc,
            numbers: self.numbers.try_clone(alloc)?,
        })
    }
}

impl Listed for Line {
    ghost keeps = { IsLine };

    fn keeps_its_rule(&self) {
        self.keeps_its_rules();
    }

    fn is(&self, other: &Line) -> bool {
        Line::is(self, other)
    }

    fn try_clone(&self, alloc: Global) -> Result<Line, AllocError> {
        Line::try_clone(self, alloc)
    }
}

/// Lines are ordered by process.
impl Keyed for Line {
    ghost key_of = { λ l. l.proc };

    fn key(&self) -> u32 {
        self.proc.rank()
    }
}
