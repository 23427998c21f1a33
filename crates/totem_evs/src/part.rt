ghost use Rattle.std.specs.Prelude.{◌≡◌, ◌↔◌, IsTrue, IfOk};

use crate::ending::Ending;
use crate::entry::Entry;
use std::alloc::{AllocError, Global};
use totem_names::{Proc, Version, life_fits};

/// A part of a run. The text of a run has its parts one after the other.
#[derive(Debug, Drop)]
pub enum Part {
    /// A log of this process begins.
    Log(Proc),
    /// The log continues with this entry.
    Entry(Entry),
    /// The log ends in this way.
    Close(Ending),
}

impl Part {
    ghost use Rattle.totem_evs.specs.ReadState.{IsPart};

    /// Does nothing. Its contract says that names are in range, which the types of what the part holds ensure.
    pub(crate) fn keeps_its_rule(&self)
        ensures { IsPart self.now }
    {
        match self {
            Part::Log(proc) => life_fits(Version::Three, *proc),
            Part::Entry(entry) => entry.keeps_its_rule(),
            Part::Close(_) => {}
        }
    }

    /// Returns whether the two are the same part: `==` in a form that contracts can use.
    pub fn is(&self, other: &Part) -> bool
        ensures { IsTrue result ↔ (self.now ≡ other.now) }
    {
        match (self, other) {
            (Part::Log(proc), Part::Log(same)) => *proc == *same,
            (Part::Entry(entry), Part::Entry(same)) => entry.is(same),
            (Part::Close(ending), Part::Close(same)) => *ending == *same,
            _ => false,
        }
    }

    pub fn try_clone(&self, alloc: Global) -> Result<Part, AllocError>
        ensures { IfOk result (λ p. p ≡ self.now) }
    {
        Ok(match self {
            Part::Log(proc) => Part::Log(*proc),
            Part::Entry(entry) => Part::Entry(entry.try_clone(alloc)?),
            Part::Close(ending) => Part::Close(*ending),
        })
    }
}
