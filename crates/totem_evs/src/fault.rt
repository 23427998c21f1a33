ghost use Rattle.std.specs.Prelude.{◌≡◌, ◌↔◌, IsTrue, IfOk};

use crate::spec::SpecNo;
use std::alloc::{AllocError, Global};
use std::marker::Model;
use totem_names::{Place, are_same};

/// The places of the events that show a fault, in the order that docs/SPECIFICATIONS.md, "Faults", gives them.
#[derive(Debug, Drop)]
pub struct Places {
    list: Vec<Place>,
}

impl Model for Places {
    ghost use Rattle.std.specs.Prelude.{List};
    ghost use Rattle.totem_names.specs.declared.place.Place.{Place};

    ghost Value = { List Place };

    ghost view = { λ p. p.list.items };
}

impl Places {
    pub fn new(list: Vec<Place>) -> Places
        ensures { result ≡ list.items }
    {
        Places { list }
    }

    pub fn as_slice(&self) -> &[Place]
        ensures { result.now ≡ self.now }
    {
        &self.list
    }

    /// Returns the places as a vector, without taking memory.
    pub fn into_vec(self) -> Vec<Place>
        ensures { result.items ≡ self }
    {
        let Places { list } = self;
        list
    }

    /// Returns whether the two are the same places in the same order: `==` in a form that contracts can use.
    pub fn is(&self, other: &Places) -> bool
        ensures { IsTrue result ↔ (self.now ≡ other.now) }
    {
        are_same(self.as_slice(), other.as_slice())
    }

    pub fn try_clone(&self, alloc: Global) -> Result<Places, AllocError>
        ensures { IfOk result (λ p. p ≡ self.now) }
    {
        Ok(Places {
            list: self.list.to_vec(alloc)?,
        })
    }
}

/// A specification that a run breaks, and the places of the events that break it.
#[derive(Debug, Drop)]
pub struct Fault {
    pub spec: SpecNo,
    pub places: Places,
}

impl Fault {
    /// Returns whether the two are the same fault: `==` in a form that contracts can use.
    pub fn is(&self, other: &Fault) -> bool
        ensures { IsTrue result ↔ (self.now ≡ other.now) }
    {
        self.spec == other.spec && self.places.is(&other.places)
    }

    pub fn try_clone(&self, alloc: Global) -> Result<Fault, AllocError>
        ensures { IfOk result (λ f. f ≡ self.now) }
    {
        Ok(Fault {
            spec: self.spec,
            places: self.places.try_clone(alloc)?,
        })
    }
}
