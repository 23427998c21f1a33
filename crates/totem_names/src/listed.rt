//! Lists of processes and of places.
ghost use Rattle.std.specs.Prelude.{◌≡◌, ◌↔◌, IsTrue, IfOk};
ghost use Rattle.totem_names.specs.Texts.{IsProcess};
ghost use Rattle.totem_names.specs.Ranks.{id_of};
ghost use Rattle.totem_names.specs.Processes.{IsProcessIn, IsPlaceIn};
ghost use Rattle.totem_names.specs.declared.version.Version.TheVariants.{Three};

use crate::life::Proc;
use crate::lists::{Keyed, Listed};
use crate::place::Place;
use crate::process::ProcId;
use crate::process_laws::{life_fits, place_fits};
use crate::version::Version;
use std::alloc::{AllocError, Global};

impl Listed for ProcId {
    ghost keeps = { IsProcess };

    fn keeps_its_rule(&self) {
        let proc = *self;
        let _number = proc.number();
    }

    fn is(&self, other: &ProcId) -> bool {
        *self == *other
    }

    fn try_clone(&self, _alloc: Global) -> Result<ProcId, AllocError> {
        Ok(*self)
    }
}

impl Keyed for ProcId {
    ghost key_of = { λ p. p };

    fn key(&self) -> u32 {
        let proc = *self;
        u32::from(proc.number())
    }
}

impl Listed for Proc {
    ghost keeps = { IsProcessIn Three };

    fn keeps_its_rule(&self) {
        life_fits(Version::Three, *self);
    }

    fn is(&self, other: &Proc) -> bool {
        *self == *other
    }

    fn try_clone(&self, _alloc: Global) -> Result<Proc, AllocError> {
        Ok(*self)
    }
}

/// A list of processes is ascending by identifier, so that there is one life of each at most.
impl Keyed for Proc {
    ghost key_of = { λ p. id_of p };

    fn key(&self) -> u32 {
        u32::from(self.id().number())
    }
}

impl Listed for Place {
    ghost keeps = { IsPlaceIn Three };

    fn keeps_its_rule(&self) {
        place_fits(Version::Three, self);
    }

    fn is(&self, other: &Place) -> bool {
        *self == *other
    }

    fn try_clone(&self, _alloc: Global) -> Result<Place, AllocError> {
        Ok(*self)
    }
}
