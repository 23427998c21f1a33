ghost use Rattle.std.specs.Prelude.{◌≡◌, ◌↔◌, ◌<◌, IsTrue, MatchOption};
ghost use Rattle.totem_names.specs.Orders.{PlaceBelow};

use crate::life::Proc;
use std::marker::Model;

/// An entry of a process's log, counted from 1. Places are ordered by process, then by entry.
#[derive(Clone, Copy, Debug, PartialEq, Eq, PartialOrd, Ord, Hash)]
pub struct Place {
    pub proc: Proc,
    pub at: u32,
}

impl Model for Place {
    ghost use Rattle.std.specs.Prelude.{◌<◌};
    ghost use Rattle.totem_names.specs.Names.{PlaceName};

    ghost Value = { PlaceName };

    ghost view = { λ e. record { proc = e.proc; at = e.at } };

    ghost invariant = { λ e. 0 < e.at };

    ghost inverse = { λ n. record { proc = n.proc; at = n.at } };
}

impl Place {
    /// Returns the place with this process and entry, or `None` if the entry's number is 0.
    pub fn new(proc: Proc, at: u32) -> Option<Place>
        ensures { MatchOption result (at ≡ 0) (λ e. (e.proc ≡ proc) × (e.at ≡ at)) }
    {
        if at == 0 {
            return None;
        }
        Some(Place { proc, at })
    }

    /// Returns whether this place comes before the other: `<` in a form that contracts can use.
    #[tactic(auto, using(crate::proofs::Lives::below_is_less))]
    pub fn is_below(&self, other: &Place) -> bool
        ensures { IsTrue result ↔ PlaceBelow self.now other.now }
    {
        *self < *other
    }
}
