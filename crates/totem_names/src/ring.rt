ghost use Rattle.std.specs.Prelude.{◌≡◌, ◌↔◌, ◌<◌, IsTrue, MatchOption};
ghost use Rattle.totem_names.specs.Orders.{RingBelow};

use crate::process::ProcId;
use std::marker::Model;

/// A ring, named by its number from 1 to 4294967295 and its representative.
#[derive(Clone, Copy, Debug, PartialEq, Eq, PartialOrd, Ord, Hash)]
pub struct RingId {
    pub seq: u32,
    pub rep: ProcId,
}

impl Model for RingId {
    ghost use Rattle.std.specs.Prelude.{◌<◌};
    ghost use Rattle.totem_names.specs.Names.{RingName};

    ghost Value = { RingName };

    ghost view = { λ r. record { seq = r.seq; rep = r.rep } };

    ghost invariant = { λ r. 0 < r.seq };

    ghost inverse = { λ n. record { seq = n.seq; rep = n.rep } };
}

impl RingId {
    ghost use Rattle.totem_names.specs.Names.{RingName};

    /// Returns the ring with this number and representative, or `None` if the number is 0.
    pub fn new(seq: u32, rep: ProcId) -> Option<RingId>
        ensures { MatchOption result (seq ≡ 0) (λ r. (r.seq ≡ seq) × (r.rep ≡ rep)) }
    {
        if seq == 0 {
            return None;
        }
        Some(RingId { seq, rep })
    }

    /// Returns whether this ring comes before the other: `<` in a form that contracts can use.
    pub fn is_below(&self, other: &RingId) -> bool
        ensures { IsTrue result ↔ RingBelow self.now other.now }
    {
        *self < *other
    }
}
