ghost use Rattle.std.specs.Prelude.{◌≡◌, ◌↔◌, ◌<◌, IsTrue, MatchOption};
ghost use Rattle.totem_names.specs.Orders.{MessageBelow};

use crate::process::ProcId;
use crate::ring::RingId;
use std::marker::Model;

/// A message, named by the ring on which it was first sent and its number there, from 1 to 4294967295.
#[derive(Clone, Copy, Debug, PartialEq, Eq, PartialOrd, Ord, Hash)]
pub struct MsgId {
    pub ring: RingId,
    pub number: u32,
}

impl Model for MsgId {
    ghost use Rattle.std.specs.Prelude.{◌<◌};
    ghost use Rattle.totem_names.specs.Names.{MessageName};

    ghost Value = { MessageName };

    ghost view = { λ m. record { ring = m.ring; number = m.number } };

    ghost invariant = { λ m. 0 < m.number };

    ghost inverse = { λ n. record { ring = n.ring; number = n.number } };
}

impl MsgId {
    /// Returns the message with this ring and number, or `None` if the number is 0.
    pub fn new(ring: RingId, number: u32) -> Option<MsgId>
        ensures { MatchOption result (number ≡ 0) (λ m. (m.ring ≡ ring) × (m.number ≡ number)) }
    {
        if number == 0 {
            return None;
        }
        Some(MsgId { ring, number })
    }

    /// Returns whether this message comes before the other: `<` in a form that contracts can use.
    pub fn is_below(&self, other: &MsgId) -> bool
        ensures { IsTrue result ↔ MessageBelow self.now other.now }
    {
        *self < *other
    }
}

/// When a message may be delivered: an agreed one in its turn, a safe one in its turn and only once all members are
/// known to hold it.
#[derive(Clone, Copy, Debug, PartialEq, Eq, PartialOrd, Ord, Hash)]
pub enum Service {
    Agreed,
    Safe,
}
