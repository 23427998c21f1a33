ghost use Rattle.std.specs.Prelude.{◌≡◌, ◌↔◌, IsTrue, refl};
ghost use Rattle.std.specs.Cmp.{partial_order_from_agreeing_total};
ghost use Rattle.std.specs.Ordering.{as_partial_cmp};
ghost use Rattle.totem_names.specs.ConfOrder.{conf_cmp, conf_total, conf_ties};
ghost use Rattle.totem_names.specs.Orders.{ConfBelow};

use crate::process::ProcId;
use crate::ring::RingId;
use std::cmp::Ordering;

/// A configuration: the regular one of a ring, or a transitional one, named by its own least member and the ring that follows. Regular
/// ones come first, by ring; then transitional ones, by ring and then by least member.
#[derive(Clone, Copy, Debug, PartialEq, Eq, Hash)]
pub enum ConfId {
    Regular(RingId),
    // `least` comes first because fields are laid out as they are declared: this saves 8 bytes in each entry of a log.
    Transitional { least: ProcId, next: RingId },
}

impl ConfId {
    /// Returns whether the two are the same configuration: `==` in a form that contracts can use.
    pub fn is(&self, other: &ConfId) -> bool
        ensures { IsTrue result ↔ (self.now ≡ other.now) }
    {
        match (self, other) {
            (ConfId::Regular(ring), ConfId::Regular(same)) => *ring == *same,
            (
                ConfId::Transitional { next, least },
                ConfId::Transitional {
                    next: ring,
                    least: proc,
                },
            ) => *next == *ring && *least == *proc,
            _ => false,
        }
    }

    /// Returns whether this configuration comes before the other: `<` in a form that contracts can use.
    pub fn is_below(&self, other: &ConfId) -> bool
        ensures { IsTrue result ↔ ConfBelow self.now other.now }
    {
        *self < *other
    }
}

impl Ord for ConfId {
    ghost cmp = { conf_cmp };

    ghost total = { conf_total };

    ghost matches_partial_cmp = { λ a b. refl };

    ghost matches_eq = { conf_ties _ (λ a b. refl) (λ a p n. refl) (λ p n b. refl) (λ p q n m. refl) };

    fn cmp(&self, other: &ConfId) -> Ordering {
        match (self, other) {
            (ConfId::Regular(ring), ConfId::Regular(same)) => ring.cmp(same),
            (ConfId::Regular(_), ConfId::Transitional { .. }) => Ordering::Less,
            (ConfId::Transitional { .. }, ConfId::Regular(_)) => Ordering::Greater,
            (
                ConfId::Transitional { least, next },
                ConfId::Transitional {
                    least: proc,
                    next: ring,
                },
            ) => next.cmp(ring).then(least.cmp(proc)),
        }
    }
}

impl PartialOrd for ConfId {
    ghost partial_cmp = { as_partial_cmp conf_cmp };

    ghost laws = { partial_order_from_agreeing_total conf_cmp conf_total (λ a b. refl)
        (conf_ties _ (λ a b. refl) (λ a p n. refl) (λ p n b. refl) (λ p q n m. refl)) };

    fn partial_cmp(&self, other: &ConfId) -> Option<Ordering> {
        Some(self.cmp(other))
    }
}
