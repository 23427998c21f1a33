//! 3: a process that sends a message in the regular configuration delivers it there or in what follows (docs/SPECIFICATIONS.md, "3
//! Self-delivery"). This is the search, which names what breaks it. The rule, which is tried first, is totem_judge_traffic `own_3`.
ghost use Rattle.totem_evs.specs.declared.spec.SpecNo.TheVariants.{OwnDelivery};
ghost use Rattle.totem_evs.specs.AgreementFaults.{IsNotOwned};

use crate::search::EventTest;
use crate::stays::{Stay, Stays};
use totem_evs::Entry;

/// The sends of messages that their sender does not deliver, though the end of its stay does not excuse it.
#[derive(Clone, Copy)]
pub struct Undelivered<'s, 'r> {
    pub stays: &'s Stays<'r>,
}

impl EventTest for Undelivered<'_, '_> {
    ghost among = { λ s. s.stays.now };

    ghost spec = { OwnDelivery };

    ghost breaks = { λ s. IsNotOwned s.stays.now.run.now.logs s.stays.now.ring };

    fn breaks_at(&self, stay: &Stay, at: usize) -> bool {
        let Entry::Send(message, _, _) = self.stays.entry_in(stay, at) else {
            return false;
        };
        !stay.is_excused() && !self.stays.delivers(stay, message)
    }
}
