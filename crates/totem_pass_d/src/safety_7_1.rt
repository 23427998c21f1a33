//! 7.1: a safe message that is delivered reaches each member of the configuration in which it is delivered (docs/SPECIFICATIONS.md, "7 Safe
//! delivery"). This is the search, which names what breaks it. The rule, which is tried first, is totem_judge_traffic `safety_7_1`.
ghost use Rattle.std.specs.Prelude.{◌↔◌, IsTrue};
ghost use Rattle.totem_evs.specs.declared.spec.SpecNo.TheVariants.{Safety};
ghost use Rattle.totem_evs.specs.AgreementFaults.{IsNotReached};
ghost use Rattle.totem_evs.specs.Following.{DeliversOrEnds};
ghost use Rattle.totem_pass_d.specs.KnownStays.{AreKnown};

use crate::search::EventTest;
use crate::stays::{Stay, Stays};
use totem_evs::Entry;
use totem_names::{MsgId, Proc};

/// The deliveries of safe messages that some member neither delivers nor is excused from delivering.
#[derive(Clone, Copy)]
pub struct Unreached<'s, 'r> {
    pub stays: &'s Stays<'r>,
}

impl Unreached<'_, '_> {
    /// Returns whether this process delivers the message, or is excused from delivering it.
    fn is_reached(&self, proc: Proc, message: &MsgId) -> bool
        requires { AreKnown self.now.stays.now }
        ensures { IsTrue result ↔ DeliversOrEnds self.now.stays.now.run.now.logs proc self.now.stays.now.ring message.now }
    {
        let Some(stay) = self.stays.stay_of(proc) else {
            return false;
        };
        stay.is_excused() || self.stays.delivers(stay, message)
    }
}

impl EventTest for Unreached<'_, '_> {
    ghost among = { λ s. s.stays.now };

    ghost spec = { Safety };

    ghost breaks = { λ s. IsNotReached s.stays.now.run.now.logs s.stays.now.ring };

    fn breaks_at(&self, stay: &Stay, at: usize) -> bool {
        let Entry::Deliver(message, _) = self.stays.entry_in(stay, at) else {
            return false;
        };
        if !self.stays.is_safe(message) {
            return false;
        }
        let members = self.stays.members_at(stay, at);
        !members
            .iter()
            .all(|member| self.is_reached(*member, message))
    }
}
