//! 7.2: if a safe message is delivered in the regular configuration, each of its members changes to it (docs/SPECIFICATIONS.md, "7 Safe
//! delivery"). This is the search, which names what breaks it. The rule, which is tried first, is totem_judge_traffic `installed_7_2`.
ghost use Rattle.std.specs.Prelude.{◌↔◌, IsTrue};
ghost use Rattle.totem_evs.specs.declared.spec.SpecNo.TheVariants.{Installed};
ghost use Rattle.totem_evs.specs.AgreementFaults.{IsNotInstalled};
ghost use Rattle.totem_pass_d.specs.Acts.{HasCome};
ghost use Rattle.totem_pass_d.specs.KnownStays.{AreKnown};

use crate::search::EventTest;
use crate::stays::{Stay, Stays};
use totem_evs::Entry;
use totem_names::Proc;

/// The deliveries of safe messages in the regular configuration if a member never changes to it.
#[derive(Clone, Copy)]
pub struct Uninstalled<'s, 'r> {
    pub stays: &'s Stays<'r>,
}

impl Uninstalled<'_, '_> {
    /// Returns whether the log of this process changes to the regular configuration.
    fn has_come(&self, proc: Proc) -> bool
        requires { AreKnown self.now.stays.now }
        ensures { IsTrue result ↔ HasCome self.now.stays.now.run.now.logs self.now.stays.now.ring proc }
    {
        match self.stays.stay_of(proc) {
            Some(_) => true,
            None => false,
        }
    }
}

impl EventTest for Uninstalled<'_, '_> {
    ghost among = { λ s. s.stays.now };

    ghost spec = { Installed };

    ghost breaks = { λ s. IsNotInstalled s.stays.now.run.now.logs s.stays.now.ring };

    fn breaks_at(&self, stay: &Stay, at: usize) -> bool {
        let Entry::Deliver(message, _) = self.stays.entry_in(stay, at) else {
            return false;
        };
        if at >= stay.turn {
            return false;
        }
        if !self.stays.is_safe(message) {
            return false;
        }
        let members = self.stays.members_at(stay, at);
        !members.iter().all(|member| self.has_come(*member))
    }
}
