//! 3: a process delivers the messages that it sends (docs/SPECIFICATIONS.md, "3 Self-delivery").
ghost use Rattle.std.specs.Prelude.{◌↔◌, IsTrue, IfOk};
ghost use Rattle.totem_evs.specs.Answers.{FindsIn};
ghost use Rattle.totem_evs.specs.AgreementFaults.{IsNotOwned};
ghost use Rattle.totem_plain.specs.Bad.{IsUnowned};

use crate::all_logs::delivers_or_ends;
use std::alloc::Global;
use totem_evs::{Entry, Run, SpecNo};
use totem_names::{ConfId, Proc, RingId};
use totem_search::{FoundPlaces, Test, bad_places};

/// Returns whether the entry is a send in the regular configuration, and the process does not deliver the message, without excuse.
fn is_unowned(run: &Run, ring: &RingId, proc: Proc, entry: &Entry) -> bool
    ensures { IsTrue result ↔ IsUnowned run.now.logs ring.now proc entry.now }
{
    match entry {
        Entry::Send(message, ConfId::Regular(other), _) => {
            *other == *ring && !delivers_or_ends(run, proc, ring, message)
        }
        _ => false,
    }
}

#[derive(Clone, Copy)]
struct NotOwned<'r> {
    run: &'r Run,
    ring: &'r RingId,
}

impl Test for NotOwned<'_> {
    ghost of = { λ t. t.run.now.logs };

    ghost bad = { λ t. IsNotOwned t.run.now.logs t.ring.now };

    fn run(&self) -> &Run {
        self.run
    }

    fn is_bad(&self, proc: Proc, log: &[Entry], at: usize) -> bool {
        is_unowned(self.run, self.ring, proc, &log[at])
    }
}

/// Returns the least event that breaks 3 in a regular configuration.
pub fn find(alloc: Global, run: &Run, ring: &RingId) -> FoundPlaces
    ensures { IfOk result (FindsIn run.now.logs ring.now SpecNo.OwnDelivery) }
{
    bad_places(&NotOwned { run, ring }, alloc)
}
