//! 7.1: if one process delivers a safe message, each member of the configuration delivers it, too (docs/SPECIFICATIONS.md, "7 Safe
//! delivery").
ghost use Rattle.std.specs.Prelude.{◌↔◌, IsTrue, IfOk};
ghost use Rattle.totem_evs.specs.Answers.{FindsIn};
ghost use Rattle.totem_evs.specs.AgreementFaults.{IsNotReached};
ghost use Rattle.totem_evs.specs.Following.{DeliversOrEnds};
ghost use Rattle.totem_plain.specs.Bad.{IsUnreached};

use crate::all_logs::{MemberTest, delivers_or_ends, misses_safe};
use std::alloc::Global;
use totem_evs::{Entry, Run, SpecNo};
use totem_names::{MsgId, Proc, RingId};
use totem_search::{FoundPlaces, Test, bad_places, is_or_follows};

/// The processes that do not deliver the message, without excuse.
#[derive(Clone, Copy)]
struct Unreached<'r> {
    run: &'r Run,
    ring: &'r RingId,
    message: &'r MsgId,
}

impl MemberTest for Unreached<'_> {
    ghost holds = { λ t q. DeliversOrEnds t.run.now.logs q t.ring.now t.message.now → ⊥ };

    fn test(&self, proc: Proc) -> bool {
        !delivers_or_ends(self.run, proc, self.ring, self.message)
    }
}

/// Returns whether the entry delivers a safe message that some member does not deliver.
fn is_unreached(run: &Run, ring: &RingId, log: &[Entry], entry: &Entry) -> bool
    ensures { IsTrue result ↔ IsUnreached run.now.logs ring.now log.now entry.now }
{
    match entry {
        Entry::Deliver(message, conf) => {
            is_or_follows(log, ring, conf)
                && misses_safe(&Unreached { run, ring, message }, run, message, conf)
        }
        _ => false,
    }
}

#[derive(Clone, Copy)]
struct NotReached<'r> {
    run: &'r Run,
    ring: &'r RingId,
}

impl Test for NotReached<'_> {
    ghost of = { λ t. t.run.now.logs };

    ghost bad = { λ t. IsNotReached t.run.now.logs t.ring.now };

    fn run(&self) -> &Run {
        self.run
    }

    fn is_bad(&self, _proc: Proc, log: &[Entry], at: usize) -> bool {
        is_unreached(self.run, self.ring, log, &log[at])
    }
}

/// Returns the least event that breaks 7.1 in a regular configuration.
pub fn find(alloc: Global, run: &Run, ring: &RingId) -> FoundPlaces
    ensures { IfOk result (FindsIn run.now.logs ring.now SpecNo.Safety) }
{
    bad_places(&NotReached { run, ring }, alloc)
}
