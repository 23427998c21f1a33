//! 1.3: a process delivers what was sent, in the configuration in which it was sent or in what follows it (docs/SPECIFICATIONS.md, "1 Basic
//! delivery").
ghost use Rattle.std.specs.Prelude.{◌≡◌, ◌↔◌, ◌<◌, List, IsTrue, IfOk, length};
ghost use Rattle.totem_evs.specs.Answers.{Finds};
ghost use Rattle.totem_evs.specs.Events.{log_of};
ghost use Rattle.totem_evs.specs.DeliveryFaults.{IsUnsent};
ghost use Rattle.totem_judge_run.specs.Sent.{IsSendTo, WasSentTo};
ghost use Rattle.totem_search.specs.Unsent.{IsUnsentDelivery};

use crate::entries::{EntryTest, some_event};
use crate::following::is_or_follows;
use crate::quick::QuickTests;
use crate::search::{FoundPlaces, Test, bad_places};
use std::alloc::Global;
use totem_evs::{Entry, Run, SpecNo};
use totem_names::{ConfId, MsgId, Proc};

/// The sends of a message in a regular configuration that is `conf`, or that `conf` follows in this log.
#[derive(Clone, Copy)]
struct SendsTo<'m> {
    log: &'m [Entry],
    message: &'m MsgId,
    conf: &'m ConfId,
}

impl EntryTest for SendsTo<'_> {
    ghost holds = { λ t. IsSendTo t.log.now t.message.now t.conf.now 0 0 };

    fn test(&self, entry: &Entry) -> bool {
        match entry {
            Entry::Send(message, ConfId::Regular(ring), _) => {
                *message == *self.message && is_or_follows(self.log, ring, self.conf)
            }
            _ => false,
        }
    }
}

/// Returns whether the message was sent in this configuration, or in the regular one that it follows in this log.
#[tactic(auto, using(crate::proofs::Unsent::sent_to))]
fn was_sent_to(run: &Run, log: &[Entry], message: &MsgId, conf: &ConfId) -> bool
    ensures { IsTrue result ↔ WasSentTo run.now.logs log.now message.now conf.now }
{
    some_event(&SendsTo { log, message, conf }, run)
}

/// Returns whether the entry of this log delivers a message that was not sent for it.
fn is_unsent(run: &Run, log: &[Entry], entry: &Entry) -> bool
    ensures { IsTrue result ↔ IsUnsentDelivery run.now.logs log.now entry.now }
{
    match entry {
        Entry::Deliver(message, conf) => !was_sent_to(run, log, message, conf),
        _ => false,
    }
}

/// The deliveries of what was not sent for them.
#[derive(Clone, Copy)]
struct Unsent<'q, Q> {
    quick: &'q Q,
}

impl<Q: QuickTests> Test for Unsent<'_, Q> {
    ghost of = { λ t. Q.of t.quick.now };

    ghost bad = { λ t. IsUnsent (Q.of t.quick.now) };

    fn run(&self) -> &Run {
        self.quick.run()
    }

    fn is_bad(&self, proc: Proc, log: &[Entry], at: usize) -> bool {
        let entry = &log[at];
        !self.quick.is_sent(proc, entry) && is_unsent(self.quick.run(), log, entry)
    }
}

/// Finds the least event that breaks 1.3.
pub fn find_unsent<Q: QuickTests>(quick: &Q, alloc: Global) -> FoundPlaces
    ensures { IfOk result (Finds (Q.of quick.now) SpecNo.Unsent) }
{
    bad_places(&Unsent { quick }, alloc)
}
