//! 6.3: a process that delivers a message also delivers those that another one delivers before it, if their senders are still members
//! (docs/SPECIFICATIONS.md, "6 Total order").
ghost use Rattle.std.specs.Prelude.{IfOk};
ghost use Rattle.totem_evs.specs.Answers.{FindsIn};
ghost use Rattle.totem_evs.specs.AgreementFaults.{BreaksGapIn};
ghost use Rattle.totem_plain.specs.Rings.{HasSent, IsLack, IsLater};

use crate::all_logs::{MemberTest, Sends, log_of, some_member};
use crate::one_log::{delivers_in, has_delivered};
use std::alloc::Global;
use totem_evs::{Entry, Run, SpecNo};
use totem_names::{ConfId, MsgId, Proc, RingId};
use totem_search::{
    FoundList, FoundPlaces, Relation, Test, least, least_bad, least_places, some_entry,
};

/// The processes that send the message, in any configuration.
#[derive(Clone, Copy)]
struct Senders<'r> {
    run: &'r Run,
    message: &'r MsgId,
}

impl MemberTest for Senders<'_> {
    ghost holds = { λ t. HasSent t.run.now.logs t.message.now };

    fn test(&self, proc: Proc) -> bool {
        let message = self.message;
        some_entry(&Sends { message }, log_of(self.run, proc))
    }
}

/// The deliveries of the later message where the sender of the earlier one is a member, by processes that lack the earlier one.
#[derive(Clone, Copy)]
struct Lacks<'r> {
    run: &'r Run,
    ring: &'r RingId,
    earlier: &'r MsgId,
    later: &'r MsgId,
}

impl Test for Lacks<'_> {
    ghost of = { λ t. t.run.now.logs };

    ghost bad = { λ t. IsLack t.run.now.logs t.ring.now t.earlier.now t.later.now };

    fn run(&self) -> &Run {
        self.run
    }

    fn is_bad(&self, _proc: Proc, log: &[Entry], at: usize) -> bool {
        let Entry::Deliver(_, conf) = &log[at] else {
            return false;
        };
        if !delivers_in(log, self.ring, self.later, at) {
            return false;
        }
        if has_delivered(log, self.ring, self.earlier) {
            return false;
        }
        let (run, message) = (self.run, self.earlier);
        some_member(&Senders { run, message }, run, conf)
    }
}

/// The deliveries by a process after the one at `first`, each with such a lack.
#[derive(Clone, Copy)]
struct Laters<'r> {
    run: &'r Run,
    ring: &'r RingId,
    earlier: &'r MsgId,
    proc: Proc,
    first: usize,
}

impl Relation for Laters<'_> {
    ghost of = { λ t. t.run.now.logs };

    ghost holds = { λ t. IsLater t.run.now.logs t.ring.now t.earlier.now t.proc t.first };

    fn rest(&self, alloc: Global, proc: Proc, log: &[Entry], at: usize) -> FoundList {
        let Laters {
            run,
            ring,
            earlier,
            ..
        } = *self;
        let Entry::Deliver(later, _) = &log[at] else {
            return Ok(None);
        };
        if proc.rank() != self.proc.rank()
            || at <= self.first
            || !delivers_in(log, ring, later, at)
        {
            return Ok(None);
        }
        least_bad(
            &Lacks {
                run,
                ring,
                earlier,
                later,
            },
            alloc,
        )
    }
}

/// The deliveries of messages that another process lacks.
#[derive(Clone, Copy)]
struct Earliers<'r> {
    run: &'r Run,
    ring: &'r RingId,
}

impl Relation for Earliers<'_> {
    ghost of = { λ t. t.run.now.logs };

    ghost holds = { λ t. BreaksGapIn t.run.now.logs t.ring.now };

    fn rest(&self, alloc: Global, proc: Proc, log: &[Entry], first: usize) -> FoundList {
        let Earliers { run, ring } = *self;
        let Entry::Deliver(earlier, _) = &log[first] else {
            return Ok(None);
        };
        if !delivers_in(log, ring, earlier, first) {
            return Ok(None);
        }
        least(
            &Laters {
                run,
                ring,
                earlier,
                proc,
                first,
            },
            alloc,
            run,
        )
    }
}

/// Returns the least events that break 6.3 in a regular configuration.
pub fn find(alloc: Global, run: &Run, ring: &RingId) -> FoundPlaces
    ensures { IfOk result (FindsIn run.now.logs ring.now SpecNo.Gap) }
{
    least_places(&Earliers { run, ring }, alloc, run)
}
