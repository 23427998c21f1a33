//! 4: processes that go from one configuration to the next together deliver the same messages in it (docs/SPECIFICATIONS.md, "4 Failure
//! atomicity").
ghost use Rattle.std.specs.Prelude.{◌↔◌, IsTrue, IfOk};
ghost use Rattle.totem_evs.specs.Answers.{FindsIn};
ghost use Rattle.totem_evs.specs.AgreementFaults.{GoesAt};
ghost use Rattle.totem_evs.specs.RingFaults.{BreaksAtomicityIn};
ghost use Rattle.totem_plain.specs.Rings.{GoesFrom, IsParting, IsGoing};

use crate::one_log::{delivered_by, is_next};
use std::alloc::Global;
use totem_evs::{Entry, Run, SpecNo};
use totem_names::{ConfId, MsgId, Proc, RingId};
use totem_search::{
    FoundList, FoundPlaces, Relation, Test, change_at, changes_to_at, is_or_follows, least,
    least_bad, least_places,
};

/// Returns whether the change at `at` is to `next`, and is the next one after that at `from`, to `conf`.
fn goes_from(log: &[Entry], from: usize, conf: &ConfId, next: &ConfId, at: usize) -> bool
    ensures { IsTrue result ↔ GoesFrom log.now conf.now next.now at from }
{
    changes_to_at(log, from, conf) && is_next(log, from, at) && changes_to_at(log, at, next)
}

/// Returns whether the change at this index is to `next`, and is the next one after a change to `conf`.
fn goes_at(log: &[Entry], conf: &ConfId, next: &ConfId, at: usize) -> bool
    ensures { IsTrue result ↔ GoesAt log.now conf.now next.now at }
{
    for from in 0..at {
        if goes_from(log, from, conf, next, at) {
            return true;
        }
    }
    false
}

/// The changes from `conf` to `next` by processes that do not deliver the message in `conf`.
#[derive(Clone, Copy)]
struct Partings<'r> {
    run: &'r Run,
    message: &'r MsgId,
    conf: &'r ConfId,
    next: &'r ConfId,
}

impl Test for Partings<'_> {
    ghost of = { λ t. t.run.now.logs };

    ghost bad = { λ t. IsParting t.run.now.logs t.message.now t.conf.now t.next.now };

    fn run(&self) -> &Run {
        self.run
    }

    fn is_bad(&self, _proc: Proc, log: &[Entry], at: usize) -> bool {
        goes_at(log, self.conf, self.next, at)
            && !delivered_by(log, log.len(), self.message, self.conf)
    }
}

/// The changes from `conf` by a process that delivers the message in it, each with such a parting.
#[derive(Clone, Copy)]
struct Goings<'r> {
    run: &'r Run,
    proc: Proc,
    message: &'r MsgId,
    conf: &'r ConfId,
}

impl Relation for Goings<'_> {
    ghost of = { λ t. t.run.now.logs };

    ghost holds = { λ t. IsGoing t.run.now.logs t.proc t.message.now t.conf.now };

    fn rest(&self, alloc: Global, proc: Proc, log: &[Entry], at: usize) -> FoundList {
        let Goings {
            run,
            message,
            conf,
            ..
        } = *self;
        let Some(next) = change_at(log, at) else {
            return Ok(None);
        };
        if proc.rank() != self.proc.rank() {
            return Ok(None);
        }
        if !goes_at(log, conf, next, at) {
            return Ok(None);
        }
        least_bad(
            &Partings {
                run,
                message,
                conf,
                next,
            },
            alloc,
        )
    }
}

/// The deliveries of messages that another process, which goes with this one, does not deliver.
#[derive(Clone, Copy)]
struct Deliveries<'r> {
    run: &'r Run,
    ring: &'r RingId,
}

impl Relation for Deliveries<'_> {
    ghost of = { λ t. t.run.now.logs };

    ghost holds = { λ t. BreaksAtomicityIn t.run.now.logs t.ring.now };

    fn rest(&self, alloc: Global, proc: Proc, log: &[Entry], at: usize) -> FoundList {
        let run = self.run;
        let Entry::Deliver(message, conf) = &log[at] else {
            return Ok(None);
        };
        if !is_or_follows(log, self.ring, conf) {
            return Ok(None);
        }
        least(
            &Goings {
                run,
                proc,
                message,
                conf,
            },
            alloc,
            run,
        )
    }
}

/// Returns the least events that break 4 in a regular configuration.
pub fn find(alloc: Global, run: &Run, ring: &RingId) -> FoundPlaces
    ensures { IfOk result (FindsIn run.now.logs ring.now SpecNo.Atomicity) }
{
    least_places(&Deliveries { run, ring }, alloc, run)
}
