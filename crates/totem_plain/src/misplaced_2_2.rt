//! 2.2: a log begins with a change, each other entry names the configuration that it is in, and nothing follows a failure
//! (docs/SPECIFICATIONS.md, "2 Changes of configuration").
ghost use Rattle.std.specs.Prelude.{◌↔◌, IsTrue, IfOk};
ghost use Rattle.totem_evs.specs.Answers.{Finds};
ghost use Rattle.totem_evs.specs.Events.{log_of};
ghost use Rattle.totem_evs.specs.ChangeFaults.{IsMisplaced};
ghost use Rattle.totem_plain.specs.Plain.{FailsBefore, IsElsewhere, IsNoBeginning};

use crate::one_log::{is_failure, stands_in};
use std::alloc::Global;
use totem_evs::{Entry, Run, SpecNo};
use totem_names::Proc;
use totem_search::{FoundPlaces, Test, bad_places, is_change};

fn fails_before(log: &[Entry], end: usize) -> bool
    ensures { IsTrue result ↔ FailsBefore log.now end }
{
    for at in 0..end {
        if is_failure(log, at) {
            return true;
        }
    }
    false
}

/// Returns whether the entry at this index names a configuration that it is not in.
fn is_elsewhere(log: &[Entry], at: usize) -> bool
    ensures { IsTrue result ↔ IsElsewhere log.now at }
{
    match log.get(at) {
        Some(Entry::Send(_, conf, _)) | Some(Entry::Deliver(_, conf)) | Some(Entry::Fail(conf)) => {
            !stands_in(log, at, conf)
        }
        _ => false,
    }
}

fn is_no_beginning(log: &[Entry], at: usize) -> bool
    ensures { IsTrue result ↔ IsNoBeginning log.now at }
{
    at == 0 && !is_change(log, at)
}

#[derive(Clone, Copy)]
struct Misplaced<'r> {
    run: &'r Run,
}

impl Test for Misplaced<'_> {
    ghost of = { λ t. t.run.now.logs };

    ghost bad = { λ t p i. IsMisplaced (log_of t.run.now.logs p) i };

    fn run(&self) -> &Run {
        self.run
    }

    fn is_bad(&self, _proc: Proc, log: &[Entry], at: usize) -> bool {
        if fails_before(log, at) {
            return true;
        }
        is_no_beginning(log, at) || is_elsewhere(log, at)
    }
}

/// Returns the least event that breaks 2.2.
pub fn find(alloc: Global, run: &Run) -> FoundPlaces
    ensures { IfOk result (Finds run.now.logs SpecNo.Misplaced) }
{
    bad_places(&Misplaced { run }, alloc)
}
