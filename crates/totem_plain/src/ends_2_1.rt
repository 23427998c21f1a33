//! 2.1: where a quiet log ends, each member ends too or may still arrive (docs/SPECIFICATIONS.md, "2 Changes of configuration").
ghost use Rattle.std.specs.Prelude.{◌↔◌, IsTrue, IfOk};
ghost use Rattle.totem_evs.specs.Answers.{Finds};
ghost use Rattle.totem_evs.specs.Changes.{SharesEnd};
ghost use Rattle.totem_evs.specs.ChangeFaults.{EndsAlone};
ghost use Rattle.totem_plain.specs.Bad.{IsLoneEnd, MayCome};

use crate::all_logs::{MemberTest, has_log, is_quiet, log_of, some_of};
use crate::one_log::{ends_in, is_last, never_changes_to, never_fails};
use std::alloc::Global;
use totem_evs::{Entry, Run, SpecNo};
use totem_names::{ConfId, Proc};
use totem_search::{FoundPlaces, Test, bad_places};

/// Returns whether the process may still change to the configuration.
fn may_come(run: &Run, conf: &ConfId, proc: Proc) -> bool
    ensures { IsTrue result ↔ MayCome run.now.logs conf.now proc }
{
    !is_quiet(run, proc) && never_changes_to(log_of(run, proc), conf)
}

fn shares_end(run: &Run, conf: &ConfId, proc: Proc) -> bool
    ensures { IsTrue result ↔ SharesEnd run.now.logs conf.now proc }
{
    let log = log_of(run, proc);
    if !has_log(run, proc) || !never_fails(log) {
        return false;
    }
    ends_in(log, conf) || may_come(run, conf, proc)
}

/// The processes that do not share the end of a log in a configuration.
#[derive(Clone, Copy)]
struct Strays<'r> {
    run: &'r Run,
    conf: &'r ConfId,
}

impl MemberTest for Strays<'_> {
    ghost holds = { λ t q. SharesEnd t.run.now.logs t.conf.now q → ⊥ };

    fn test(&self, proc: Proc) -> bool {
        !shares_end(self.run, self.conf, proc)
    }
}

/// Returns whether the entry at this index is the last change of a quiet log, and some member does not share that end.
fn ends_alone(run: &Run, proc: Proc, log: &[Entry], at: usize, entry: &Entry) -> bool
    ensures { IsTrue result ↔ IsLoneEnd run.now.logs proc log.now at entry.now }
{
    match entry {
        Entry::Conf(conf, members) => {
            is_quiet(run, proc)
                && is_last(log, at)
                && some_of(&Strays { run, conf }, members.as_slice())
        }
        _ => false,
    }
}

#[derive(Clone, Copy)]
struct Ends<'r> {
    run: &'r Run,
}

impl Test for Ends<'_> {
    ghost of = { λ t. t.run.now.logs };

    ghost bad = { λ t. EndsAlone t.run.now.logs };

    fn run(&self) -> &Run {
        self.run
    }

    fn is_bad(&self, proc: Proc, log: &[Entry], at: usize) -> bool {
        ends_alone(self.run, proc, log, at, &log[at])
    }
}

/// Returns the least event that breaks 2.1.
pub fn find(alloc: Global, run: &Run) -> FoundPlaces
    ensures { IfOk result (Finds run.now.logs SpecNo.End) }
{
    bad_places(&Ends { run }, alloc)
}
