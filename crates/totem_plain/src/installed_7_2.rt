//! 7.2: where a safe message is delivered in a regular configuration, each member changes to it (docs/SPECIFICATIONS.md, "7 Safe delivery").
ghost use Rattle.std.specs.Prelude.{◌↔◌, IsTrue, IfOk};
ghost use Rattle.totem_evs.specs.Answers.{FindsIn};
ghost use Rattle.totem_evs.specs.AgreementFaults.{IsNotInstalled};
ghost use Rattle.totem_evs.specs.Events.{log_of};
ghost use Rattle.totem_search.specs.Following.{NeverChangesTo};
ghost use Rattle.totem_plain.specs.Bad.{IsUninstalled};

use crate::all_logs::{MemberTest, log_of, misses_safe};
use crate::one_log::never_changes_to;
use std::alloc::Global;
use totem_evs::{Entry, Run, SpecNo};
use totem_names::{ConfId, Proc, RingId};
use totem_search::{FoundPlaces, Test, bad_places};

/// The processes that never change to the configuration.
#[derive(Clone, Copy)]
struct Uninstalled<'r> {
    run: &'r Run,
    conf: &'r ConfId,
}

impl MemberTest for Uninstalled<'_> {
    ghost holds = { λ t q. NeverChangesTo (log_of t.run.now.logs q) t.conf.now };

    fn test(&self, proc: Proc) -> bool {
        never_changes_to(log_of(self.run, proc), self.conf)
    }
}

/// Returns whether the entry delivers a safe message in the regular configuration, to which some member never changes.
fn is_uninstalled(run: &Run, ring: &RingId, entry: &Entry) -> bool
    ensures { IsTrue result ↔ IsUninstalled run.now.logs ring.now entry.now }
{
    let regular = ConfId::Regular(*ring);
    match entry {
        Entry::Deliver(message, conf) => {
            conf.is(&regular) && misses_safe(&Uninstalled { run, conf }, run, message, conf)
        }
        _ => false,
    }
}

#[derive(Clone, Copy)]
struct NotInstalled<'r> {
    run: &'r Run,
    ring: &'r RingId,
}

impl Test for NotInstalled<'_> {
    ghost of = { λ t. t.run.now.logs };

    ghost bad = { λ t. IsNotInstalled t.run.now.logs t.ring.now };

    fn run(&self) -> &Run {
        self.run
    }

    fn is_bad(&self, _proc: Proc, log: &[Entry], at: usize) -> bool {
        is_uninstalled(self.run, self.ring, &log[at])
    }
}

/// Returns the least event that breaks 7.2 in a regular configuration.
pub fn find(alloc: Global, run: &Run, ring: &RingId) -> FoundPlaces
    ensures { IfOk result (FindsIn run.now.logs ring.now SpecNo.Installed) }
{
    bad_places(&NotInstalled { run, ring }, alloc)
}
