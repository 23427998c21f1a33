//! 2.3: which change breaks it alone, and which two break it together (docs/SPECIFICATIONS.md, "2 Changes of configuration").
ghost use Rattle.std.specs.Prelude.{◌↔◌, ℕ, List, IsTrue, IfOk};
ghost use Rattle.totem_evs.specs.Answers.{Finds};
ghost use Rattle.totem_search.specs.Bad.{IsForeignChange, AreTwoForms};

use crate::pairs::{OneOrTwoTest, Standing, least_pair};
use crate::quick::QuickTests;
use crate::search::FoundPlaces;
use std::alloc::Global;
use totem_evs::{Entry, Run, SpecNo};

/// Returns whether the entry is a change to a configuration of which the process is not a member.
fn is_foreign_change(first: &Standing) -> bool
    ensures { IsTrue result ↔ IsForeignChange first.now.proc first.now.at first.now.entry.now }
{
    match first.entry {
        Entry::Conf(_, members) => !members.contains(first.proc),
        _ => false,
    }
}

/// Returns whether the entries are two changes to one configuration, in one log or with different members.
fn are_two_forms(first: &Standing, second: &Standing) -> bool
    ensures { IsTrue result ↔ AreTwoForms first.now.proc first.now.at first.now.entry.now second.now.proc second.now.at second.now.entry.now }
{
    match (first.entry, second.entry) {
        (Entry::Conf(conf, members), Entry::Conf(other, others)) => {
            let again = first.proc == second.proc && first.at != second.at;
            conf.is(other) && (again || !members.is(others))
        }
        _ => false,
    }
}

/// Looks for one such entry, or two.
#[derive(Clone, Copy)]
struct TwoForms<'q, Q> {
    quick: &'q Q,
}

impl<Q: QuickTests> OneOrTwoTest for TwoForms<'_, Q> {
    ghost of = { λ t. Q.of t.quick.now };

    ghost alone = { λ t. IsForeignChange };

    ghost pair = { λ t. AreTwoForms };

    fn run(&self) -> &Run {
        self.quick.run()
    }

    fn is_alone(&self, first: &Standing) -> bool {
        is_foreign_change(first)
    }

    fn is_pair(&self, first: &Standing, second: &Standing) -> bool {
        are_two_forms(first, second)
    }

    fn may_pair(&self, first: &Standing) -> bool {
        self.quick.may_have_two_forms(first)
    }
}

/// Returns the least events that break 2.3.
pub fn find_two_forms<Q: QuickTests>(quick: &Q, alloc: Global) -> FoundPlaces
    ensures { IfOk result (Finds (Q.of quick.now) SpecNo.Configuration) }
{
    least_pair(&TwoForms { quick }, alloc)
}
