//! 1.4: which entry breaks it alone, and which two break it together (docs/SPECIFICATIONS.md, "1 Basic delivery").
ghost use Rattle.std.specs.Prelude.{◌↔◌, ℕ, List, IsTrue, IfOk};
ghost use Rattle.totem_evs.specs.Answers.{Finds};
ghost use Rattle.totem_search.specs.Bad.{IsSendBetween, AreTwice};

use crate::neighbours::is_transitional;
use crate::pairs::{OneOrTwoTest, Standing, least_pair};
use crate::quick::QuickTests;
use crate::search::FoundPlaces;
use std::alloc::Global;
use totem_evs::{Entry, Run, SpecNo};

/// Returns whether the entry is a send in a transitional configuration.
fn is_send_between(first: &Standing) -> bool
    ensures { IsTrue result ↔ IsSendBetween first.now.proc first.now.at first.now.entry.now }
{
    match first.entry {
        Entry::Send(_, conf, _) => is_transitional(conf),
        _ => false,
    }
}

/// Returns whether the entries are two sends of one message, or two deliveries of one message in one log.
fn are_twice(first: &Standing, second: &Standing) -> bool
    ensures { IsTrue result ↔ AreTwice first.now.proc first.now.at first.now.entry.now second.now.proc second.now.at second.now.entry.now }
{
    match (first.entry, second.entry) {
        (Entry::Send(message, _, _), Entry::Send(other, _, _)) => {
            *message == *other && (first.proc != second.proc || first.at != second.at)
        }
        (Entry::Deliver(message, _), Entry::Deliver(other, _)) => {
            *message == *other && first.proc == second.proc && first.at != second.at
        }
        _ => false,
    }
}

/// Looks for one such entry, or two.
#[derive(Clone, Copy)]
struct Twice<'q, Q> {
    quick: &'q Q,
}

impl<Q: QuickTests> OneOrTwoTest for Twice<'_, Q> {
    ghost of = { λ t. Q.of t.quick.now };

    ghost alone = { λ t. IsSendBetween };

    ghost pair = { λ t. AreTwice };

    fn run(&self) -> &Run {
        self.quick.run()
    }

    fn is_alone(&self, first: &Standing) -> bool {
        is_send_between(first)
    }

    fn is_pair(&self, first: &Standing, second: &Standing) -> bool {
        are_twice(first, second)
    }

    fn may_pair(&self, first: &Standing) -> bool {
        self.quick.may_be_twice(first)
    }
}

/// Returns the least events that break 1.4.
pub fn find_twice<Q: QuickTests>(quick: &Q, alloc: Global) -> FoundPlaces
    ensures { IfOk result (Finds (Q.of quick.now) SpecNo.Twice) }
{
    least_pair(&Twice { quick }, alloc)
}
