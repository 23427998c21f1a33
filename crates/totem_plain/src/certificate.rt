//! The three tests of a certificate that look at pairs of entries (docs/SPECIFICATIONS.md, "The checker").
ghost use Rattle.std.specs.Prelude.{◌↔◌, IsTrue};
ghost use Rattle.totem_evs.specs.Classes.{AreSendAndDelivery};
ghost use Rattle.totem_outcome.specs.Kinds.{SendIsBelow, SendIsNotBelow, ClassIsOne, ClassIsSplit, NumberIsOwn, NumberIsShared};

use crate::numbered::{Numbered, PairTest};
use totem_evs::Entry;

fn are_send_and_delivery(first: &Entry, second: &Entry) -> bool
    ensures { IsTrue result ↔ AreSendAndDelivery first.now second.now }
{
    match (first, second) {
        (Entry::Send(message, _, _), Entry::Deliver(other, _)) => *message == *other,
        _ => false,
    }
}

/// A send that is not numbered below a delivery of its message.
#[derive(Clone, Copy)]
pub struct LateSend;

impl PairTest for LateSend {
    ghost good = { SendIsBelow };

    ghost bad = { SendIsNotBelow };

    fn is_bad(&self, first: &Numbered, second: &Numbered) -> bool {
        are_send_and_delivery(first.entry, second.entry) && first.number >= second.number
    }
}

/// Two entries of one class that have different numbers.
#[derive(Clone, Copy)]
pub struct SplitClass;

impl PairTest for SplitClass {
    ghost good = { ClassIsOne };

    ghost bad = { ClassIsSplit };

    fn is_bad(&self, first: &Numbered, second: &Numbered) -> bool {
        first.entry.is_of_class_of(second.entry) && first.number != second.number
    }
}

/// Two entries that share a number and are not of one class.
#[derive(Clone, Copy)]
pub struct SharedNumber;

impl PairTest for SharedNumber {
    ghost good = { NumberIsOwn };

    ghost bad = { NumberIsShared };

    fn is_bad(&self, first: &Numbered, second: &Numbered) -> bool {
        let is_other = first.proc.rank() != second.proc.rank() || first.at != second.at;
        first.number == second.number && is_other && !first.entry.is_of_class_of(second.entry)
    }
}
