//! The classes that a walk has passed.
ghost use Rattle.std.specs.Prelude.{◌↔◌, IsTrue, MatchBool, IfOk, OnOk};
ghost use Rattle.totem_judge_certificate.specs.PassedClasses.{HasDelivery, HasNone, Adds, AddsDelivery, IsNew, IsOld};

use crate::ascending::Ascending;
use std::alloc::{AllocError, Global};
use std::collections::BTreeSet;
use totem_evs::Entry;
use totem_names::{ConfId, MsgId};

/// The classes that were passed.
#[derive(Drop)]
pub struct Passed {
    /// The configurations of the changes.
    changes: BTreeSet<ConfId>,
    /// The messages that were delivered in ascending order: nearly all, where the network did not partition.
    ascending: Ascending,
    /// Of the other messages, those that were delivered in ascending order: nearly all, where it did.
    late: Ascending,
    /// All further messages that were delivered.
    others: BTreeSet<MsgId>,
}

impl Passed {
    /// Returns the classes before the first number.
    pub fn none(alloc: Global) -> Passed
        ensures { HasNone result }
    {
        Passed {
            changes: BTreeSet::new(alloc),
            ascending: Ascending::none(alloc),
            late: Ascending::none(alloc),
            others: BTreeSet::new(alloc),
        }
    }

    fn has_delivery(&self, message: &MsgId) -> bool
        ensures { IsTrue result ↔ HasDelivery self.now message.now }
    {
        self.ascending.contains(message)
            || self.late.contains(message)
            || self.others.contains(message)
    }

    fn add_delivery(&mut self, message: &MsgId) -> Result<(), AllocError>
        ensures { OnOk result (AddsDelivery self.old self.new message.now) }
    {
        if self.ascending.is_next(message) {
            self.ascending.push(message)?;
        } else if self.late.is_next(message) {
            self.late.push(message)?;
        } else {
            self.others.insert(*message)?;
        }
        Ok(())
    }

    /// Notes the class of the next entry. Returns whether the entry may be next: its class was not passed before, and if it is a
    /// send, the deliveries of its message were not.
    pub fn note(&mut self, entry: &Entry) -> Result<bool, AllocError>
        ensures new { IfOk result (λ new. MatchBool new (IsNew self.old entry.now) (IsOld self.old entry.now)) }
        ensures added { OnOk result (Adds self.old self.new entry.now) }
    {
        match entry {
            Entry::Conf(conf, _) => Ok(self.changes.insert(*conf)?),
            Entry::Send(message, _, _) => Ok(!self.has_delivery(message)),
            Entry::Deliver(message, _) => {
                let is_new = !self.has_delivery(message);
                if is_new {
                    self.add_delivery(message)?;
                }
                Ok(is_new)
            }
            Entry::Fail(_) => Ok(true),
        }
    }
}
