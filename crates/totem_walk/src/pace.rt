//! How a receiver keeps up with what a sender sent and delivered so far.
ghost use Rattle.std.specs.Prelude.{◌≡◌};
ghost use Rattle.std.specs.Bool.{OnTrue, OnFalse};
ghost use Rattle.totem_walk.specs.Pace.{IsEarly, IsInTime, pace_with, ComesEarly, ComesInTime, GoesOn};

use crate::acts::{handled_in, sent_in};
use crate::deliveries::Deliveries;
use totem_evs::Entry;
use totem_names::ConfId;

/// After which index the receiver may deliver what the sender sends next: it has to deliver all that the sender handled so far first.
#[derive(Clone, Copy)]
pub enum Pace {
    /// Any index: the sender has handled nothing yet.
    Anywhere,
    /// After this index, at which the receiver delivers the last of what the sender handled.
    Behind(usize),
    /// No index: the receiver does not deliver all of it.
    Nowhere,
}

impl Pace {
    /// Returns whether this index is too early for the delivery.
    fn is_early(&self, index: usize) -> bool
        ensures early { OnTrue result (IsEarly self.now index) }
        ensures in_time { OnFalse result (IsInTime self.now index) }
    {
        match self {
            Pace::Anywhere => false,
            Pace::Behind(last) => index <= *last,
            Pace::Nowhere => true,
        }
    }

    /// Returns the pace after the sender has handled one more message. `delivered` is where the receiver delivers it, if at all.
    fn with(&self, delivered: Option<usize>) -> Pace
        ensures { result ≡ pace_with self.now delivered }
    {
        let Some(index) = delivered else {
            return Pace::Nowhere;
        };
        match self {
            Pace::Anywhere => Pace::Behind(index),
            Pace::Behind(last) => Pace::Behind((*last).max(index)),
            Pace::Nowhere => Pace::Nowhere,
        }
    }

    /// Returns whether the sender's next entry sends a message in this configuration that the receiver delivers too early.
    pub fn is_broken_by(&self, deliveries: &Deliveries, conf: &ConfId, entry: &Entry) -> bool
        ensures early { OnTrue result (ComesEarly deliveries.now conf.now self.now entry.now) }
        ensures in_time { OnFalse result (ComesInTime deliveries.now conf.now self.now entry.now) }
    {
        let Some(message) = sent_in(entry, conf) else {
            return false;
        };
        match deliveries.index_of(&message) {
            Some(index) => self.is_early(index),
            None => false,
        }
    }

    /// Returns the pace after the sender's next entry.
    pub fn behind(&self, deliveries: &Deliveries, conf: &ConfId, entry: &Entry) -> Pace
        ensures { GoesOn deliveries.now conf.now entry.now self.now result }
    {
        match handled_in(entry, conf) {
            Some(message) => self.with(deliveries.index_of(&message)),
            None => *self,
        }
    }
}
