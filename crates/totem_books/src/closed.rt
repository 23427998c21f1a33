//! A book that takes no more calls.
ghost use Rattle.std.specs.Prelude.{◌≡◌};
ghost use Rattle.totem_books.specs.Replay.{IsRecorded};
ghost use Rattle.totem_evs.specs.Members.{IsMembers};

use crate::call::Call;
use std::marker::Model;
use totem_evs::{Entry, Members};
use totem_names::{Proc, RingId};

/// A book that takes no more calls. Its log and the stored replies are the replay of the stored inputs.
#[derive(Debug, Drop)]
pub struct ClosedBook {
    pub(crate) me: Proc,
    pub(crate) ring: RingId,
    pub(crate) members: Members,
    pub(crate) calls: Vec<Call>,
    pub(crate) log: Vec<Entry>,
}

impl Model for ClosedBook {
    ghost use Rattle.totem_books.specs.History.{start_with};
    ghost use Rattle.totem_books.specs.Replay.{IsRecorded};
    ghost use Rattle.totem_books.specs.Seats.{Closed};

    ghost Value = { Closed };

    ghost view = { λ b. record { start = start_with b.me b.ring b.members; calls = b.calls.items; log = b.log.items } };

    ghost invariant = { λ b. IsRecorded (start_with b.me b.ring b.members) b.calls.items b.log.items };
}

impl ClosedBook {
    /// Returns the node whose book it is.
    pub fn me(&self) -> Proc
        ensures { result ≡ self.now.start.me }
    {
        self.me
    }

    /// Returns the ring on which the node began.
    pub fn ring(&self) -> RingId
        ensures { result ≡ self.now.start.ring }
    {
        self.ring
    }

    /// Returns the members of that ring.
    pub fn members(&self) -> &[Proc]
        ensures value { result.now ≡ self.now.start.members }
        ensures members { IsMembers self.now.start.members }
    {
        self.members.as_slice()
    }

    pub fn calls(&self) -> &[Call]
        ensures { result.now ≡ self.now.calls }
    {
        self.calls.as_slice()
    }

    /// Returns the entries of the log: the first change, and then those that the calls wrote.
    pub fn log(&self) -> &[Entry]
        ensures value { result.now ≡ self.now.log }
        ensures replay { IsRecorded self.now.start self.now.calls self.now.log }
    {
        self.log.as_slice()
    }
}
