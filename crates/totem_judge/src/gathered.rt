//! What is gathered about a regular configuration, with what is needed to verify it.
ghost use Rattle.std.specs.Prelude.{◌<◌};

use std::alloc::{AllocError, Global};
use totem_judge_traffic::{Got, Sent};
use totem_names::{RingId, Service};

/// A stay: the log changes to the regular configuration at `from` and to what follows that at `turn`, and its entries up to
/// `end` are those in these two. If nothing follows, `turn` is `end`.
#[derive(Clone, Copy)]
pub struct Stay {
    /// The log, by index.
    pub log: u32,
    pub from: usize,
    pub turn: usize,
    pub end: usize,
    ghost in_range: { log < 32 },
}

/// How a message was sent, and whether it is delivered.
#[derive(Clone, Copy)]
pub struct Origin {
    pub service: Service,
    /// Its index in the list of what is delivered, or `None` if no process delivers it.
    pub got: Option<u32>,
}

/// What is gathered about a regular configuration and what follows it, in the order of the numbers of a certificate.
#[derive(Drop)]
pub struct Gathered {
    pub ring: RingId,
    /// The number of the changes to it.
    pub number: u32,
    /// The stays of logs in it.
    pub stays: Vec<Stay>,
    pub sent: Vec<Sent>,
    /// For each message sent, how it was sent.
    pub origins: Vec<Origin>,
    /// For each message sent, the number of the send.
    pub sent_numbers: Vec<u32>,
    pub got: Vec<Got>,
    /// For each message delivered, the number of its deliveries.
    pub got_numbers: Vec<u32>,
}

impl Origin {
    ghost use Rattle.std.specs.Prelude.{◌≡◌};
    ghost use Rattle.totem_judge.specs.Lists.{is_safe};

    /// Returns whether the message was sent as a safe one.
    pub fn is_safe(&self) -> bool
        ensures { result ≡ is_safe self.now.service }
    {
        matches!(self.service, Service::Safe)
    }
}

impl Gathered {
    ghost use Rattle.std.specs.Prelude.{◌≡◌, slice_get};

    /// Returns what is gathered at first, with room for this many stays and messages.
    pub fn new(
        alloc: Global,
        ring: RingId,
        number: u32,
        stays: usize,
        messages: usize,
    ) -> Result<Gathered, AllocError> {
        Ok(Gathered {
            ring,
            number,
            stays: Vec::with_capacity(alloc, stays)?,
            sent: Vec::with_capacity(alloc, messages)?,
            origins: Vec::with_capacity(alloc, messages)?,
            sent_numbers: Vec::with_capacity(alloc, messages)?,
            got: Vec::with_capacity(alloc, messages)?,
            got_numbers: Vec::with_capacity(alloc, messages)?,
        })
    }

    /// Returns the message at this index of those that were sent.
    pub fn sent_at(&self, index: usize) -> Option<Sent>
        ensures { result ≡ slice_get self.now.sent.items index }
    {
        self.sent.get(index).copied()
    }

    /// Returns how the message at this index was sent.
    pub fn origin_at(&self, index: usize) -> Option<Origin>
        ensures { result ≡ slice_get self.now.origins.items index }
    {
        self.origins.get(index).copied()
    }

    /// Returns the number of the send at this index.
    pub fn sent_number_at(&self, index: usize) -> Option<u32>
        ensures { result ≡ slice_get self.now.sent_numbers.items index }
    {
        self.sent_numbers.get(index).copied()
    }

    /// Returns the message at this index of those that are delivered.
    pub fn got_at(&self, index: usize) -> Option<Got>
        ensures { result ≡ slice_get self.now.got.items index }
    {
        self.got.get(index).copied()
    }

    /// Returns the number of the deliveries of the message at this index.
    pub fn got_number_at(&self, index: usize) -> Option<u32>
        ensures { result ≡ slice_get self.now.got_numbers.items index }
    {
        self.got_numbers.get(index).copied()
    }
}
