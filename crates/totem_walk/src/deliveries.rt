//! Where a process delivers the messages of a regular configuration: in it or in what follows it.
ghost use Rattle.std.specs.Prelude.{◌≡◌, ◌+◌, ◌<◌, ◌^◌, IfOk, OnOk, length};
ghost use Rattle.totem_walk.specs.Deliveries.{index_in, IsFollowedBy, AreDeliveriesBefore, AreDeliveries};

use crate::acts::delivered_in;
use crate::reading::read;
use std::alloc::{AllocError, Global};
use std::collections::BTreeMap;
use totem_evs::Entry;
use totem_names::{ConfId, MsgId, RingId};

/// The index of the delivery of each message.
#[derive(Drop)]
pub struct Deliveries {
    pub indices: BTreeMap<MsgId, usize>,
}

impl Deliveries {
    /// Finds the deliveries of a log in the regular configuration of this ring and in what follows it, if any. Each entry is
    /// read once.
    pub fn build(
        alloc: Global,
        log: &[Entry],
        ring: RingId,
        follower: &Option<ConfId>,
        looks: &mut u64,
    ) -> Result<Deliveries, AllocError>
        requires follower { IsFollowedBy log.now ring follower.now }
        requires room { looks.old + length log.now < 2 ^ 64 }
        ensures are { IfOk result (λ deliveries. AreDeliveries deliveries log.now ring) }
        ensures counted { OnOk result (looks.new ≡ looks.old + length log.now) }
    {
        let mut deliveries = Deliveries {
            indices: BTreeMap::new(alloc),
        };
        for at in 0..log.len() {
            deliveries.enter(log, at, ring, follower, looks)?;
        }
        Ok(deliveries)
    }

    /// Enters the entry at this index, after all entries before it. If memory is refused, the deliveries can't be used any more.
    fn enter(
        &mut self,
        log: &[Entry],
        at: usize,
        ring: RingId,
        follower: &Option<ConfId>,
        looks: &mut u64,
    ) -> Result<(), AllocError>
        requires within { at < length log.now }
        requires room { looks.old + 1 < 2 ^ 64 }
        requires follower { IsFollowedBy log.now ring follower.now }
        requires before { AreDeliveriesBefore self.old log.now ring at }
        ensures entered { OnOk result (AreDeliveriesBefore self.new log.now ring (at + 1)) }
        ensures counted { OnOk result (looks.new ≡ looks.old + 1) }
    {
        let entry = read(log, at, looks);
        let conf = ConfId::Regular(ring);
        let Some(message) = delivered_in(entry, &conf, follower) else {
            return Ok(());
        };
        self.indices.insert(message, at)?;
        Ok(())
    }

    /// Returns the index at which the message is delivered, or `None` if it is not delivered.
    pub fn index_of(&self, message: &MsgId) -> Option<usize>
        ensures { result ≡ index_in self.now message.now }
    {
        self.indices.get(message).copied()
    }
}
