//! The table of one log.
ghost use Rattle.std.specs.Prelude.{◌≡◌, ◌+◌, ◌<◌, OnOk, IfOk, length};
ghost use Rattle.totem_stitch.specs.Tables.{follower_in, origin_in};
ghost use Rattle.totem_stitch.specs.Building.{KnowsLog, IsTable};

use crate::changes::{moves_next, regular_at};
use std::alloc::{AllocError, Global};
use std::collections::BTreeMap;
use totem_evs::Entry;
use totem_names::{ConfId, RingId};

/// For each ring to whose regular configuration the log changes, the configuration that follows it, if any; and for each
/// configuration that follows a regular one, the ring of the first that it follows.
#[derive(Drop)]
pub struct Table {
    pub followers: BTreeMap<RingId, Option<ConfId>>,
    pub origins: BTreeMap<ConfId, RingId>,
}

impl Table {
    /// Builds the table of a log.
    pub fn build(alloc: Global, log: &[Entry]) -> Result<Table, AllocError>
        ensures { IfOk result (λ table. IsTable table log.now) }
    {
        let mut table = Table {
            followers: BTreeMap::new(alloc),
            origins: BTreeMap::new(alloc),
        };
        for at in 0..log.len() {
            table.enter(log, at)?;
        }
        Ok(table)
    }

    /// Enters the entry at this index, after all entries before it. If memory is refused, the table can't be used any more.
    fn enter(&mut self, log: &[Entry], at: usize) -> Result<(), AllocError>
        requires within { at < length log.now }
        requires before { KnowsLog self.old log.now at }
        ensures { OnOk result (KnowsLog self.new log.now (at + 1)) }
    {
        let Some(ring) = regular_at(log, at) else {
            return Ok(());
        };
        if self.followers.contains_key(&ring) {
            return Ok(());
        }
        let Some(conf) = moves_next(log, at) else {
            self.followers.insert(ring, None)?;
            return Ok(());
        };
        self.followers.insert(ring, Some(conf))?;
        if self.origins.contains_key(&conf) {
            return Ok(());
        }
        self.origins.insert(conf, ring)?;
        Ok(())
    }

    /// Returns what follows the regular configuration of this ring, or `None` if nothing does.
    pub fn follow(&self, ring: RingId) -> Option<ConfId>
        ensures { result ≡ follower_in self.now ring }
    {
        *self.followers.get(&ring)?
    }

    /// Returns the ring of the first regular configuration that this one follows, or `None` if it follows none.
    pub fn before(&self, conf: ConfId) -> Option<RingId>
        ensures { result ≡ origin_in self.now conf }
    {
        self.origins.get(&conf).copied()
    }
}
