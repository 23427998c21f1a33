//! The tables of a run.
ghost use Rattle.std.specs.Prelude.{◌≡◌, IfOk};
ghost use Rattle.totem_stitch.specs.Stitched.{IsStitch, follower_of, origin_of};

use crate::table::Table;
use std::alloc::{AllocError, Global};
use std::collections::BTreeMap;
use totem_evs::Run;
use totem_names::{ConfId, Proc, RingId};

/// What follows the regular configurations in each log of a run (docs/SPECIFICATIONS.md, "Following").
#[derive(Drop)]
pub struct Stitch {
    tables: BTreeMap<Proc, Table>,
}

impl Stitch {
    /// Builds the tables of a run, in n log n steps. They take memory only for the changes to regular configurations.
    pub fn build(alloc: Global, run: &Run) -> Result<Stitch, AllocError>
        ensures { IfOk result (λ stitch. IsStitch stitch run.now.logs) }
    {
        let mut tables = BTreeMap::new(alloc);
        for log in run.logs.as_slice() {
            let table = Table::build(alloc, log.entries.as_slice())?;
            tables.insert(log.proc, table)?;
        }
        Ok(Stitch { tables })
    }

    /// Returns what follows the regular configuration of this ring in the log of this process: the configuration of the next change
    /// after the first change to it, if that is transitional. Takes no memory and reads no log.
    pub fn follow(&self, proc: Proc, ring: RingId) -> Option<ConfId>
        ensures { result ≡ follower_of self.now proc ring }
    {
        self.tables.get(&proc)?.follow(ring)
    }

    /// Returns the ring of the first regular configuration in the log of this process that this configuration follows, or `None` if it
    /// follows none. Takes no memory and reads no log.
    pub fn before(&self, proc: Proc, conf: ConfId) -> Option<RingId>
        ensures { result ≡ origin_of self.now proc conf }
    {
        self.tables.get(&proc)?.before(conf)
    }
}
