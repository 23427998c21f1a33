//! The changes to regular configurations: the rings, and where each process changes to each.
ghost use Rattle.std.specs.Prelude.{◌≡◌, ◌<◌, ◌≤◌, List, length};

use crate::stays::{Stays, sends_of, stay_from};
use std::alloc::{AllocError, Global};
use std::collections::{BTreeMap, BTreeSet};
use totem_evs::{Entry, Run};
use totem_names::{ConfId, Proc, RingId};
use totem_table::{Change, ChangeRegister, Changes, enter_changes};

/// The rings of the regular configurations, and the index at which each process changes to each of them.
#[derive(Drop)]
pub struct Comings {
    pub rings: BTreeSet<RingId>,
    pub indices: BTreeMap<Change, usize>,
}

impl ChangeRegister for Comings {
    ghost use Rattle.totem_pass_d.specs.Comings.{AreComings, KnowsComing};

    ghost sound = { λ s. AreComings ⟦<RingId as Ord>⟧.cmp ⟦<Change as Ord>⟧.cmp s.rings s.indices };

    ghost knows = { λ s. KnowsComing ⟦<RingId as Ord>⟧.cmp ⟦<Change as Ord>⟧.cmp s.rings s.indices };

    #[tactic(auto, using(crate::proofs::Coming::spares_coming))]
    fn spares(&self) {}

    fn enter_change(
        &mut self,
        _alloc: Global,
        proc: Proc,
        log: &[Entry],
        at: usize,
        _next: usize,
    ) -> Result<(), AllocError> {
        let Entry::Conf(conf, _) = &log[at] else {
            return Ok(());
        };
        let ConfId::Regular(ring) = conf else {
            return Ok(());
        };
        let conf = ConfId::Regular(*ring);
        self.rings.insert(*ring)?;
        self.indices.insert(Change { proc, conf }, at)?;
        Ok(())
    }
}

impl Comings {
    ghost use Rattle.std.specs.Prelude.{◌≡◌, ◌+◌, ◌<◌, ◌≤◌, IfOk, List, length};
    ghost use Rattle.std.specs.BTreeSet as sorted;
    ghost use Rattle.totem_evs.specs.Answers.{AreRings, MeetsPasses};
    ghost use Rattle.totem_table.specs.Changes.{AreChanges};
    ghost use Rattle.totem_pass_d.specs.KnownStays.{AreKnown};
    ghost use Rattle.totem_pass_d.specs.Comings.{HoldsComings};

    /// Collects the changes of a run to regular configurations, in n log n steps for n changes.
    pub fn build(alloc: Global, run: &Run, changes: &Changes) -> Result<Comings, AllocError>
        requires { AreChanges run.now.logs changes.now.rows.items }
        ensures { IfOk result (λ comings. HoldsComings ⟦<RingId as Ord>⟧.cmp ⟦<Change as Ord>⟧.cmp comings.rings comings.indices run.now.logs) }
    {
        let mut comings = Comings {
            rings: BTreeSet::new(alloc),
            indices: BTreeMap::new(alloc),
        };
        enter_changes(&mut comings, alloc, run, changes)?;
        Ok(comings)
    }

    /// Returns the rings, by number and then by representative.
    pub fn rings(&self, alloc: Global) -> Result<Vec<RingId>, AllocError>
        ensures keys { IfOk result (λ list. list.items ≡ self.now.rings.keys) }
        ensures ordered { IfOk result (λ list. sorted.IsOrdered ⟦<RingId as Ord>⟧.cmp self.now.rings) }
    {
        let mut list = Vec::new(alloc);
        for ring in &self.rings {
            list.push(*ring)?;
        }
        Ok(list)
    }

    /// Returns the stays in the regular configuration of this ring, log by log, and what they send.
    pub fn stays<'r>(
        &self,
        alloc: Global,
        run: &'r Run,
        ring: RingId,
    ) -> Result<Stays<'r>, AllocError>
        requires comings { HoldsComings ⟦<RingId as Ord>⟧.cmp ⟦<Change as Ord>⟧.cmp self.now.rings self.now.indices run.now.logs }
        requires meets { MeetsPasses run.now.logs }
        ensures known { IfOk result AreKnown }
        ensures logs { IfOk result (λ stays. stays.run.now.logs ≡ run.now.logs) }
        ensures ring { IfOk result (λ stays. stays.ring ≡ ring) }
    {
        let mut list = Vec::new(alloc);
        for log in run.logs.as_slice() {
            let proc = log.proc;
            let conf = ConfId::Regular(ring);
            if let Some(from) = self.indices.get(&Change { proc, conf }) {
                list.push(stay_from(alloc, log, *from)?)?;
            }
        }
        let sends = sends_of(alloc, &list)?;
        Ok(Stays {
            run,
            ring,
            list,
            sends,
        })
    }
}
