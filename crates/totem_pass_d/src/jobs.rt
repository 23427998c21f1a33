//! The jobs of the last pass: one for each regular configuration of a run (docs/SPECIFICATIONS.md, "Passes").
ghost use Rattle.std.specs.Prelude.{◌≡◌, ◌<◌, IfOk, IfSome, vec_len};
ghost use Rattle.std.specs.Bool.{OnTrue};
ghost use Rattle.totem_evs.specs.Answers.{MeetsPasses};
ghost use Rattle.totem_judge_traffic.specs.Traffics.{AreTraffic, IsTrafficOf};
ghost use Rattle.totem_pass_d.specs.Findings.{AreMet};
ghost use Rattle.totem_pass_d.specs.Jobs.{AreJobs, AreFindingsAt};

use crate::comings::Comings;
use crate::findings::{Findings, findings_in};
use std::alloc::{AllocError, Global};
use std::collections::BTreeMap;
use totem_evs::Run;
use totem_judge_traffic::{Observed, Shown, Traffic};
use totem_names::RingId;
use totem_table::Changes;

/// The jobs of a run that has passed the passes before, in the order of their configurations. Each depends on no other part of the run
/// than its configuration and what follows it, so they can be done in any order and by any thread.
#[derive(Drop)]
pub struct Jobs<'r> {
    pub run: &'r Run,
    /// The configurations, by ring number and then by representative.
    pub rings: Vec<RingId>,
    pub comings: Comings,
    /// What was observed of configurations, in any order: of all of them, of some or of none.
    pub observed: Vec<Observed>,
    /// For each job the index of its configuration among those that were observed, as a guess.
    pub slots: Vec<usize>,
}

/// Returns for each of these rings the index of its configuration among those that were observed, or an index beyond them.
fn slots_of(
    alloc: Global,
    rings: &[RingId],
    observed: &[Observed],
) -> Result<Vec<usize>, AllocError> {
    let mut indices = BTreeMap::new(alloc);
    for (index, one) in observed.iter().enumerate() {
        indices.insert(one.ring, index)?;
    }
    let mut slots = Vec::with_capacity(alloc, rings.len())?;
    for ring in rings {
        slots.push(indices.get(ring).copied().unwrap_or(usize::MAX))?;
    }
    Ok(slots)
}

fn is_of(one: &Observed, ring: &RingId) -> bool
    ensures { OnTrue result (one.now.ring ≡ ring.now) }
{
    one.ring == *ring
}

impl<'r> Jobs<'r> {
    /// Lists the jobs of a run that meets the specifications of passes A and B, of which nothing was observed: each job searches.
    pub fn build(alloc: Global, run: &'r Run) -> Result<Jobs<'r>, AllocError>
        requires { MeetsPasses run.now.logs }
        ensures { IfOk result (AreJobs run.now.logs) }
    {
        Jobs::over(alloc, run, Vec::new(alloc))
    }

    /// Lists the jobs of a run as `build` does, where the traffic of configurations is known.
    pub fn over(
        alloc: Global,
        run: &'r Run,
        observed: Vec<Observed>,
    ) -> Result<Jobs<'r>, AllocError>
        requires meets { MeetsPasses run.now.logs }
        requires observed { AreTraffic run.now.logs observed.items }
        ensures { IfOk result (AreJobs run.now.logs) }
    {
        let changes = Changes::of(alloc, run)?;
        let comings = Comings::build(alloc, run, &changes)?;
        let rings = comings.rings(alloc)?;
        let slots = slots_of(alloc, &rings, &observed)?;
        Ok(Jobs {
            run,
            rings,
            comings,
            observed,
            slots,
        })
    }

    /// Returns the traffic that was observed of the configuration of this ring, for the job at this index.
    fn traffic(&self, index: usize, ring: &RingId) -> Option<&Traffic>
        requires { AreJobs self.now.run.now.logs self.now }
        ensures { IfSome result (λ traffic. IsTrafficOf self.now.run.now.logs ring.now traffic.now) }
    {
        let slot = *self.slots.get(index)?;
        let one = self.observed.get(slot)?;
        if !is_of(one, ring) {
            return None;
        }
        Some(&one.traffic)
    }

    /// Applies the rules to what was observed of the configuration of this ring, for the job at this index.
    #[tactic(auto, using(crate::proofs::Listing::nothing_met))]
    fn shown(&self, index: usize, ring: &RingId) -> Shown
        requires { AreJobs self.now.run.now.logs self.now }
        ensures { AreMet self.now.run.now.logs ring.now result }
    {
        match self.traffic(index, ring) {
            Some(traffic) => Shown::by(traffic),
            None => Shown::nothing(),
        }
    }

    /// Does the job at this index, counted from 0: what the traffic doesn't show to be met is searched for.
    pub fn findings(&self, alloc: Global, index: usize) -> Result<Findings, AllocError>
        requires jobs { AreJobs self.now.run.now.logs self.now }
        requires within { index < vec_len self.now.rings }
        ensures { IfOk result (AreFindingsAt self.now.run.now.logs self.now.rings.items index) }
    {
        let ring = self.rings[index];
        let shown = self.shown(index, &ring);
        if shown.is_all() {
            return Ok(Findings::none());
        }
        let stays = self.comings.stays(alloc, self.run, ring)?;
        findings_in(alloc, &stays, &shown)
    }
}
