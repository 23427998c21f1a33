//! The faults of a run, pass by pass, and in each pass specification by specification (docs/SPECIFICATIONS.md, "Passes").
ghost use Rattle.std.specs.Prelude.{◌≡◌, IfOk};
ghost use Rattle.totem_evs.specs.Answers.{FindsIn, Lists, ListsRings, ListsConfigurations, AreRings, pass_a, pass_b};
ghost use Rattle.totem_plain.specs.Found.{IsOfPassD};
ghost use Rattle.totem_plain.specs.Gathered.{GivesRing, ring_of};

use crate::gathered::{Gathered, all_given};
use crate::{
    atomicity_4, causality_5, ends_2_1, gap_6_3, installed_7_2, misplaced_2_2, own_3, safety_7_1,
};
use std::alloc::{AllocError, Global};
use totem_evs::{Entry, Fault, Run, SpecNo};
use totem_names::{ConfId, Proc, RingId};
use totem_search::{
    FoundPlaces, find_turns, find_twice, find_two_forms, find_unsent, joined, with_found,
};

/// Pass A: 1.4, 2.1, 2.2, 2.3 and 2.4.
pub fn pass_a(alloc: Global, run: &Run) -> Result<Vec<Fault>, AllocError>
    ensures { IfOk result (λ faults. Lists run.now.logs pass_a faults.items) }
{
    let twice = find_twice(run, alloc)?;
    let faults = with_found(Vec::new(alloc), SpecNo::Twice, twice)?;
    let faults = with_found(faults, SpecNo::End, ends_2_1::find(alloc, run)?)?;
    let faults = with_found(faults, SpecNo::Misplaced, misplaced_2_2::find(alloc, run)?)?;
    let configuration = find_two_forms(run, alloc)?;
    let faults = with_found(faults, SpecNo::Configuration, configuration)?;
    with_found(faults, SpecNo::Turns, find_turns(run, alloc)?)
}

/// Pass B: 1.3.
pub fn pass_b(alloc: Global, run: &Run) -> Result<Vec<Fault>, AllocError>
    ensures { IfOk result (λ faults. Lists run.now.logs pass_b faults.items) }
{
    let unsent = find_unsent(run, alloc)?;
    with_found(Vec::new(alloc), SpecNo::Unsent, unsent)
}

/// Returns the ring of the regular configuration to which an entry changes.
fn ring_of(entry: &Entry) -> Option<RingId>
    ensures { result ≡ ring_of entry.now }
{
    match entry {
        Entry::Conf(ConfId::Regular(ring), _) => Some(*ring),
        _ => None,
    }
}

impl Gathered for RingId {
    ghost gives = { λ run p. GivesRing };

    fn add(
        list: &mut Vec<RingId>,
        _run: &Run,
        _proc: Proc,
        entry: &Entry,
    ) -> Result<(), AllocError> {
        if let Some(ring) = ring_of(entry) {
            list.push(ring)?;
        }
        Ok(())
    }
}

/// Returns the rings of all regular configurations, in ascending order.
fn rings_of(alloc: Global, run: &Run) -> Result<Vec<RingId>, AllocError>
    ensures { IfOk result (λ rings. AreRings run.now.logs rings.items) }
{
    all_given(alloc, run)
}

/// Returns the least events that break a specification of pass D in a regular configuration.
fn find_in(alloc: Global, run: &Run, spec: SpecNo, ring: &RingId) -> FoundPlaces
    requires { IsOfPassD spec }
    ensures { IfOk result (FindsIn run.now.logs ring.now spec) }
{
    match spec {
        SpecNo::OwnDelivery => own_3::find(alloc, run, ring),
        SpecNo::Atomicity => atomicity_4::find(alloc, run, ring),
        SpecNo::Causality => causality_5::find(alloc, run, ring),
        SpecNo::Gap => gap_6_3::find(alloc, run, ring),
        SpecNo::Safety => safety_7_1::find(alloc, run, ring),
        // Of pass D only 7.2 is left.
        _ => installed_7_2::find(alloc, run, ring),
    }
}

/// Returns the faults of one specification, configuration by configuration.
fn faults_of(
    alloc: Global,
    run: &Run,
    rings: &[RingId],
    spec: SpecNo,
) -> Result<Vec<Fault>, AllocError>
    requires { IsOfPassD spec }
    ensures { IfOk result (λ faults. ListsRings run.now.logs spec rings.now faults.items) }
{
    let mut faults = Vec::new(alloc);
    for index in 0..rings.len() {
        let found = find_in(alloc, run, spec, &rings[index])?;
        faults = with_found(faults, spec, found)?;
    }
    Ok(faults)
}

/// Pass D: 3, 4, 5, 6.3, 7.1 and 7.2, each in each regular configuration.
pub fn pass_d(alloc: Global, run: &Run) -> Result<Vec<Fault>, AllocError>
    ensures { IfOk result (λ faults. ListsConfigurations run.now.logs faults.items) }
{
    let rings = rings_of(alloc, run)?;
    let own = faults_of(alloc, run, &rings, SpecNo::OwnDelivery)?;
    let two = joined(own, faults_of(alloc, run, &rings, SpecNo::Atomicity)?)?;
    let three = joined(two, faults_of(alloc, run, &rings, SpecNo::Causality)?)?;
    let four = joined(three, faults_of(alloc, run, &rings, SpecNo::Gap)?)?;
    let five = joined(four, faults_of(alloc, run, &rings, SpecNo::Safety)?)?;
    joined(five, faults_of(alloc, run, &rings, SpecNo::Installed)?)
}
