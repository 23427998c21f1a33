//! Processes and their lives: a ring knows its members by identifier, a configuration knows the lives that they are in.
ghost use Rattle.std.specs.Prelude.{◌≡◌, IfOk};
ghost use Rattle.std.specs.Arc.{arc_value};
ghost use Rattle.totem_recover.specs.Lives.{first_ranks, ids_of, IsRingMembers};

use std::alloc::{AllocError, Global};
use std::sync::Arc;
use totem_evs::Members;
use totem_names::{Proc, ProcId};

/// Returns the first lives of these identifiers.
pub(crate) fn first_lives(alloc: Global, ids: &[ProcId]) -> Result<Vec<Proc>, AllocError>
    ensures { IfOk result (λ lives. lives.items ≡ first_ranks ids.now) }
{
    let mut lives = Vec::with_capacity(alloc, ids.len())?;
    for id in ids {
        lives.push(Proc::first(*id))?;
    }
    Ok(lives)
}

/// Returns the identifiers of these processes.
pub fn ids_of(alloc: Global, procs: &[Proc]) -> Result<Vec<ProcId>, AllocError>
    ensures { IfOk result (λ ids. ids.items ≡ ids_of procs.now) }
{
    let mut ids = Vec::with_capacity(alloc, procs.len())?;
    for proc in procs {
        ids.push(proc.id())?;
    }
    Ok(ids)
}

/// Returns the members of a configuration in these lives. Their identifiers have to be those of a ring's members.
#[tactic(auto, using(crate::proofs::RingLives::none_refuses))]
pub fn members_with(lives: Arc<Vec<Proc>>) -> Members
    requires { IsRingMembers (ids_of (arc_value lives).items) }
    ensures { result ≡ (arc_value lives).items }
{
    match Members::new(lives) {
        Ok(members) => members,
        Err(_) => unreachable!(),
    }
}

/// Returns the members of a configuration in which each of these processes is in its first life.
#[tactic(auto, using(crate::proofs::RingLives::first_are_of))]
pub fn first_members(alloc: Global, ids: &[ProcId]) -> Result<Members, AllocError>
    requires { IsRingMembers ids.now }
    ensures { IfOk result (λ members. members ≡ first_ranks ids.now) }
{
    Ok(members_with(Arc::new(alloc, first_lives(alloc, ids)?)?))
}
