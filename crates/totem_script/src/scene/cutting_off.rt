//! `cut`: groups between which no packet passes.
ghost use Rattle.std.specs.Prelude.{◌≡◌, ◌==◌, count_by, IfOk};
ghost use Rattle.std.specs.List.{concat, list_all};
ghost use Rattle.totem_names.specs.Ranks.{id_of};
ghost use Rattle.totem_script.specs.Judged.{Becomes};
ghost use Rattle.totem_script.specs.Scenes.{parted};

use crate::actor::ActorState;
use crate::groups::Groups;
use crate::process_list::ProcessList;
use crate::scene::SceneState;
use crate::script_fault::ScriptFault;
use std::alloc::{AllocError, Global};
use totem_names::ProcId;

/// Returns all processes of these groups, each as often as it is listed.
fn all_of(alloc: Global, groups: &[ProcessList]) -> Result<Vec<ProcId>, AllocError>
    ensures { IfOk result (λ procs. procs.items ≡ concat groups.now) }
{
    let mut procs = Vec::new(alloc);
    for group in groups {
        procs.extend_from_slice(group.as_slice())?;
    }
    Ok(procs)
}

/// Returns how often a process is listed.
fn times_of(procs: &[ProcId], proc: ProcId) -> usize
    ensures { result ≡ count_by (λ q. q == proc) procs.now }
{
    procs.iter().filter(|other| **other == proc).count()
}

/// Returns whether each process of the script is listed once.
fn each_once(procs: &[ProcId], actors: &[ActorState]) -> bool
    ensures { result ≡ list_all (λ a. count_by (λ q. q == id_of a.proc) procs.now == 1) actors.now }
{
    actors.iter().all(|actor| times_of(procs, actor.id()) == 1)
}

impl SceneState {
    /// Begins a cut: from now on no packet passes between these groups.
    pub(super) fn part(&mut self, alloc: Global, groups: Groups) -> Result<(), ScriptFault>
        ensures { Becomes result self.new (parted self.old groups) }
    {
        let procs = all_of(alloc, groups.as_slice())?;
        let actors = self.actors.as_slice();
        if procs.len() != actors.len() || !each_once(&procs, actors) {
            return Err(ScriptFault::Members);
        }
        self.cut = Some(groups);
        Ok(())
    }
}
