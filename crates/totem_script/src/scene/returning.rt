//! `return`: a process that has crashed begins its next life.
ghost use Rattle.totem_script.specs.Judged.{Becomes};
ghost use Rattle.totem_script.specs.Scenes.{brought_back};

use crate::scene::SceneState;
use crate::script_fault::ScriptFault;
use std::alloc::Global;
use totem_names::ProcId;

impl SceneState {
    /// Begins the next life of a process, and puts the first token of its ring on its way to it, whatever the cut.
    pub(super) fn bring_back(&mut self, alloc: Global, proc: ProcId) -> Result<(), ScriptFault>
        ensures { Becomes result self.new (brought_back self.old proc) }
    {
        let ring = self.actors.bring_back(alloc, proc)?;
        self.put_first_token(alloc, ring)?;
        Ok(())
    }
}
