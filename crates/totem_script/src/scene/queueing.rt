//! `drop` and `repeat`: packets on their way.
ghost use Rattle.std.specs.Prelude.{◌-◌, slice_get};
ghost use Rattle.totem_script.specs.Judged.{Becomes};
ghost use Rattle.totem_script.specs.Scenes.{dropped, once_more};

use crate::scene::SceneState;
use crate::script_fault::ScriptFault;
use std::alloc::Global;

impl SceneState {
    /// Removes the packet at this place, counted from 1. `Place` if there is none.
    pub(super) fn lose(&mut self, place: u32) -> Result<(), ScriptFault>
        ensures { Becomes result self.new (dropped self.old place) }
    {
        let index = place.saturating_sub(1) as usize;
        match self.queue.remove(index) {
            Some(_) => Ok(()),
            None => Err(ScriptFault::Place),
        }
    }

    /// Adds a copy of the packet at this place, counted from 1, after the others. `Place` if there is none.
    pub(super) fn repeat(&mut self, alloc: Global, place: u32) -> Result<(), ScriptFault>
        ensures { Becomes result self.new (once_more self.old (slice_get self.old.queue (place - 1))) }
    {
        let index = place.saturating_sub(1) as usize;
        let Some((to, packet)) = self.queue.get(index) else {
            return Err(ScriptFault::Place);
        };
        let again = (*to, packet.try_clone(alloc)?);
        self.queue.push_back(again)?;
        Ok(())
    }
}
