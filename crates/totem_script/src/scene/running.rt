//! `run`: packets go to their receivers.
ghost use Rattle.totem_script.specs.Judged.{Becomes};
ghost use Rattle.totem_script.specs.Scenes.{run_times};

use crate::scene::SceneState;
use crate::script_fault::ScriptFault;
use std::alloc::Global;
use totem_core::Input;

impl SceneState {
    /// Gives the first packet to its receiver, this many times while there is one.
    pub(super) fn run(&mut self, alloc: Global, times: u32) -> Result<(), ScriptFault>
        ensures { Becomes result self.new (run_times times self.old) }
    {
        let mut left = times;
        while left > 0 {
            let Some(first) = self.queue.pop_front() else {
                return Ok(());
            };
            self.step(alloc, first.0, Input::Packet(first.1))?;
            left -= 1;
        }
        Ok(())
    }
}
