//! The scene of a script: its processes, packets and cut while the script is played.
ghost use Rattle.std.specs.Prelude.{◌≡◌, length, nat_lt, slice_get};
ghost use Rattle.totem_script.specs.Casts.{is_known};
ghost use Rattle.totem_script.specs.Judged.{Becomes};
ghost use Rattle.totem_script.specs.Scenes.{empty_scene, scene_step, named_step, is_in_order, effect, carried_out};

use crate::cast::Cast;
use crate::command::Command;
use crate::groups::Groups;
use crate::posting::{Queue, post_all};
use crate::script_fault::ScriptFault;
use crate::script_version::ScriptVersion;
use std::alloc::{AllocError, Global};
use std::collections::VecDeque;
use std::marker::Model;
use totem_core::Input;
use totem_evs::Run;
use totem_names::ProcId;

mod cutting_off;
mod making;
mod queueing;
mod returning;
mod running;

/// The processes, packets and cut while a script is played.
#[derive(Drop)]
pub struct SceneState {
    /// The version of the script.
    version: ScriptVersion,
    actors: Cast,
    /// The packets on their way, each with its receiver.
    queue: Queue,
    /// The groups of the cut, while there is one.
    cut: Option<Groups>,
    /// Whether a command other than `ring` was carried out.
    under_way: bool,
}

impl Model for SceneState {
    ghost use Rattle.totem_script.specs.Scenes.{Scene};

    ghost Value = { Scene };

    ghost view = { λ s. record { version = s.version; actors = s.actors; queue = s.queue.items; cut = s.cut; under_way = s.under_way } };
}

impl SceneState {
    ghost use Rattle.std.specs.Prelude.{IfOk};
    ghost use Rattle.totem_script.specs.Casts.{logs_in};
    ghost use Rattle.totem_script.specs.Versions.{FitVersion, run_of};

    /// Returns the scene at the beginning of a script of this version.
    pub fn new(alloc: Global, version: ScriptVersion) -> SceneState
        ensures { result ≡ empty_scene version }
    {
        SceneState {
            version,
            actors: Cast::new(alloc),
            queue: VecDeque::new(alloc),
            cut: None,
            under_way: false,
        }
    }

    pub fn version(&self) -> ScriptVersion
        ensures { result ≡ self.now.version }
    {
        self.version
    }

    /// Gives a process this input, and puts what its node sends on its way. Does nothing if the script does not have the process.
    fn step(&mut self, alloc: Global, proc: ProcId, input: Input) -> Result<(), ScriptFault>
        ensures { Becomes result self.new (scene_step self.old proc input) }
    {
        let packets = self.actors.step(alloc, proc, input)?;
        let actors = self.actors.as_slice();
        post_all(alloc, &mut self.queue, &self.cut, actors, proc, packets)?;
        Ok(())
    }

    /// Gives this input to a process that a line names. `Members` if the script does not have that process.
    fn step_named(&mut self, alloc: Global, proc: ProcId, input: Input) -> Result<(), ScriptFault>
        ensures { Becomes result self.new (named_step self.old proc input) }
    {
        if !self.actors.is_known(proc) {
            return Err(ScriptFault::Members);
        }
        self.step(alloc, proc, input)
    }

    fn is_in_order(&self, command: &Command) -> bool
        ensures { result ≡ is_in_order self.now command.now }
    {
        if command.makes_ring() {
            return !self.under_way;
        }
        !self.actors.as_slice().is_empty()
    }

    /// Carries out a command.
    fn effect(&mut self, alloc: Global, command: Command) -> Result<(), ScriptFault>
        ensures { Becomes result self.new (effect self.old command) }
    {
        match command {
            Command::Ring { ring, members } => self.make_ring(alloc, ring, members.as_slice()),
            Command::Submit {
                proc,
                service,
                payload,
            } => {
                let payload = payload.into_bytes();
                self.step_named(alloc, proc, Input::Submit { service, payload })
            }
            Command::Run { times } => self.run(alloc, times),
            Command::Drop { place } => self.lose(place),
            Command::Repeat { place } => self.repeat(alloc, place),
            Command::Cut { groups } => self.part(alloc, groups),
            Command::Join => {
                self.cut = None;
                Ok(())
            }
            Command::Timer { proc } => self.step_named(alloc, proc, Input::Timer),
            Command::Crash { proc } => self.step_named(alloc, proc, Input::Crash),
            Command::Return { proc } => self.bring_back(alloc, proc),
            Command::End => Ok(()),
        }
    }

    /// Carries out a command if it is allowed here. `Order` if it is not.
    pub fn carry_out(&mut self, alloc: Global, command: Command) -> Result<(), ScriptFault>
        ensures { Becomes result self.new (carried_out self.old command) }
    {
        if !self.is_in_order(&command) {
            return Err(ScriptFault::Order);
        }
        self.under_way = !command.makes_ring();
        self.effect(alloc, command)
    }

    /// Returns the run that the processes have recorded.
    pub fn into_run(self, alloc: Global) -> Result<Run, AllocError>
        requires { FitVersion self.version (logs_in self.actors) }
        ensures { IfOk result (λ run. run ≡ run_of self.version (logs_in self.actors)) }
    {
        let SceneState {
            version,
            actors,
            queue: _,
            cut: _,
            under_way: _,
        } = self;
        actors.into_run(alloc, version)
    }
}
