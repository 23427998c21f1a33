//! The step of a node: the module of its input refuses it or takes it.
ghost use Rattle.std.specs.Prelude.{◌≡◌, Err};
ghost use Rattle.std.specs.Result.{IsOk};
ghost use Rattle.totem_core.specs.Table.{on_packet, step};
ghost use Rattle.totem_core.specs.declared.fault.NodeFault.TheVariants.{Memory};
ghost use Rattle.totem_core.specs.Answers.{IsStep};

use crate::fault::NodeFault;
use crate::input::Input;
use crate::node_core::NodeCore;
use crate::outcome::StepOut;
use std::alloc::Global;
use totem_packets::Packet;

impl NodeCore {
    /// Returns whether the node has failed. From then on each step is refused as `Stopped`.
    pub fn has_crashed(&self) -> bool
        ensures { result ≡ self.now.crashed }
    {
        self.crashed
    }

    /// Takes a packet.
    fn on_packet(&mut self, alloc: Global, packet: Packet) -> Result<StepOut, NodeFault>
        ensures { IsStep self.old self.new result (on_packet self.old packet) }
    {
        match packet {
            Packet::Message(message) => self.on_message(alloc, message),
            Packet::Token(token) => self.on_token(alloc, &token),
            Packet::Join(join) => self.on_join(alloc, &join),
            Packet::Commit(token) => self.on_commit(alloc, &token),
        }
    }

    /// Takes an input (docs/PROTOCOL.md, "The node"). A step that is refused changes nothing, and is refused before any memory is
    /// taken. So `Memory` is returned only where the step would be taken.
    pub fn step(&mut self, alloc: Global, input: Input) -> Result<StepOut, NodeFault>
        ensures step { IsStep self.old self.new result (step self.old input) }
        ensures wanting { result ≡ Err Memory → IsOk (step self.old input) }
    {
        if self.crashed {
            return Err(NodeFault::Stopped);
        }
        match input {
            Input::Submit { service, payload } => self.on_submit(alloc, service, payload),
            Input::Packet(packet) => self.on_packet(alloc, packet),
            Input::Timer => self.on_timer(alloc),
            Input::Crash => self.on_crash(alloc),
        }
    }
}
