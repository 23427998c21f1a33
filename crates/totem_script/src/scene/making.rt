//! `ring`: nodes are made.
ghost use Rattle.std.specs.Prelude.{◌≡◌, OnOk};
ghost use Rattle.totem_script.specs.Judged.{Becomes};
ghost use Rattle.totem_script.specs.Scenes.{ring_made, with_first_token};

use crate::scene::SceneState;
use crate::script_fault::ScriptFault;
use std::alloc::{AllocError, Global};
use totem_names::{ProcId, RingId};
use totem_packets::Packet;
use totem_ring::first_token;

impl SceneState {
    /// Puts a ring's first token on its way to the ring's representative.
    pub(super) fn put_first_token(&mut self, alloc: Global, ring: RingId) -> Result<(), AllocError>
        ensures { OnOk result (self.new ≡ record self.old { queue = with_first_token self.old.queue ring }) }
    {
        let token = Packet::Token(first_token(alloc, ring));
        self.queue.push_back((ring.rep, token))?;
        Ok(())
    }

    /// Makes nodes on this ring, and puts the ring's first token on its way to the least of them.
    pub(super) fn make_ring(
        &mut self,
        alloc: Global,
        ring: RingId,
        members: &[ProcId],
    ) -> Result<(), ScriptFault>
        ensures { Becomes result self.new (ring_made self.old ring members.now) }
    {
        self.actors.add_ring(alloc, ring, members)?;
        self.put_first_token(alloc, ring)?;
        Ok(())
    }
}
