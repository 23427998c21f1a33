ghost use Rattle.std.specs.Prelude.{◌≡◌};
ghost use Rattle.totem_script.specs.Scenes.{makes_ring};
ghost use Rattle.totem_script.specs.Simulation.{is_end};

use crate::groups::Groups;
use crate::process_list::ProcessList;
use totem_names::{ProcId, RingId, Service};
use totem_packets::Payload;

/// What a line of a script says (docs/PROTOCOL.md, "Scripts").
#[derive(Debug, Drop)]
pub enum Command {
    /// Nodes are made on this ring, and its first token is on its way.
    Ring {
        ring: RingId,
        members: ProcessList,
    },
    /// A client of this process asks it to send this payload.
    Submit {
        proc: ProcId,
        service: Service,
        payload: Payload,
    },
    /// The first packet goes to its receiver, this many times while there is one.
    Run {
        times: u32,
    },
    /// The packet at this place, counted from 1, is lost.
    Drop {
        place: u32,
    },
    /// A copy of the packet at this place, counted from 1, goes after the others.
    Repeat {
        place: u32,
    },
    /// From now on no packet passes between these groups.
    Cut {
        groups: Groups,
    },
    /// The cut ends.
    Join,
    /// The timer of this process runs out.
    Timer {
        proc: ProcId,
    },
    /// This process fails.
    Crash {
        proc: ProcId,
    },
    /// This process, which has crashed, returns in its next life, alone on a ring.
    Return {
        proc: ProcId,
    },
    /// The last line.
    End,
}

impl Command {
    /// Returns whether this is the command `ring`.
    pub(crate) fn makes_ring(&self) -> bool
        ensures { result ≡ makes_ring self.now }
    {
        match self {
            Command::Ring {
                ring: _,
                members: _,
            } => true,
            _ => false,
        }
    }

    /// Returns whether this is the command `end`.
    pub(crate) fn is_end(&self) -> bool
        ensures { result ≡ is_end self.now }
    {
        match self {
            Command::End => true,
            _ => false,
        }
    }
}
