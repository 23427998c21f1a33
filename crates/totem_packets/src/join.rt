ghost use Rattle.std.specs.Prelude.{◌≡◌, ◌↔◌, IsTrue};

use crate::number::Number;
use crate::processes::Processes;
use totem_names::ProcId;

/// The Join of a gathering process: the processes with which it would form a ring, and which of them it thinks have failed.
#[derive(Clone, Copy, Debug)]
pub struct Join {
    pub sender: ProcId,
    /// The greatest ring number that the sender has heard of.
    pub seq: Number,
    pub processes: Processes,
    pub failed: Processes,
}

impl Join {
    /// Returns whether the two are the same Join: `==` in a form that contracts can use.
    pub fn is(&self, other: &Join) -> bool
        ensures { IsTrue result ↔ (self.now ≡ other.now) }
    {
        self.sender == other.sender
            && self.seq == other.seq
            && self.processes.is(&other.processes)
            && self.failed.is(&other.failed)
    }
}
