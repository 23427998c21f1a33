ghost use Rattle.std.specs.Prelude.{◌≡◌};
ghost use Rattle.totem_member.specs.Gathers.{same_sets};

use totem_names::ProcId;
use totem_packets::Processes;

/// The two sets of a Join.
#[derive(Clone, Copy, Debug)]
pub struct Sets {
    /// All processes that the sender knows.
    pub processes: Processes,
    /// The processes among them that have failed.
    pub failed: Processes,
}

/// The sets in the last noted Join of a process.
#[derive(Clone, Copy, Debug)]
pub struct Noted {
    pub proc: ProcId,
    pub sets: Sets,
}

impl Sets {
    /// Returns whether the two pairs of sets are equal.
    pub fn are(&self, other: &Sets) -> bool
        ensures { result ≡ same_sets self.now other.now }
    {
        self.processes.is(&other.processes) && self.failed.is(&other.failed)
    }
}
