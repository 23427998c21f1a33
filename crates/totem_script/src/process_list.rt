ghost use Rattle.std.specs.Prelude.{◌≡◌, [], ◌∷◌, ◌++◌, MatchResult, IsTrue, ◌↔◌};
ghost use Rattle.totem_packets.specs.Sets.{has};

use std::alloc::{AllocError, AllocFailed, Global};
use std::marker::Model;
use totem_names::ProcId;
use totem_packets::is_among;

/// Processes as a line lists them: in any order, and perhaps more than once.
#[derive(Debug, Drop)]
pub struct ProcessList {
    procs: Vec<ProcId>,
}

impl Model for ProcessList {
    ghost use Rattle.std.specs.Prelude.{ℕ, List};

    ghost Value = { List ℕ };

    ghost view = { λ p. p.procs.items };
}

impl ProcessList {
    /// Returns a list without processes.
    pub fn new(alloc: Global) -> ProcessList
        ensures { result ≡ [] }
    {
        ProcessList {
            procs: Vec::new(alloc),
        }
    }

    /// Appends a process.
    pub fn push(&mut self, proc: ProcId) -> Result<(), AllocError>
        ensures { MatchResult result (λ u. self.new ≡ self.old ++ proc ∷ []) (λ e. self.new ≡ self.old) }
    {
        self.procs.push(proc)?;
        Ok(())
    }

    pub fn is_empty(&self) -> bool
        ensures { IsTrue result ↔ (self.now ≡ []) }
    {
        self.procs.is_empty()
    }

    pub fn contains(&self, proc: ProcId) -> bool
        ensures { result ≡ has self.now proc }
    {
        is_among(&self.procs, proc)
    }

    pub fn as_slice(&self) -> &[ProcId]
        ensures { result.now ≡ self.now }
    {
        &self.procs
    }
}
