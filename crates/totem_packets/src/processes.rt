ghost use Rattle.std.specs.Prelude.{◌≡◌, ◌<◌, ◌^◌, All, MatchResult};
ghost use Rattle.totem_names.specs.Lists.{Refuses};
ghost use Rattle.totem_packets.specs.Rising.{IsBelow, IsProcesses};

use crate::short_list::ShortList;
use std::marker::Model;
use totem_names::{ListFault, ProcId, rising_fault};

/// How many processes a set may have at most.
pub const MOST: usize = 32;

/// A set of 0 to 32 processes, kept as a strictly ascending list. It takes no memory and is copied like a number.
#[derive(Clone, Copy, Debug)]
pub struct Processes {
    procs: ShortList,
}

impl Model for Processes {
    ghost use Rattle.std.specs.Prelude.{ℕ, List};
    ghost use Rattle.totem_packets.specs.Rising.{IsProcesses};

    ghost Value = { List ℕ };

    ghost view = { λ p. p.procs };

    ghost invariant = { λ p. IsProcesses p.procs };

    ghost inverse = { λ ps. record { procs = ps } };
}

impl Processes {
    /// Makes the set of these processes, or returns the first rule that the list breaks.
    pub fn new(procs: &[ProcId]) -> Result<Processes, ListFault>
        ensures { MatchResult result (λ p. (p ≡ procs.now) × IsProcesses procs.now)
            (λ fault. Refuses 0 32 IsBelow procs.now fault) }
    {
        if let Some(fault) = rising_fault(0, MOST, procs) {
            return Err(fault);
        }
        let mut list = ShortList::new();
        list.extend(procs);
        Ok(Processes { procs: list })
    }

    /// Makes the set of processes that the caller knows keep the rules.
    pub fn of(procs: ShortList) -> Processes
        requires { IsProcesses procs }
        ensures { result ≡ procs }
    {
        Processes { procs }
    }

    pub fn as_slice(&self) -> &[ProcId]
        ensures value { result.now ≡ self.now }
        ensures processes { IsProcesses self.now }
    {
        self.procs.as_slice()
    }
}
