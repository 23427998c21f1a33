ghost use Rattle.std.specs.Prelude.{◌≡◌, ◌+◌, ◌<◌, ◌≤◌, [], ◌∷◌, ◌++◌, length};

use crate::processes::MOST;
use std::marker::Model;
use totem_names::ProcId;

/// At most 32 processes in any order. They lie in the value itself, so a list takes no memory and is copied like a number.
#[derive(Clone, Copy, Debug)]
pub struct ShortList {
    procs: [ProcId; 32],
    count: usize,
}

impl Model for ShortList {
    ghost use Rattle.std.specs.Prelude.{ℕ, ◌-◌, List, ◌++◌, length, take, replicate};
    ghost use Rattle.totem_packets.specs.ShortLists.{IsShort};

    ghost Value = { List ℕ };

    ghost view = { λ s. take s.count s.procs };

    ghost invariant = { λ s. IsShort s.procs s.count };

    ghost inverse = { λ ps. record { procs = ps ++ replicate (32 - length ps) 1; count = length ps } };

    ghost inverse_ok = { λ s is i. record { procs = is.unused i; count = is.counted i } };
}

impl ShortList {
    /// Returns the empty list.
    pub fn new() -> ShortList
        ensures { result ≡ [] }
    {
        ShortList {
            procs: [ProcId::of(1); 32],
            count: 0,
        }
    }

    pub fn as_slice(&self) -> &[ProcId]
        ensures value { result.now ≡ self.now }
        ensures few { length result.now ≤ 32 }
    {
        &self.procs[..self.count]
    }

    /// Appends a process. The caller has to ensure that there is room.
    #[tactic(auto, using(crate::proofs::Rooms::one_more))]
    pub fn push(&mut self, proc: ProcId)
        requires { length self.old < 32 }
        ensures { self.new ≡ self.old ++ proc ∷ [] }
    {
        self.procs[self.count] = proc;
        self.count += 1;
    }

    /// Appends these processes. The caller has to ensure that there is room.
    pub fn extend(&mut self, procs: &[ProcId])
        requires { length self.old + length procs.now ≤ 32 }
        ensures { self.new ≡ self.old ++ procs.now }
    {
        for proc in procs {
            self.push(*proc);
        }
    }
}
