//! The members that have no log yet.
ghost use Rattle.std.specs.Prelude.{◌≡◌, ◌≢◌, ℕ, ◌≤◌, ◌↔◌, ◌⊎◌, [], Contains, OnOk, OnErr, IfSome, IfNone};

use std::alloc::{AllocError, Global};
use std::collections::BTreeSet;
use std::marker::Model;
use totem_names::Proc;

/// The members that were named and have no log yet.
#[derive(Debug, Drop)]
pub struct Unlogged {
    procs: BTreeSet<Proc>,
}

impl Model for Unlogged {
    ghost use Rattle.std.specs.Prelude.{ℕ, List};

    ghost Value = { List ℕ };

    ghost view = { λ u. u.procs.keys };
}

impl Unlogged {
    /// Returns the empty set.
    pub fn new(alloc: Global) -> Unlogged
        ensures { result ≡ [] }
    {
        Unlogged {
            procs: BTreeSet::new(alloc),
        }
    }

    /// Adds a process, if it is not in the set yet.
    pub fn add(&mut self, proc: Proc) -> Result<(), AllocError>
        ensures { OnOk result ((q : ℕ) →
            Contains self.new q ↔ (Contains self.old q ⊎ (q ≡ proc))) }
    {
        self.procs.insert(proc)?;
        Ok(())
    }

    /// Removes a process.
    pub fn remove(&mut self, proc: Proc)
        ensures { (q : ℕ) → Contains self.new q ↔ (Contains self.old q × (q ≢ proc)) }
    {
        self.procs.remove(&proc);
    }

    /// Returns the least process, or `None` if there is none.
    pub fn least(&self) -> Option<Proc>
        ensures some { IfSome result (λ p. Contains self.now p) }
        ensures least { IfSome result (λ p. (q : ℕ) → Contains self.now q → p ≤ q) }
        ensures none { IfNone result (self.now ≡ []) }
    {
        self.procs.first().copied()
    }
}
