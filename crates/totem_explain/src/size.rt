//! The size of a run: its entries by kind.
ghost use Rattle.std.specs.Prelude.{[], ◌∷◌};
ghost use Rattle.totem_explain.specs.Sizes.{AddUp, IsSizeOf, IsWithin};

use std::alloc::{AllocError, Global};
use totem_evs::{Entry, Run};
use totem_names::{ConfId, Service};

/// How many entries of each kind a run has.
#[derive(Clone, Copy, Default)]
pub struct Size {
    pub changes: u32,
    pub sends: u32,
    pub safe_sends: u32,
    pub deliveries: u32,
    pub transitional_deliveries: u32,
    pub failures: u32,
}

impl Size {
    pub fn none() -> Size
        ensures { IsSizeOf [] result }
    {
        Size {
            changes: 0,
            sends: 0,
            safe_sends: 0,
            deliveries: 0,
            transitional_deliveries: 0,
            failures: 0,
        }
    }

    /// Counts an entry.
    pub fn add(&mut self, entry: &Entry)
        requires { IsWithin self.old 32000000 }
        ensures { AddUp self.old (entry.now ∷ []) self.new [] }
    {
        match entry {
            Entry::Conf(_, _) => self.changes += 1,
            Entry::Send(_, _, Service::Agreed) => self.sends += 1,
            Entry::Send(_, _, Service::Safe) => {
                self.sends += 1;
                self.safe_sends += 1;
            }
            Entry::Deliver(_, ConfId::Regular(_)) => self.deliveries += 1,
            Entry::Deliver(_, ConfId::Transitional { .. }) => {
                self.deliveries += 1;
                self.transitional_deliveries += 1;
            }
            Entry::Fail(_) => self.failures += 1,
        }
    }

    /// Returns how many entries send or deliver a message.
    pub fn traffic(&self) -> u32 {
        self.sends.saturating_add(self.deliveries)
    }

    /// Returns how many entries are no changes.
    pub fn unchanging(&self) -> u32 {
        self.traffic().saturating_add(self.failures)
    }

    /// Returns a line that says how many logs, and how many entries of each kind, the run has.
    pub fn summary(&self, alloc: Global, run: &Run) -> Result<String, AllocError> {
        let logs = run.logs.as_slice().len();
        let Size {
            changes,
            sends,
            deliveries,
            failures,
            ..
        } = self;
        format!(in alloc;
            "The run: logs {logs}, changes {changes}, sends {sends}, deliveries {deliveries}, failures {failures}.\n"
        )
    }
}
