ghost use Rattle.std.specs.Prelude.{◌≡◌, [], ◌∷◌, ◌++◌, MatchResult};

use crate::process_list::ProcessList;
use std::alloc::{AllocError, AllocFailed, Global};
use std::marker::Model;

/// The groups of a cut, as a line lists them.
#[derive(Debug, Drop)]
pub struct Groups {
    groups: Vec<ProcessList>,
}

impl Model for Groups {
    ghost use Rattle.std.specs.Prelude.{ℕ, List};

    ghost Value = { List (List ℕ) };

    ghost view = { λ g. g.groups.items };
}

impl Groups {
    /// Returns a list without groups.
    pub fn new(alloc: Global) -> Groups
        ensures { result ≡ [] }
    {
        Groups {
            groups: Vec::new(alloc),
        }
    }

    /// Appends a group.
    pub fn push(&mut self, group: ProcessList) -> Result<(), AllocError>
        ensures { MatchResult result (λ u. self.new ≡ self.old ++ group ∷ []) (λ e. self.new ≡ self.old) }
    {
        self.groups.push(group)?;
        Ok(())
    }

    pub fn as_slice(&self) -> &[ProcessList]
        ensures { result.now ≡ self.now }
    {
        &self.groups
    }
}
