ghost use Rattle.std.specs.Prelude.{◌≡◌, ◌↔◌, IsTrue, IfOk};

use crate::commit_members::CommitMembers;
use std::alloc::{AllocError, Global};
use totem_names::RingId;

/// The round of a commit token on the ring: in the first each member fills in its report, in the second all reports are filled in.
#[derive(Clone, Copy, Debug, PartialEq, Eq, PartialOrd, Ord, Hash)]
pub enum Round {
    First,
    Second,
}

/// The commit token, which forms a ring of the members that it names.
#[derive(Debug, Drop)]
pub struct CommitToken {
    pub ring: RingId,
    pub round: Round,
    pub members: CommitMembers,
}

impl CommitToken {
    /// Returns whether the two are the same commit token: `==` in a form that contracts can use.
    pub fn is(&self, other: &CommitToken) -> bool
        ensures { IsTrue result ↔ (self.now ≡ other.now) }
    {
        self.ring == other.ring && self.round == other.round && self.members.is(&other.members)
    }

    pub fn try_clone(&self, alloc: Global) -> Result<CommitToken, AllocError>
        ensures { IfOk result (λ t. t ≡ self.now) }
    {
        Ok(CommitToken {
            ring: self.ring,
            round: self.round,
            members: self.members.try_clone(alloc)?,
        })
    }
}
