ghost use Rattle.std.specs.Prelude.{◌≡◌, IfOk};

use std::alloc::{AllocError, Global};
use totem_names::{ProcId, RingId};
use totem_packets::{CommitToken, Number, Processes};

/// The state of a member that may take a commit token.
#[derive(Clone, Copy, Debug, PartialEq, Eq)]
pub enum Phase {
    Gather,
    Commit,
    Recovery,
}

/// What a member shows of itself when a commit token arrives.
#[derive(Clone, Copy, Debug)]
pub struct CommitView {
    pub me: ProcId,
    /// The processes on which there is consensus.
    pub members: Processes,
    /// The greatest ring number that it knows.
    pub seq: Number,
    /// The ring of the commit token that it made or filled last since it installed a ring.
    pub filled: Option<RingId>,
    pub phase: Phase,
    /// Whether it has taken the first token of the new ring.
    pub started: bool,
}

/// What a gathering process has to do next.
#[derive(Clone, Copy, Debug)]
pub struct GatherOut {
    /// Broadcast its Join again.
    pub again: bool,
    /// Form a ring of these processes, on which there is consensus.
    pub members: Option<Processes>,
}

/// How a member took a commit token.
#[derive(Clone, Copy, Debug, PartialEq, Eq)]
pub enum Act {
    /// The member has filled in its report, and the token goes to the next member.
    Filled,
    /// The member begins its recovery, and the token goes to the next member in its second round.
    Entered,
    /// The token has returned after its second round, and the member takes the first token of the new ring.
    Started,
}

/// How a member took a commit token, and the token after that.
#[derive(Debug, Drop)]
pub struct CommitOut {
    pub act: Act,
    pub token: CommitToken,
}

impl CommitOut {
    pub fn try_clone(&self, alloc: Global) -> Result<CommitOut, AllocError>
        ensures { IfOk result (λ o. o ≡ self.now) }
    {
        Ok(CommitOut {
            act: self.act,
            token: self.token.try_clone(alloc)?,
        })
    }
}
