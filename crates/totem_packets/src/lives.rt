//! Whether the reports of a commit token carry lives (docs/PROTOCOL.md, "Packets").
ghost use Rattle.std.specs.Prelude.{◌≡◌};
ghost use Rattle.totem_packets.specs.Lives.{has_later_life, lives_of, commit_kind};

use crate::commit_members::CommitMembers;

/// Whether the reports of a commit token have a field for the life of the reporting member.
#[derive(Clone, Copy, Debug, PartialEq, Eq, PartialOrd, Ord, Hash)]
pub enum Lives {
    /// Every report is from a first life, and none has the field.
    Untold,
    /// Every report has the field.
    Told,
}

impl Lives {
    /// Returns the first byte of the packet.
    pub(crate) fn kind(self) -> u8
        ensures { result ≡ commit_kind self }
    {
        match self {
            Lives::Untold => 4,
            Lives::Told => 5,
        }
    }
}

impl CommitMembers {
    /// Returns whether a member reports from a life above the first.
    pub fn has_later_life(&self) -> bool
        ensures { result ≡ has_later_life self.now }
    {
        self.as_slice().iter().any(|member| 1 < member.life().get())
    }

    /// Returns whether the reports carry lives: they do if one is above the first.
    pub(crate) fn lives_told(&self) -> Lives
        ensures { result ≡ lives_of self.now }
    {
        if self.has_later_life() {
            Lives::Told
        } else {
            Lives::Untold
        }
    }
}
