ghost use Rattle.std.specs.Prelude.{◌≡◌, ◌↔◌, IsTrue, ◌<◌, ◌^◌, All, IfOk, MatchResult};
ghost use Rattle.totem_names.specs.Lists.{Refuses};
ghost use Rattle.totem_packets.specs.CommitMembers.{IsBelowMember, IsCommitMembers};

use crate::commit_member::CommitMember;
use std::alloc::{AllocError, Global};
use std::marker::Model;
use totem_names::{Refused, are_same, copied, rising};

/// How many members a commit token may have at most.
const MOST: usize = 32;

/// The members of a commit token: 1 to 32, their processes strictly ascending.
#[derive(Debug, Drop)]
pub struct CommitMembers {
    list: Vec<CommitMember>,
}

impl Model for CommitMembers {
    ghost use Rattle.std.specs.Prelude.{List};
    ghost use Rattle.totem_packets.specs.declared.commit_member.CommitMember.{CommitMember};
    ghost use Rattle.totem_packets.specs.CommitMembers.{IsCommitMembers};

    ghost Value = { List CommitMember };

    ghost view = { λ m. m.list.items };

    ghost invariant = { λ m. IsCommitMembers m.list.items };
}

impl CommitMembers {
    /// Makes the members from this list. A refusal gives the list back with the first rule that it breaks.
    pub fn new(list: Vec<CommitMember>) -> Result<CommitMembers, Refused<Vec<CommitMember>>>
        ensures { MatchResult result (λ m. (m ≡ list.items) × IsCommitMembers list.items)
            (λ r. (r.value.items ≡ list.items) × Refuses 1 32 IsBelowMember list.items r.fault) }
    {
        let list = rising(1, MOST, list)?;
        Ok(CommitMembers { list })
    }

    /// Makes the members from a list that the caller knows keeps the rules.
    pub fn of(list: Vec<CommitMember>) -> CommitMembers
        requires { IsCommitMembers list.items }
        ensures { result ≡ list.items }
    {
        CommitMembers { list }
    }

    pub fn as_slice(&self) -> &[CommitMember]
        ensures value { result.now ≡ self.now }
        ensures members { IsCommitMembers self.now }
    {
        &self.list
    }

    /// Returns the members as a vector, without taking memory.
    pub fn into_vec(self) -> Vec<CommitMember>
        ensures { result.items ≡ self }
    {
        let CommitMembers { list } = self;
        list
    }

    /// Returns whether the two are the same members: `==` in a form that contracts can use.
    pub fn is(&self, other: &CommitMembers) -> bool
        ensures { IsTrue result ↔ (self.now ≡ other.now) }
    {
        are_same(self.as_slice(), other.as_slice())
    }

    pub fn try_clone(&self, alloc: Global) -> Result<CommitMembers, AllocError>
        ensures { IfOk result (λ m. m ≡ self.now) }
    {
        let list = copied(alloc, &self.list)?;
        Ok(CommitMembers { list })
    }
}
