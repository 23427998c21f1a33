//! Lists of numbers and of members of commit tokens.
ghost use Rattle.std.specs.Prelude.{◌≡◌, ◌↔◌, IsTrue, IfOk};
ghost use Rattle.totem_packets.specs.CommitMembers.{IsCommitMember};
ghost use Rattle.totem_packets.specs.Rising.{IsNumber};

use crate::commit_member::CommitMember;
use crate::number::Number;
use std::alloc::{AllocError, Global};
use totem_names::{Keyed, Listed};

impl Listed for Number {
    ghost keeps = { IsNumber };

    fn keeps_its_rule(&self) {
        let _value = self.get();
    }

    fn is(&self, other: &Number) -> bool {
        *self == *other
    }

    fn try_clone(&self, _alloc: Global) -> Result<Number, AllocError> {
        Ok(*self)
    }
}

impl Keyed for Number {
    ghost key_of = { λ n. n };

    fn key(&self) -> u32 {
        self.get()
    }
}

impl Listed for CommitMember {
    ghost keeps = { IsCommitMember };

    fn keeps_its_rule(&self) {
        CommitMember::keeps_its_rule(self);
    }

    fn is(&self, other: &CommitMember) -> bool {
        CommitMember::is(self, other)
    }

    fn try_clone(&self, _alloc: Global) -> Result<CommitMember, AllocError> {
        Ok(*self)
    }
}

impl Keyed for CommitMember {
    ghost key_of = { λ m. m.proc };

    fn key(&self) -> u32 {
        u32::from(self.proc.number())
    }
}
