ghost use Rattle.std.specs.Prelude.{◌≡◌, ◌↔◌, IsTrue, Contains, IfOk, MatchResult};
ghost use Rattle.std.specs.Arc.{arc_value};
ghost use Rattle.totem_names.specs.Lists.{Refuses};
ghost use Rattle.totem_evs.specs.Members.{IsMembers, IsBelow};

use std::alloc::{AllocError, Global};
use std::marker::Model;
use std::sync::Arc;
use totem_names::{Proc, Refused, rising_fault};

/// How many members a configuration may have at most.
const MOST: usize = 32;

/// The members of a configuration: 1 to 32 processes whose identifiers are strictly ascending, so there is at most one life of each.
/// Copies share one list.
#[derive(Debug, Drop)]
pub struct Members {
    procs: Arc<Vec<Proc>>,
}

impl Model for Members {
    ghost use Rattle.std.specs.Prelude.{ℕ, List};
    ghost use Rattle.std.specs.Arc.{arc_value};
    ghost use Rattle.totem_evs.specs.Members.{IsMembers};

    ghost Value = { List ℕ };

    ghost view = { λ m. (arc_value m.procs).items };

    ghost invariant = { λ m. IsMembers (arc_value m.procs).items };
}

impl Members {
    /// Makes the members from these processes. Otherwise refuses the list, with the first rule that it breaks. Takes no memory.
    pub fn new(procs: Arc<Vec<Proc>>) -> Result<Members, Refused<Arc<Vec<Proc>>>>
        ensures { MatchResult result (λ m. (m ≡ (arc_value procs).items) × IsMembers (arc_value procs).items)
            (λ r. (arc_value r.value ≡ arc_value procs) × Refuses 1 32 IsBelow (arc_value procs).items r.fault) }
    {
        match rising_fault(1, MOST, &procs) {
            None => Ok(Members { procs }),
            Some(fault) => Err(Refused {
                fault,
                value: procs,
            }),
        }
    }

    /// Makes the members from processes that are known to keep the rules.
    pub fn of(procs: Arc<Vec<Proc>>) -> Members
        requires { IsMembers (arc_value procs).items }
        ensures { result ≡ (arc_value procs).items }
    {
        Members { procs }
    }

    /// Makes the members from a vector of processes that are known to keep the rules.
    pub(crate) fn from_vec(alloc: Global, procs: Vec<Proc>) -> Result<Members, AllocError>
        requires { IsMembers procs.items }
        ensures { IfOk result (λ m. m ≡ procs.items) }
    {
        Ok(Members::of(Arc::new(alloc, procs)?))
    }

    pub fn as_slice(&self) -> &[Proc]
        ensures value { result.now ≡ self.now }
        ensures members { IsMembers self.now }
    {
        &self.procs
    }

    pub fn contains(&self, proc: Proc) -> bool
        ensures { IsTrue result ↔ Contains self.now proc }
    {
        for member in self.as_slice() {
            if *member == proc {
                return true;
            }
        }
        false
    }

    /// Returns whether the two are the same members: `==` in a form that contracts can use. Compares all of them, without a branch for each,
    /// since most lists that are compared are the same.
    pub fn is(&self, other: &Members) -> bool
        ensures { IsTrue result ↔ (self.now ≡ other.now) }
    {
        let these = self.as_slice();
        let those = other.as_slice();
        if these.len() != those.len() {
            return false;
        }
        let mut same = true;
        for i in 0..these.len() {
            let equal = these[i].rank() == those[i].rank();
            same = same && equal;
        }
        same
    }

    /// Returns a copy, which shares the list. Fails only if there are already as many copies as can be counted.
    pub fn try_clone(&self) -> Result<Members, AllocError>
        ensures { IfOk result (λ m. m ≡ self.now) }
    {
        Ok(Members {
            procs: Arc::try_clone(&self.procs)?,
        })
    }
}
