//! Which members have no log yet, and when that has to be looked at again.
ghost use Rattle.std.specs.Prelude.{◌≡◌, ◌≢◌, ℕ, ◌≤◌, ◌↔◌, ◌⊎◌, ◌++◌, ◌∷◌, [], Contains, IsTrue, OnOk, IfSome, IfNone};
ghost use Rattle.std.specs.Bool.{OnTrue};
ghost use Rattle.totem_evs.specs.Missing.{members_of};
ghost use Rattle.totem_evs.specs.ReadState.{AreNoted};

use crate::entry::Entry;
use crate::members::Members;
use crate::unlogged::Unlogged;
use std::alloc::{AllocError, Global};
use std::marker::Model;
use totem_names::Proc;

/// The processes whose logs have begun, and the members that have no log yet.
#[derive(Debug, Drop)]
pub struct Roster {
    begun: Vec<Proc>,
    waiting: Unlogged,
    /// The members of the last change, or `None` if a log has begun since. The log of each has begun, or it waits for one.
    noted: Option<Members>,
}

impl Model for Roster {
    ghost use Rattle.std.specs.Prelude.{IfSome};
    ghost use Rattle.totem_evs.specs.ReadState.{RosterState, AreNoted};

    ghost Value = { RosterState };

    ghost view = { λ r. record { begun = r.begun.items; waiting = r.waiting } };

    ghost invariant = { λ r. IfSome r.noted (AreNoted r.begun.items r.waiting) };
}

fn has_begun(begun: &[Proc], proc: Proc) -> bool
    ensures { IsTrue result ↔ Contains begun.now proc }
{
    begun.contains(&proc)
}

// Adds to `waiting` those of the members whose logs have not begun.
fn wait_for(waiting: &mut Unlogged, begun: &[Proc], members: &[Proc]) -> Result<(), AllocError>
    ensures { OnOk result ((q : ℕ) → Contains waiting.new q
        ↔ (Contains waiting.old q ⊎ (Contains members.now q × (Contains begun.now q → ⊥)))) }
{
    for member in members {
        if !has_begun(begun, *member) {
            waiting.add(*member)?;
        }
    }
    Ok(())
}

impl Roster {
    /// Returns the roster before the first log.
    pub fn new(alloc: Global) -> Roster
        ensures { (result.begun ≡ []) × (result.waiting ≡ []) }
    {
        Roster {
            begun: Vec::new(alloc),
            waiting: Unlogged::new(alloc),
            noted: None,
        }
    }

    /// Notes that the log of a process has begun.
    pub fn note_log(&mut self, proc: Proc) -> Result<(), AllocError>
        ensures begun { OnOk result (self.new.begun ≡ self.old.begun ++ proc ∷ []) }
        ensures waiting { OnOk result ((q : ℕ) → Contains self.new.waiting q ↔ (Contains self.old.waiting q × (q ≢ proc))) }
    {
        self.noted = None;
        self.begun.push(proc)?;
        self.waiting.remove(proc);
        Ok(())
    }

    // Returns `true` only if these are the members of the last change, and no log has begun since.
    fn are_noted(&self, members: &Members) -> bool
        ensures { OnTrue result (AreNoted self.now.begun self.now.waiting members.now) }
    {
        match &self.noted {
            Some(noted) => noted.is(members),
            None => false,
        }
    }

    // Notes members, whether or not they are those of the last change.
    fn note_members(&mut self, members: &Members) -> Result<(), AllocError>
        ensures begun { OnOk result (self.new.begun ≡ self.old.begun) }
        ensures waiting { OnOk result ((q : ℕ) → Contains self.new.waiting q
            ↔ (Contains self.old.waiting q ⊎ (Contains members.now q × (Contains self.old.begun q → ⊥)))) }
    {
        self.noted = None;
        wait_for(&mut self.waiting, &self.begun, members.as_slice())?;
        self.noted = Some(members.try_clone()?);
        Ok(())
    }

    /// Notes the members that an entry names: they wait, unless their logs have begun.
    pub fn note_entry(&mut self, entry: &Entry) -> Result<(), AllocError>
        ensures begun { OnOk result (self.new.begun ≡ self.old.begun) }
        ensures waiting { OnOk result ((q : ℕ) → Contains self.new.waiting q
            ↔ (Contains self.old.waiting q ⊎ (Contains (members_of entry.now) q × (Contains self.old.begun q → ⊥)))) }
    {
        let Entry::Conf(_, members) = entry else {
            return Ok(());
        };
        if self.are_noted(members) {
            return Ok(());
        }
        self.note_members(members)
    }

    /// Returns the least member that has no log yet, or `None` if there is none.
    pub fn least(&self) -> Option<Proc>
        ensures some { IfSome result (λ p. Contains self.now.waiting p) }
        ensures least { IfSome result (λ p. (q : ℕ) → Contains self.now.waiting q → p ≤ q) }
        ensures none { IfNone result (self.now.waiting ≡ []) }
    {
        self.waiting.least()
    }
}
