//! Walks along the changes of a run only, and keeps what a search has to know about them.
ghost use Rattle.std.specs.Prelude.{ℕ, ◌<◌, ◌≤◌, List, OnOk, length};
ghost use Rattle.totem_evs.specs.declared.entry.Entry.{Entry};
ghost use Rattle.totem_evs.specs.declared.log.Log.{Log};
ghost use Rattle.totem_evs.specs.Events.{IsChange};
ghost use Rattle.totem_evs.specs.Following.{IsNextOrEnd};
ghost use Rattle.totem_table.specs.Changes.{ListsChanges, AreChanges};
ghost use Rattle.totem_table.specs.Registers.{Keeps, StaysSound, KnowsLog, KnowsRun};

use crate::changes::{Changes, next_change};
use std::alloc::{AllocError, Global};
use totem_evs::{Entry, Run};
use totem_names::Proc;

/// Keeps some knowledge about the changes of a run.
pub trait ChangeRegister {
    /// What is true of the register as long as only changes of this run are entered.
    ghost sound: { Self → List Log → Type 0 };

    /// What the register knows about the entry at an index of a process's log once it is entered.
    ghost knows: { Self → ℕ → List Entry → ℕ → Type 0 };

    /// Does nothing. Its contract says that an entry that is no change is known without being entered.
    fn spares(&self)
        ensures { (p : ℕ) (log : List Entry) (i : ℕ) → (IsChange log i → ⊥) → knows self.now p log i };

    /// Enters the change at this index; `next` is the index of the change after it, or the length of the log. The
    /// changes before it in the log have been entered. If memory is refused, the register can no longer be used.
    fn enter_change(
        &mut self,
        alloc: Global,
        proc: Proc,
        log: &[Entry],
        at: usize,
        next: usize,
    ) -> Result<(), AllocError>
        requires within { at < length log.now }
        requires few { length log.now ≤ 1000000 }
        requires next { IsNextOrEnd log.now at next }
        requires before { KnowsLog (knows self.old) proc log.now at }
        ensures entered { OnOk result (knows self.new proc log.now at) }
        ensures kept { OnOk result (Keeps (knows self.old) (knows self.new)) }
        ensures sound { OnOk result (StaysSound (sound self.old) (sound self.new) proc log.now) };
}

fn enter_changes_of<R: ChangeRegister>(
    register: &mut R,
    alloc: Global,
    proc: Proc,
    log: &[Entry],
    changes: &[u32],
) -> Result<(), AllocError>
    requires few { length log.now ≤ 1000000 }
    requires lists { ListsChanges log.now (length log.now) changes.now }
    ensures entered { OnOk result (KnowsLog (R.knows register.new) proc log.now (length log.now)) }
    ensures kept { OnOk result (Keeps (R.knows register.old) (R.knows register.new)) }
    ensures sound { OnOk result (StaysSound (R.sound register.old) (R.sound register.new) proc log.now) }
{
    for number in 0..changes.len() {
        register.spares();
        let at = changes[number] as usize;
        let next = next_change(log, changes, number);
        register.enter_change(alloc, proc, log, at, next)?;
    }
    register.spares();
    Ok(())
}

/// Enters the changes of the run. All its entries are known then.
pub fn enter_changes<R: ChangeRegister>(
    register: &mut R,
    alloc: Global,
    run: &Run,
    changes: &Changes,
) -> Result<(), AllocError>
    requires sound { R.sound register.old run.now.logs }
    requires changes { AreChanges run.now.logs changes.now.rows.items }
    ensures entered { OnOk result (KnowsRun (R.knows register.new) run.now.logs) }
    ensures sound { OnOk result (R.sound register.new run.now.logs) }
{
    for (k, log) in run.logs.as_slice().iter().enumerate() {
        let row = changes.rows[k].as_slice();
        enter_changes_of(register, alloc, log.proc, log.entries.as_slice(), row)?;
    }
    Ok(())
}
