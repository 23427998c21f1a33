//! Walks along the entries of a run, and keeps what a search has to know about them.
ghost use Rattle.std.specs.Prelude.{ℕ, ◌<◌, ◌≤◌, List, OnOk, length};
ghost use Rattle.totem_evs.specs.declared.entry.Entry.{Entry};
ghost use Rattle.totem_evs.specs.declared.log.Log.{Log};
ghost use Rattle.totem_table.specs.Registers.{Keeps, StaysSound, KnowsLog, KnowsRun};

use std::alloc::{AllocError, Global};
use totem_evs::{Entry, Run};
use totem_names::Proc;

/// Keeps some knowledge about the entries of a run.
pub trait Register {
    /// What is true of the register as long as only entries of this run are entered.
    ghost sound: { Self → List Log → Type 0 };

    /// What the register knows about the entry at an index of a process's log once it is entered.
    ghost knows: { Self → ℕ → List Entry → ℕ → Type 0 };

    /// Enters the entry at this index. The entries before it in the log have been entered. If memory is refused, the register
    /// can no longer be used.
    fn enter(
        &mut self,
        alloc: Global,
        proc: Proc,
        log: &[Entry],
        at: usize,
    ) -> Result<(), AllocError>
        requires within { at < length log.now }
        requires few { length log.now ≤ 1000000 }
        requires before { KnowsLog (knows self.old) proc log.now at }
        ensures entered { OnOk result (knows self.new proc log.now at) }
        ensures kept { OnOk result (Keeps (knows self.old) (knows self.new)) }
        ensures sound { OnOk result (StaysSound (sound self.old) (sound self.new) proc log.now) };
}

fn enter_log<R: Register>(
    register: &mut R,
    alloc: Global,
    proc: Proc,
    log: &[Entry],
) -> Result<(), AllocError>
    requires few { length log.now ≤ 1000000 }
    ensures entered { OnOk result (KnowsLog (R.knows register.new) proc log.now (length log.now)) }
    ensures kept { OnOk result (Keeps (R.knows register.old) (R.knows register.new)) }
    ensures sound { OnOk result (StaysSound (R.sound register.old) (R.sound register.new) proc log.now) }
{
    for at in 0..log.len() {
        register.enter(alloc, proc, log, at)?;
    }
    Ok(())
}

/// Enters all entries of the run.
pub fn enter_run<R: Register>(register: &mut R, alloc: Global, run: &Run) -> Result<(), AllocError>
    requires { R.sound register.old run.now.logs }
    ensures entered { OnOk result (KnowsRun (R.knows register.new) run.now.logs) }
    ensures sound { OnOk result (R.sound register.new run.now.logs) }
{
    for log in run.logs.as_slice() {
        enter_log(register, alloc, log.proc, log.entries.as_slice())?;
    }
    Ok(())
}
