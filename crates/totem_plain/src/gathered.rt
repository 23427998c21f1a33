//! Lists what the entries of a run give, in ascending order.
ghost use Rattle.std.specs.Prelude.{◌≡◌, ℕ, List, IfOk, OnOk};
ghost use Rattle.std.specs.declared.cmp.Ordering.TheVariants.{Equal};
ghost use Rattle.totem_evs.specs.declared.entry.Entry.{Entry};
ghost use Rattle.totem_evs.specs.declared.log.Log.{Log};
ghost use Rattle.totem_search.specs.Entries.{HasOne, SomeLog};
ghost use Rattle.totem_search.specs.Adding.{Adds};
ghost use Rattle.totem_plain.specs.Gathered.{IsInOrder, AreListed};

use std::alloc::{AllocError, Global};
use totem_evs::{Entry, Run};
use totem_names::Proc;

/// What the entries of a run give, for each process.
pub trait Gathered: Ord + Copy {
    /// What an entry of the run gives for a process.
    ghost gives: { List Log → ℕ → Entry → Self → Type 0 };

    /// Adds what this entry gives for the process.
    fn add(list: &mut Vec<Self>, run: &Run, proc: Proc, entry: &Entry) -> Result<(), AllocError>
        ensures { OnOk result (Adds (gives run.now.logs proc entry.now) list.old.items list.new.items) };
}

/// Adds what the entries of a log give for a process.
fn add_log<T: Gathered>(
    list: &mut Vec<T>,
    run: &Run,
    proc: Proc,
    log: &[Entry],
) -> Result<(), AllocError>
    ensures { OnOk result (Adds (λ x. HasOne (λ e. T.gives run.now.logs proc e x) log.now) list.old.items list.new.items) }
{
    for entry in log {
        T::add(list, run, proc, entry)?;
    }
    Ok(())
}

/// Adds what all entries give for a process.
fn add_run<T: Gathered>(list: &mut Vec<T>, run: &Run, proc: Proc) -> Result<(), AllocError>
    ensures { OnOk result (Adds (λ x. SomeLog (λ e. T.gives run.now.logs proc e x) run.now.logs) list.old.items list.new.items) }
{
    for log in run.logs.as_slice() {
        add_log(list, run, proc, log.entries.as_slice())?;
    }
    Ok(())
}

/// Returns the elements of the list in ascending order, each once.
fn in_order<T: Gathered>(mut list: Vec<T>) -> Result<Vec<T>, AllocError>
    requires exact { (a b : T) → T.cmp a b ≡ Equal → a ≡ b }
    ensures { IfOk result (λ ordered. IsInOrder T.cmp list.items ordered.items) }
{
    list.sort()?;
    list.dedup();
    Ok(list)
}

/// Returns all that the entries of the run give for the processes that have a log, in ascending order.
pub fn all_given<T: Gathered>(alloc: Global, run: &Run) -> Result<Vec<T>, AllocError>
    requires exact { (a b : T) → T.cmp a b ≡ Equal → a ≡ b }
    ensures { IfOk result (λ list. AreListed T.cmp (T.gives run.now.logs) run.now.logs list.items) }
{
    let mut list = Vec::new(alloc);
    for log in run.logs.as_slice() {
        add_run(&mut list, run, log.proc)?;
    }
    in_order(list)
}
