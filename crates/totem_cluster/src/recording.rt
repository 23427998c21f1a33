//! Runs of nodes in threads.
ghost use Rattle.std.specs.Prelude.{◌≡◌, [], All, IfOk, IfErr};
ghost use Rattle.totem_names.specs.Writing.{held};
ghost use Rattle.totem_names.specs.declared.version.Version.TheVariants.{One};
ghost use Rattle.totem_evs.specs.Lives.{HasFirstLives};
ghost use Rattle.totem_threads.specs.Starts.{IsInRange};
ghost use Rattle.totem_threads.specs.Books.{IsRunOf};
ghost use Rattle.totem_cluster.specs.RunIo.{Records, IsOfThreads};

use crate::io_fault::IoFault;
use crate::tally::tally_of;
use std::alloc::Global;
use std::sync::Wait;
use std::thread::Threads;
use totem_books::ClosedBook;
use totem_evs::{Run, write_run};
use totem_names::Sink;
use totem_net::{Progress, Quiet, Start, Unwatched};
use totem_threads::{RunPlan, run_nodes};
use totem_verdicts::Outcome;

/// Runs this many nodes in threads, on ring 4.1, over a network that follows the plan, until the ticks are used up
/// (docs/PROTOCOL.md, "A run in threads"). The receiving thread of each node calls `start.begun` before it receives. Waits for
/// all threads, and returns the run that the nodes recorded, in version 1, with their books in ascending order. No contract says which run
/// comes out; docs/PROTOCOL.md, "The network", does.
pub fn run_threads<S: Start, R: Threads + Wait + Sync>(
    rt: &R,
    alloc: Global,
    plan: RunPlan,
    start: &S,
) -> Result<(Run, Vec<ClosedBook>), IoFault>
    requires { IsInRange plan }
    ensures run { IfOk result (λ made. IsRunOf plan.nodes made.1.items made.0.logs) }
    ensures version { IfOk result (λ made. made.0.version ≡ One) }
    ensures lives { IfOk result (λ made. All HasFirstLives made.0.logs) }
    ensures faults { IfErr result IsOfThreads }
{
    run_watched(rt, alloc, plan, start, &mut Unwatched)
}

/// Does the same as `run_threads`, and reports the progress at each tick, and in the end what came of the run.
pub(crate) fn run_watched<S: Start, R: Threads + Wait + Sync, P: Progress>(
    rt: &R,
    alloc: Global,
    plan: RunPlan,
    start: &S,
    progress: &mut P,
) -> Result<(Run, Vec<ClosedBook>), IoFault>
    requires { IsInRange plan }
    ensures run { IfOk result (λ made. IsRunOf plan.nodes made.1.items made.0.logs) }
    ensures version { IfOk result (λ made. made.0.version ≡ One) }
    ensures lives { IfOk result (λ made. All HasFirstLives made.0.logs) }
    ensures faults { IfErr result IsOfThreads }
{
    match run_nodes(rt, alloc, plan, start, progress) {
        Ok(made) => {
            progress.ended(tally_of(alloc, &made.0).ok());
            Ok(made)
        }
        Err(fault) => {
            progress.ended(None);
            Err(IoFault::from(fault))
        }
    }
}

/// Runs nodes in threads, and writes the run that they record. Reports the progress at each tick, and what came of the run before it is
/// written.
pub fn run_io<R: Threads + Wait + Sync, W: Sink, P: Progress>(
    rt: &R,
    alloc: Global,
    plan: RunPlan,
    output: &mut W,
    progress: &mut P,
) -> Result<Outcome, IoFault>
    requires { IsInRange plan }
    ensures { Records plan.nodes (held W.contents W.failures [] output.old) (held W.contents W.failures [] output.new) result }
{
    let (run, _) = run_watched(rt, alloc, plan, &Quiet, progress)?;
    write_run(alloc, &run, output)?;
    Ok(Outcome::Made)
}
