//! The program's calls: totem_cluster.
use std::alloc::{AllocError, Global};
pub use totem_cluster::{
    BookTrouble, IoFault, Outcome, RingMove, RunPlan, WeaveFault, Workers, Woven, audit_io,
    check_io, program, run_threads, sim_io, weave,
};

pub fn copies(
    alloc: Global,
    woven: &Woven,
    step: &RingMove,
    fault: &IoFault,
) -> Result<(), AllocError> {
    let _ = woven.try_clone(alloc)?;
    let _ = step.try_clone(alloc)?;
    let _ = fault.try_clone(alloc)?;
    Ok(())
}
