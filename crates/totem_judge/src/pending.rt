//! What is pending in a run, according to the traffic of its configurations (docs/SPECIFICATIONS.md, "Pending and waiting").
ghost use Rattle.std.specs.Prelude.{◌≤◌, OnOk, length};
ghost use Rattle.totem_judge.specs.Pending.{AddsAll};

use std::alloc::AllocError;
use totem_evs::{Log, Pending};
use totem_judge_traffic::{Traffic, push_pending};

/// Appends what is pending in one configuration.
pub fn add_pending(
    traffic: &Traffic,
    logs: &[Log],
    out: &mut Vec<Pending>,
) -> Result<(), AllocError>
    requires { length logs.now ≤ 32 }
    ensures { OnOk result (AddsAll traffic.now logs.now (length logs.now) out.old.items out.new.items) }
{
    for index in 0..logs.len() {
        let log = &logs[index];
        push_pending(traffic, index as u32, log.proc, out)?;
    }
    Ok(())
}
