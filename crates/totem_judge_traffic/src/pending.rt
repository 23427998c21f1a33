//! What is pending in one regular configuration (docs/SPECIFICATIONS.md, "Pending and waiting").
ghost use Rattle.std.specs.Prelude.{◌≡◌, ◌<◌, [], ◌∷◌, ◌++◌, length, OnOk};
ghost use Rattle.totem_judge_traffic.specs.Pending.{AddsMissing, AddsPending};

use crate::traffic::{Sent, Traffic};
use std::alloc::AllocError;
use totem_evs::Pending;
use totem_names::Proc;

/// Appends what is pending. If there is no room for it, room for it and what may come after it is taken.
fn push_one(out: &mut Vec<Pending>, pending: Pending, left: usize) -> Result<(), AllocError>
    ensures { OnOk result (out.new.items ≡ out.old.items ++ pending ∷ []) }
{
    if out.len() == out.capacity() {
        out.reserve(left)?;
    }
    out.push(pending)?;
    Ok(())
}

/// Appends the messages that this process's log, which is open in the configuration, does not deliver there. A log that lacks one usually
/// lacks all after it.
fn push_missing(
    sent: &[Sent],
    log: u32,
    proc: Proc,
    out: &mut Vec<Pending>,
) -> Result<(), AllocError>
    requires { log < 32 }
    ensures { OnOk result (AddsMissing sent.now (length sent.now) log proc out.old.items out.new.items) }
{
    for (at, message) in sent.iter().enumerate() {
        if !message.by.contains(log) {
            let msg = message.message;
            push_one(out, Pending { proc, msg }, sent.len() - at)?;
        }
    }
    Ok(())
}

/// Appends the messages of the configuration that are pending for the process of this log.
#[tactic(auto, using(crate::proofs::Missing::none_pending, crate::proofs::Missing::missing_pending))]
pub fn push_pending(
    traffic: &Traffic,
    log: u32,
    proc: Proc,
    out: &mut Vec<Pending>,
) -> Result<(), AllocError>
    requires { log < 32 }
    ensures { OnOk result (AddsPending traffic.now log proc out.old.items out.new.items) }
{
    if !traffic.open.contains(log) {
        return Ok(());
    }
    push_missing(&traffic.sent, log, proc, out)
}
