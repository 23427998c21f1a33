//! What one walk over a run finds: how many entries of each kind it has, its configurations, and the messages that it sends.
ghost use Rattle.std.specs.Prelude.{[], ◌≤◌, length, IfOk};
ghost use Rattle.totem_explain.specs.Sizes.{AddUp, IsSizeOf, IsWithin, all_entries};

use crate::messages::Messages;
use crate::sites::Sites;
use crate::size::Size;
use std::alloc::{AllocError, Global};
use totem_evs::{Entry, Log, Run};

/// What a run has.
#[derive(Drop)]
pub struct Survey {
    pub size: Size,
    pub sites: Sites,
    pub messages: Messages,
}

/// Adds what the entries of a log are. `bit` stands for the log.
#[tactic(auto, using(crate::proofs::Sizing::added, crate::proofs::Sizing::grown))]
fn add_log(
    run: &Run,
    size: &mut Size,
    sites: &mut Sites,
    messages: &mut Messages,
    bit: u32,
    entries: &[Entry],
) -> Result<(), AllocError>
    requires few { length entries.now ≤ 1000000 }
    requires room { IsWithin size.old 31000000 }
    ensures { IfOk result (λ done. AddUp size.old entries.now size.new []) }
{
    for entry in entries {
        size.add(entry);
        match entry {
            Entry::Conf(conf, members) => sites.add(run, bit, conf, members.as_slice())?,
            Entry::Send(message, _, _) => messages.add(message)?,
            _ => {}
        }
    }
    sites.end_log()
}

fn add_logs(
    run: &Run,
    size: &mut Size,
    sites: &mut Sites,
    messages: &mut Messages,
    logs: &[Log],
) -> Result<(), AllocError>
    requires few { length logs.now ≤ 32 }
    requires none { IsWithin size.old 0 }
    ensures { IfOk result (λ done. AddUp size.old (all_entries logs.now) size.new []) }
{
    let mut bit = 1u32;
    for log in logs {
        add_log(run, size, sites, messages, bit, log.entries.as_slice())?;
        bit <<= 1;
    }
    Ok(())
}

impl Survey {
    /// Walks over a run.
    #[tactic(auto, using(crate::proofs::Sizing::sized))]
    pub fn of(alloc: Global, run: &Run) -> Result<Survey, AllocError>
        ensures { IfOk result (λ survey. IsSizeOf (all_entries run.now.logs) survey.size) }
    {
        let mut size = Size::none();
        let mut sites = Sites::none(alloc);
        let mut messages = Messages::none(alloc);
        add_logs(
            run,
            &mut size,
            &mut sites,
            &mut messages,
            run.logs.as_slice(),
        )?;
        sites.link();
        messages.number()?;
        Ok(Survey {
            size,
            sites,
            messages,
        })
    }
}
