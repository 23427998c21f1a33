//! Partings as text: in words, and as lines for programs (docs/SPECIFICATIONS.md, "Apart").
use crate::apart::{Alone, Apart, Held, Parting};
use crate::event::spaced;
use crate::fate::{Fate, Number, word_of};
use crate::groups::{Range, add_to_range};
use crate::members::named;
use std::alloc::{AllocError, Global};
use totem_evs::Run;
use totem_names::{ConfId, Version};

/// How many partings are told in full.
const IN_FULL: usize = 20;

const REPAIR: &str =
    "The replicas of the sides may differ by these messages, which is no fault by itself. `totem explain --apart` lists them, and docs/REPAIR.md says what to do.\n";

/// Who has and who lacks some messages.
#[derive(Clone, Copy, PartialEq, Eq)]
struct Split {
    have: u32,
    lack: u32,
    /// How many messages before them are not apart.
    skipped: usize,
}

/// Returns the messages that one log has and another one lacks.
fn ranges(alloc: Global, apart: &Apart) -> Result<Vec<Range<Split>>, AllocError> {
    let mut ranges = Vec::new(alloc);
    let mut skipped = 0usize;
    for (index, Held { have, lack, .. }) in apart.held.iter().enumerate() {
        if *lack == 0 {
            skipped = skipped.saturating_add(1);
        } else if let Some(message) = apart.names.message(index) {
            let split = Split {
                have: *have,
                lack: *lack,
                skipped,
            };
            add_to_range(&mut ranges, split, message)?;
        }
    }
    Ok(ranges)
}

/// Returns the processes of these logs, each preceded by a space.
fn listed(alloc: Global, run: &Run, logs: u32) -> Result<String, AllocError> {
    let mut procs = Vec::new(alloc);
    let mut bit = 1u32;
    for log in run.logs.as_slice() {
        if logs & bit != 0 {
            procs.push(log.proc)?;
        }
        bit <<= 1;
    }
    spaced(alloc, run.version, procs.as_slice())
}

/// Returns these configurations with this text between them.
fn joined(alloc: Global, confs: &[ConfId], between: &str) -> Result<String, AllocError> {
    let mut text = String::new(alloc);
    for conf in confs {
        if !text.is_empty() {
            text.push_str(between)?;
        }
        write!(text, "{conf}")?;
    }
    Ok(text)
}

/// Adds the lines of a parting and of its sides.
fn push_parting(
    alloc: Global,
    text: &mut String,
    version: Version,
    parting: &Parting,
) -> Result<(), AllocError> {
    let conf = parting.conf;
    write!(text, "parting {conf}")?;
    if !parting.together.is_empty() {
        let together = joined(alloc, parting.together.as_slice(), " ")?;
        write!(text, " together {together}")?;
    }
    text.push_str(if parting.is_never { " never\n" } else { "\n" })?;
    for (side, alone) in parting.sides.iter().zip(parting.alone.iter()) {
        let Alone { sends, deliveries } = alone;
        let procs = spaced(alloc, version, side.procs.as_slice())?;
        let way = match side.shared.fate {
            Fate::WentOn(to) => format!(in alloc; "to {to}")?,
            Fate::Ended(_, ending) => String::from_str(alloc, word_of(ending))?,
            _ => String::new(alloc),
        };
        write!(
            text,
            "side {conf} {way} by{procs} sends {sends} delivers {deliveries}\n"
        )?;
    }
    Ok(())
}

/// Returns a line for each parting, for each side, and for the messages that one log has and another one lacks, between the verdict and `end`.
pub fn apart_lines(alloc: Global, run: &Run, is_yes: bool) -> Result<String, AllocError> {
    let apart = Apart::of(alloc, run)?;
    let verdict = if is_yes { "yes" } else { "no" };
    let mut text = format!(in alloc; "verdict {verdict}\n")?;
    for parting in &apart.partings {
        push_parting(alloc, &mut text, run.version, parting)?;
    }
    for Range {
        shared,
        first,
        last,
        count,
    } in &ranges(alloc, &apart)? {
        let have = listed(alloc, run, shared.have)?;
        let lack = listed(alloc, run, shared.lack)?;
        write!(text, "apart {first} {last} {count} has{have} lacks{lack}\n")?;
    }
    text.push_str("end\n")?;
    Ok(text)
}

/// Adds where logs came together again after a parting.
fn push_together(alloc: Global, text: &mut String, parting: &Parting) -> Result<(), AllocError> {
    let confs = joined(alloc, parting.together.as_slice(), ", ")?;
    match (parting.together.is_empty(), parting.is_never) {
        (true, true) => text.push_str("  They have not come together again.\n"),
        (true, false) => Ok(()),
        (false, true) => write!(
            text,
            "  They came together again in {confs}, but not all of them.\n"
        ),
        (false, false) => write!(text, "  They came together again in {confs}.\n"),
    }
}

/// Adds a parting in words.
fn tell(
    alloc: Global,
    text: &mut String,
    version: Version,
    parting: &Parting,
) -> Result<(), AllocError> {
    let conf = parting.conf;
    write!(text, "After {conf} the group parted:\n")?;
    for (side, alone) in parting.sides.iter().zip(parting.alone.iter()) {
        let Alone { sends, deliveries } = alone;
        let number = Number::of(side.procs.len());
        let it = number.form("it", "they");
        let procs = named(alloc, version, side.procs.as_slice())?;
        let told = side.shared.fate.told(alloc, number)?;
        write!(text, "  {procs} {told}")?;
        if *sends > 0 || *deliveries > 0 {
            write!(
                text,
                "; of messages that others lack, {it} sent {sends} and delivered {deliveries}"
            )?;
        }
        text.push_str(".\n")?;
    }
    push_together(alloc, text, parting)
}

/// Returns the partings of a run in words, and nothing if there are none.
pub fn partings_told(alloc: Global, run: &Run) -> Result<String, AllocError> {
    let partings = Apart::of(alloc, run)?.partings;
    let mut text = String::new(alloc);
    for parting in partings.iter().take(IN_FULL) {
        tell(alloc, &mut text, run.version, parting)?;
    }
    let further = partings.len().saturating_sub(IN_FULL);
    if further > 0 {
        write!(text, "It parted {further} more times.\n")?;
    }
    if partings.iter().any(|parting| parting.has_apart()) {
        text.push_str(REPAIR)?;
    }
    Ok(text)
}
