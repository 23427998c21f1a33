//! The explanation of a yes. What a yes of the checker depends on is in totem_check, `checker`.
use crate::counts::Counts;
use crate::fate::{Number, course_of};
use crate::fitted::fitted;
use crate::groups::{Range, add_to_range};
use crate::members::bracketed;
use crate::missing::told_missing;
use crate::parted::partings_told;
use std::alloc::{AllocError, Global};
use totem_evs::{Pending, Run, Waiting};
use totem_names::Version;

/// How many lines about deliveries are shown.
const SHOWN: usize = 20;

/// Returns a line for each process and ring with deliveries that the process lacks, and says by `does` what it does with the messages.
pub fn delivery_lines(
    alloc: Global,
    version: Version,
    list: &[Pending],
    does: &str,
) -> Result<String, AllocError> {
    let mut ranges = Vec::new(alloc);
    for Pending { proc, msg } in list {
        add_to_range(&mut ranges, *proc, *msg)?;
    }
    let mut text = String::new(alloc);
    for range in ranges.iter().take(SHOWN) {
        let proc = range.shared.written(version);
        let Range {
            first,
            last,
            count,
            ..
        } = range;
        if *count == 1 {
            write!(text, "  process {proc} {does} {first}\n")?;
        } else {
            write!(
                text,
                "  process {proc} {does} {count} messages, {first} to {last}\n"
            )?;
        }
    }
    let more = ranges.len().saturating_sub(SHOWN);
    if more > 0 {
        write!(text, "  and {more} more lines like these\n")?;
    }
    Ok(text)
}

/// Returns a line for each two processes of which one waits for the other, with what happened to the other.
fn waiting_lines(alloc: Global, run: &Run, list: &[Waiting]) -> Result<String, AllocError> {
    let mut text = String::new(alloc);
    for Waiting { proc, conf, other } in list {
        let course = course_of(run, *other, conf);
        let told = course.fate.told(alloc, Number::One)?;
        let place = match course.place {
            Some(place) => bracketed(alloc, run.version, &[place])?,
            None => String::new(alloc),
        };
        let proc = proc.written(run.version);
        let other = other.written(run.version);
        write!(
            text,
            "  process {proc} is in {conf} and waits for {other}, which {told}{place}\n"
        )?;
    }
    Ok(text)
}

/// Adds a heading with its lines, or nothing if there are no lines.
fn push_headed(text: &mut String, heading: &str, lines: &str) -> Result<(), AllocError> {
    if lines.is_empty() {
        return Ok(());
    }
    write!(text, "{heading}\n{lines}")
}

/// Explains the yes of a run: how much was judged, what is pending, which processes wait for which, and what the run put to the test,
/// which are its counts. Both lists are expected to be ascending, as the audit returns them. A line has at most this many columns, unless
/// a word is longer.
pub fn explain_yes(
    alloc: Global,
    run: &Run,
    pending: &[Pending],
    waiting: &[Waiting],
    counts: &Counts,
    columns: usize,
) -> Result<String, AllocError> {
    let mut text = String::from_str(alloc, "Yes: the run meets specifications 1 to 7.\n")?;
    text.push_str(counts.size.summary(alloc, run)?.as_str())?;
    if pending.is_empty() && waiting.is_empty() {
        text.push_str("Nothing is pending, and no process waits.\n")?;
    }
    push_headed(
        &mut text,
        "Pending, which is not a fault:",
        delivery_lines(alloc, run.version, pending, "may still deliver")?.as_str(),
    )?;
    push_headed(
        &mut text,
        "Waiting, which is not a fault:",
        waiting_lines(alloc, run, waiting)?.as_str(),
    )?;
    text.push_str(partings_told(alloc, run)?.as_str())?;
    text.push_str(told_missing(alloc, run, counts)?.as_str())?;
    text.push_str(counts.told(alloc, None)?.as_str())?;
    fitted(alloc, text.as_str(), columns)
}
