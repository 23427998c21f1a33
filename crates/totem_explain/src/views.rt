//! The membership of a run: its regular configurations, who came to each from where, and what happened there (docs/PROGRAM.md,
//! "The membership").
use crate::event::spaced;
use crate::fate::word_of;
use crate::fitted::fitted;
use crate::groups::add_to_group;
use crate::lookup::entry_at;
use crate::survey::Survey;
use crate::visits::{Visit, Visits};
use std::alloc::{AllocError, Global};
use totem_evs::{Ending, Entry, Run};
use totem_names::{ConfId, Proc};

/// Returns the members of the configuration of a visit.
fn members_of<'r>(run: &'r Run, visit: &Visit) -> &'r [Proc] {
    match entry_at(run, visit.place) {
        Some(Entry::Conf(_, members)) => members.as_slice(),
        _ => &[],
    }
}

/// Returns by which way a process came to a configuration: from which regular one, and by which transitional one.
fn way_told(
    alloc: Global,
    from: Option<ConfId>,
    through: Option<ConfId>,
) -> Result<String, AllocError> {
    match (from, through) {
        (Some(from), Some(through)) => format!(in alloc; "from {from} by {through}"),
        (Some(from), None) => format!(in alloc; "from {from}"),
        (None, Some(through)) => format!(in alloc; "by {through}"),
        (None, None) => format!(in alloc; "began here"),
    }
}

/// Returns how and where a log ends: in which transitional configuration, if in one.
fn end_told(alloc: Global, ending: Ending, ends_in: Option<ConfId>) -> Result<String, AllocError> {
    let word = word_of(ending);
    match ends_in {
        Some(conf) => format!(in alloc; "{word} in {conf}"),
        None => format!(in alloc; "{word} here"),
    }
}

/// Adds a line about these processes, or nothing if there are none.
fn push_line(
    alloc: Global,
    text: &mut String,
    run: &Run,
    what: &str,
    procs: &[Proc],
) -> Result<(), AllocError> {
    if procs.is_empty() {
        return Ok(());
    }
    let procs = spaced(alloc, run.version, procs)?;
    write!(text, "  {what}:{procs}\n")
}

/// Adds a line for each way by which processes came to a configuration.
fn push_ways(
    alloc: Global,
    text: &mut String,
    run: &Run,
    visits: &[Visit],
) -> Result<(), AllocError> {
    let mut ways = Vec::new(alloc);
    for visit in visits {
        add_to_group(
            alloc,
            &mut ways,
            (visit.from, visit.through),
            visit.proc,
            None,
        )?;
    }
    for way in &ways {
        let (from, through) = way.shared;
        let told = way_told(alloc, from, through)?;
        push_line(alloc, text, run, told.as_str(), way.procs.as_slice())?;
    }
    Ok(())
}

/// Adds a line for each way in which logs end in a configuration.
fn push_ends(
    alloc: Global,
    text: &mut String,
    run: &Run,
    visits: &[Visit],
) -> Result<(), AllocError> {
    let mut ends = Vec::new(alloc);
    for visit in visits {
        if let Some(ending) = visit.ending {
            add_to_group(alloc, &mut ends, (ending, visit.ends_in), visit.proc, None)?;
        }
    }
    for end in &ends {
        let (ending, ends_in) = end.shared;
        let told = end_told(alloc, ending, ends_in)?;
        push_line(alloc, text, run, told.as_str(), end.procs.as_slice())?;
    }
    Ok(())
}

/// Returns the members that never came.
fn absent(alloc: Global, members: &[Proc], visits: &[Visit]) -> Result<Vec<Proc>, AllocError> {
    let mut procs = Vec::new(alloc);
    for member in members {
        if !visits.iter().any(|visit| visit.proc == *member) {
            procs.push(*member)?;
        }
    }
    Ok(procs)
}

/// Returns how much was sent and delivered in a configuration.
fn traffic_of(alloc: Global, visits: &[Visit]) -> Result<String, AllocError> {
    let mut sends = 0u32;
    let mut deliveries = 0u32;
    let mut later = 0u32;
    for visit in visits {
        sends = sends.saturating_add(visit.sends);
        deliveries = deliveries.saturating_add(visit.deliveries);
        later = later.saturating_add(visit.later);
    }
    if later == 0 {
        return format!(in alloc; "  sends {sends}, deliveries {deliveries}\n");
    }
    format!(in alloc;
        "  sends {sends}, deliveries {deliveries}, of these on the way to the next one {later}\n"
    )
}

/// Adds a configuration with all visits of it.
fn push_view(
    alloc: Global,
    text: &mut String,
    run: &Run,
    visits: &[Visit],
) -> Result<(), AllocError> {
    let Some(first) = visits.first() else {
        return Ok(());
    };
    let conf = first.conf;
    let members = members_of(run, first);
    let names = spaced(alloc, run.version, members)?;
    write!(text, "\n{conf}, members{names}\n")?;
    push_ways(alloc, text, run, visits)?;
    let absent = absent(alloc, members, visits)?;
    push_line(alloc, text, run, "never came", absent.as_slice())?;
    text.push_str(traffic_of(alloc, visits)?.as_str())?;
    push_ends(alloc, text, run, visits)
}

/// Returns the visits of a configuration, from a list in ascending order of configurations.
fn visits_of<'v>(list: &'v [Visit], conf: &ConfId) -> &'v [Visit] {
    let from = list.partition_point(|visit| visit.conf.is_below(conf));
    let rest = list.get(from..).unwrap_or(&[]);
    let count = rest.partition_point(|visit| visit.conf.is(conf));
    rest.get(..count).unwrap_or(&[])
}

/// Describes the membership of a run: its regular configurations, in an order that fits all logs. A line has at most this many columns,
/// unless a word is longer.
pub fn explain_views(alloc: Global, run: &Run, columns: usize) -> Result<String, AllocError> {
    let mut text = Survey::of(alloc, run)?.size.summary(alloc, run)?;
    let mut visits = Visits::of(alloc, run)?;
    let order = visits.order(alloc)?;
    let mut list = visits.list;
    list.sort_by_key(|visit| visit.conf)?;
    for conf in &order {
        push_view(alloc, &mut text, run, visits_of(list.as_slice(), conf))?;
    }
    fitted(alloc, text.as_str(), columns)
}
