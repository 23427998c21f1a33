//! The explanation of a no.
ghost use Rattle.std.specs.Prelude.{◌≡◌, IfOk, map};

use crate::circle::shortened;
use crate::columns::{Focus, columns as side_by_side};
use crate::counts::Counts;
use crate::event::{event_at, place_name};
use crate::fitted::fitted;
use crate::missing::told_missing;
use crate::next::what_next;
use crate::parted::partings_told;
use crate::pass::Pass;
use crate::reason::Reason;
use crate::rule::rule_of;
use crate::shared::same_as;
use std::alloc::{AllocError, Global};
use totem_evs::{Fault, Run, SpecNo};
use totem_names::Place;

/// A fault and its explanation, which consists of whole lines.
#[derive(Debug, Drop)]
pub struct Explained {
    pub fault: Fault,
    pub text: String,
}

/// The explanation of a no: a heading, then each fault, what the run put to the test, and what to do next.
#[derive(Debug, Drop)]
pub struct ExplainedNo {
    pub heading: String,
    pub faults: Vec<Explained>,
    pub closing: String,
}

/// How many faults are explained in full.
const IN_FULL: usize = 100;

/// Returns a line for each place, which says what happened there.
fn events(alloc: Global, run: &Run, places: &[Place]) -> Result<String, AllocError> {
    let mut text = String::new(alloc);
    for place in places {
        let event = event_at(alloc, run, *place)?;
        let place = place_name(alloc, run.version, *place)?;
        write!(text, "  {place}  {event}\n")?;
    }
    Ok(text)
}

/// Returns the beginning of a fault's explanation: what is required, and what happened at its places.
fn beginning(alloc: Global, run: &Run, fault: &Fault) -> Result<String, AllocError> {
    let spec = fault.spec;
    let rule = rule_of(spec);
    let events = events(alloc, run, fault.places.as_slice())?;
    format!(in alloc; "Specification {spec}: {rule}\n{events}")
}

/// Returns the explanation of a fault that comes after these others.
fn told(
    alloc: Global,
    run: &Run,
    earlier: &[Fault],
    fault: &Fault,
    columns: usize,
) -> Result<String, AllocError> {
    let beginning = beginning(alloc, run, fault)?;
    let shown = shortened(alloc, run, fault)?;
    let places = shown.places.as_slice();
    let how = if places.len() < fault.places.as_slice().len() {
        ", by a shorter list of events"
    } else {
        ""
    };
    let Reason { text, absences } = Reason::of(alloc, run, &shown)?;
    let same = same_as(alloc, run, earlier, fault)?;
    let focus = Focus {
        run,
        places,
        absences: absences.as_slice(),
    };
    let lines = side_by_side(alloc, &focus, columns)?;
    let there = if absences.is_empty() {
        "The logs there:"
    } else {
        "The logs there (after a -: what is missing):"
    };
    format!(in alloc; "{beginning}Why it is broken{how}:\n{text}{same}{there}\n{lines}")
}

/// Explains each of these faults of the run, in order: the first 100 in full, the others by the rule and what happened at their
/// places.
fn explain_each(
    alloc: Global,
    run: &Run,
    faults: &[Fault],
    columns: usize,
) -> Result<Vec<Explained>, AllocError>
    ensures { IfOk result (λ list. map (λ one. one.fault) list.items ≡ faults.now) }
{
    let mut list = Vec::with_capacity(alloc, faults.len())?;
    for fault in faults {
        let index = list.len();
        let text = if index < IN_FULL {
            let earlier = faults.get(..index).unwrap_or(&[]);
            told(alloc, run, earlier, fault, columns)?
        } else {
            beginning(alloc, run, fault)?
        };
        list.push(Explained {
            fault: fault.try_clone(alloc)?,
            text: fitted(alloc, text.as_str(), columns)?,
        })?;
    }
    Ok(list)
}

/// Returns which specifications an audit that stopped at a fault of this one did not check, or nothing if it checked all.
fn unseen_behind(spec: SpecNo) -> &'static str {
    match Pass::of(spec) {
        Pass::A => {
            "Only specifications 1.4 and 2.1 to 2.4 were checked: the others are checked only in runs that meet these.\n"
        }
        Pass::B => {
            "Only specifications 1.3, 1.4 and 2.1 to 2.4 were checked: the others are checked only in runs that meet these.\n"
        }
        Pass::C => {
            "Specifications 3, 4, 5, 6.3, 7.1 and 7.2 were not checked: they are checked once the others hold.\n"
        }
        Pass::D => "",
    }
}

/// Returns the heading for these faults.
fn heading(
    alloc: Global,
    run: &Run,
    faults: &[Fault],
    counts: &Counts,
) -> Result<String, AllocError> {
    let summary = counts.size.summary(alloc, run)?;
    let unseen = stopped_by(faults).map_or("", unseen_behind);
    let mut text = format!(in alloc;
        "No: the run as recorded breaks extended virtual synchrony.\n{summary}{unseen}"
    )?;
    let first = IN_FULL;
    let count = faults.len();
    if count > first {
        write!(
            text,
            "Of {count} faults the first {first} are explained in full.\n"
        )?;
    }
    Ok(text)
}

/// Returns, after an empty line, where a run with these faults parted, what quiet logs lack, if that was looked for, what the run put to the
/// test, and what to do next.
fn closing(
    alloc: Global,
    run: &Run,
    faults: &[Fault],
    counts: &Counts,
) -> Result<String, AllocError> {
    let partings = partings_told(alloc, run)?;
    let stopped = stopped_by(faults);
    let missing = match stopped.map(Pass::of) {
        None | Some(Pass::D) => told_missing(alloc, run, counts)?,
        _ => String::new(alloc),
    };
    let told = counts.told(alloc, stopped)?;
    let next = what_next(alloc, run, faults)?;
    format!(in alloc; "\n{partings}{missing}{told}{next}")
}

/// Returns the specification at which an audit with these faults stopped.
pub fn stopped_by(faults: &[Fault]) -> Option<SpecNo> {
    faults.first().map(|fault| fault.spec)
}

/// Explains the no of a run: how much was judged, each of these faults in order, what the run put to the test, which are its counts, and what
/// to do next. Only the first 100 faults are explained in full. A line has at most this many columns, unless a word is longer.
pub fn explain_no(
    alloc: Global,
    run: &Run,
    faults: &[Fault],
    counts: &Counts,
    columns: usize,
) -> Result<ExplainedNo, AllocError>
    ensures { IfOk result (λ words. map (λ one. one.fault) words.faults.items ≡ faults.now) }
{
    Ok(ExplainedNo {
        heading: fitted(
            alloc,
            heading(alloc, run, faults, counts)?.as_str(),
            columns,
        )?,
        faults: explain_each(alloc, run, faults, columns)?,
        closing: fitted(
            alloc,
            closing(alloc, run, faults, counts)?.as_str(),
            columns,
        )?,
    })
}
