//! What became of one message in a run (docs/PROGRAM.md, "One message").
use crate::event::{event_of, place_name};
use crate::fate::{Number, course_of};
use crate::fitted::fitted;
use crate::lookup::{change_in, origin_of, place_of};
use crate::members::{Member, named, told_together};
use std::alloc::{AllocError, Global};
use totem_evs::{Entry, Log, Run};
use totem_names::{ConfId, MsgId, Proc};

/// What became of a message, in whole lines.
#[derive(Debug, Drop)]
pub struct Traced {
    pub text: String,
    /// Whether a log sends or delivers it.
    pub is_found: bool,
}

/// The lines about what happened to a message.
#[derive(Drop)]
struct Trace {
    sends: String,
    deliveries: String,
    /// The processes that don't deliver it.
    without: Vec<Proc>,
}

impl Trace {
    /// Adds what a log does with the message.
    fn add_log(
        &mut self,
        alloc: Global,
        run: &Run,
        log: &Log,
        message: MsgId,
    ) -> Result<(), AllocError> {
        let mut is_without = true;
        for (index, entry) in log.entries.as_slice().iter().enumerate() {
            let lines = match entry {
                Entry::Send(sent, _, _) if *sent == message => &mut self.sends,
                Entry::Deliver(delivered, _) if *delivered == message => {
                    is_without = false;
                    &mut self.deliveries
                }
                _ => continue,
            };
            let event = event_of(alloc, run.version, log.proc, entry)?;
            let place = place_name(alloc, run.version, place_of(log, index))?;
            write!(lines, "  {place}  {event}\n")?;
        }
        if is_without {
            self.without.push(log.proc)?;
        }
        Ok(())
    }
}

/// Returns whether some change to a configuration lists this process.
fn is_member(run: &Run, conf: &ConfId, proc: Proc) -> bool {
    run.logs.as_slice().iter().any(|log| {
        log.entries.as_slice().iter().any(|entry| match entry {
            Entry::Conf(to, members) => to.is(conf) && members.as_slice().contains(&proc),
            _ => false,
        })
    })
}

/// Returns where the processes were that did not deliver a message of this configuration.
fn elsewhere(
    alloc: Global,
    run: &Run,
    conf: &ConfId,
    without: &[Proc],
) -> Result<String, AllocError> {
    if without.is_empty() {
        return Ok(String::new(alloc));
    }
    let mut logs = run.logs.as_slice().iter();
    if !logs.any(|log| change_in(log, conf).is_some()) {
        let procs = named(alloc, run.version, without)?;
        return format!(in alloc; "  {procs}: no log changes to {conf}.\n");
    }
    let mut members = Vec::new(alloc);
    let mut others = Vec::new(alloc);
    for proc in without {
        if is_member(run, conf, *proc) {
            members.push(Member {
                proc: *proc,
                course: course_of(run, *proc, conf),
            })?;
        } else {
            others.push(*proc)?;
        }
    }
    let mut text = told_together(alloc, run.version, "", members.as_slice())?;
    if !others.is_empty() {
        let procs = named(alloc, run.version, others.as_slice())?;
        let was = Number::of(others.len()).form("was no member", "were no members");
        write!(text, "  {procs} {was} of {conf}.\n")?;
    }
    Ok(text)
}

/// Adds which of the processes that don't deliver a message deliver one of the same ring with a greater number.
fn push_greater(
    alloc: Global,
    text: &mut String,
    run: &Run,
    message: MsgId,
    without: &[Proc],
) -> Result<(), AllocError> {
    for log in run.logs.as_slice() {
        let mut entries = log.entries.as_slice().iter().enumerate();
        let greater = entries.find(|(_, entry)| match entry {
            Entry::Deliver(other, _) => other.ring == message.ring && message.is_below(other),
            _ => false,
        });
        if let Some((index, entry)) = greater.filter(|_| without.contains(&log.proc)) {
            let event = event_of(alloc, run.version, log.proc, entry)?;
            let place = place_name(alloc, run.version, place_of(log, index))?;
            write!(
                text,
                "  But {event}, which has a greater number ({place}).\n"
            )?;
        }
    }
    Ok(())
}

/// Adds lines under a heading, or a sentence if there are none.
fn push_part(text: &mut String, heading: &str, lines: &str, none: &str) -> Result<(), AllocError> {
    if lines.is_empty() {
        return write!(text, "{none}\n");
    }
    write!(text, "{heading}\n{lines}")
}

/// Says of a message where it was sent, who delivered it where, and where those were who did not. A line has at most this many columns,
/// unless a word is longer.
pub fn explain_message(
    alloc: Global,
    run: &Run,
    message: MsgId,
    columns: usize,
) -> Result<Traced, AllocError> {
    let mut trace = Trace {
        sends: String::new(alloc),
        deliveries: String::new(alloc),
        without: Vec::new(alloc),
    };
    for log in run.logs.as_slice() {
        trace.add_log(alloc, run, log, message)?;
    }
    if trace.sends.is_empty() && trace.deliveries.is_empty() {
        return Ok(Traced {
            text: format!(in alloc; "No log sends or delivers {message}.\n")?,
            is_found: false,
        });
    }
    let mut text = format!(in alloc; "Message {message}\n")?;
    push_part(&mut text, "Sent:", trace.sends.as_str(), "No log sends it.")?;
    push_part(
        &mut text,
        "Delivered:",
        trace.deliveries.as_str(),
        "No log delivers it.",
    )?;
    let conf = origin_of(run, message);
    let mut elsewhere = elsewhere(alloc, run, &conf, trace.without.as_slice())?;
    push_greater(
        alloc,
        &mut elsewhere,
        run,
        message,
        trace.without.as_slice(),
    )?;
    push_part(
        &mut text,
        "Not delivered:",
        elsewhere.as_str(),
        "Each log delivers it.",
    )?;
    Ok(Traced {
        text: fitted(alloc, text.as_str(), columns)?,
        is_found: true,
    })
}
