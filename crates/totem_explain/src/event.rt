//! The text of a log's entry, as its line and as a sentence.
ghost use Rattle.std.specs.Prelude.{◌≡◌, IfOk};
ghost use Rattle.std.specs.String.{string_bytes};
ghost use Rattle.totem_names.specs.Processes.{process_text};
ghost use Rattle.totem_evs.specs.RunText.{entry_text, members_text};

use crate::lookup::entry_at;
use std::alloc::{AllocError, Global};
use totem_evs::{Entry, Run};
use totem_names::{Place, Proc, Service, Version};

/// Returns a place as texts of this version write it, as in `2@5`.
pub fn place_name(alloc: Global, version: Version, place: Place) -> Result<String, AllocError> {
    let proc = place.proc.written(version);
    let at = place.at;
    format!(in alloc; "{proc}@{at}")
}

/// Returns the processes as texts of this version write them, each preceded by a space.
pub(crate) fn spaced(alloc: Global, version: Version, procs: &[Proc]) -> Result<String, AllocError>
    ensures { IfOk result (λ text. string_bytes text ≡ members_text (process_text version) procs.now) }
{
    let mut text = String::new(alloc);
    for proc in procs {
        let proc = proc.written(version);
        text.push_str(" ")?;
        text.push_str(format!(in alloc; "{proc}")?.as_str())?;
    }
    Ok(text)
}

/// Returns the entry's line in a run text of this version, without its end, as in `send r4.1 a 4.1#1`.
pub fn line_of(alloc: Global, version: Version, entry: &Entry) -> Result<String, AllocError>
    ensures { IfOk result (λ text. string_bytes text ≡ entry_text (process_text version) entry.now) }
{
    match entry {
        Entry::Conf(conf, members) => {
            let members = spaced(alloc, version, members.as_slice())?;
            format!(in alloc; "conf {conf}{members}")
        }
        Entry::Send(_, _, _) | Entry::Deliver(_, _) | Entry::Fail(_) => {
            format!(in alloc; "{entry}")
        }
    }
}

fn service_name(service: Service) -> &'static str {
    match service {
        Service::Agreed => "an agreed message",
        Service::Safe => "a safe message",
    }
}

/// Returns a sentence about what a process did by the entry, as in `process 2 delivered 4.1#1 in r4.1`.
pub fn event_of(
    alloc: Global,
    version: Version,
    proc: Proc,
    entry: &Entry,
) -> Result<String, AllocError> {
    let proc = proc.written(version);
    match entry {
        Entry::Conf(conf, members) => {
            let members = spaced(alloc, version, members.as_slice())?;
            format!(in alloc; "process {proc} changed to {conf}, whose members are{members}")
        }
        Entry::Send(message, conf, service) => {
            let service = service_name(*service);
            format!(in alloc; "process {proc} sent {message} in {conf}, {service}")
        }
        Entry::Deliver(message, conf) => {
            format!(in alloc; "process {proc} delivered {message} in {conf}")
        }
        Entry::Fail(conf) => format!(in alloc; "process {proc} failed in {conf}"),
    }
}

/// Returns a sentence about what happened at a place of the run.
pub fn event_at(alloc: Global, run: &Run, place: Place) -> Result<String, AllocError> {
    match entry_at(run, place) {
        Some(entry) => event_of(alloc, run.version, place.proc, entry),
        None => String::from_str(alloc, "no entry of this run"),
    }
}
