//! Writes the text of a run.
ghost use Rattle.std.specs.Prelude.{◌≡◌, [], ◌∷◌, ◌++◌, codes};
ghost use Rattle.std.specs.List.{flat_map};
ghost use Rattle.totem_names.specs.Writing.{Writes, held};
ghost use Rattle.totem_names.specs.Processes.{process_text};
ghost use Rattle.totem_evs.specs.RunText.{line, members_text, entry_text, ending_text, log_text, version_digit, run_text};
ghost use Rattle.totem_evs.specs.Heads.{first_line};
ghost use Rattle.totem_evs.specs.WriteRun.{WritesText};

use crate::ending::Ending;
use crate::entry::Entry;
use crate::form::{Form, RunText};
use crate::log::Log;
use crate::members::Members;
use crate::run::Run;
use std::alloc::Global;
use thiserror::Error;
use totem_names::{Failed, Pieces, Sink, Version};

/// Why a text could not be written.
#[derive(Clone, Copy, Debug, PartialEq, Eq, Error)]
pub enum WriteFault {
    /// Out of memory; nothing was written.
    #[error("out of memory")]
    Memory,
    /// The sink failed. How much was written is not known.
    #[error("write failed")]
    Write,
}

impl WriteFault {
    ghost use Rattle.totem_evs.specs.WriteFaults.{fault_number, fault_name};

    /// Returns the fault's number, counted from 1 in the order above.
    pub fn number(&self) -> u8
        ensures { result ≡ fault_number self.now }
    {
        match self {
            WriteFault::Memory => 1,
            WriteFault::Write => 2,
        }
    }

    /// Returns the fault's name.
    pub fn name(&self) -> &'static str
        ensures { result.now ≡ fault_name self.now }
    {
        match self {
            WriteFault::Memory => "Memory",
            WriteFault::Write => "Write",
        }
    }
}

fn put_members<S: Sink>(
    pieces: &mut Pieces,
    sink: &mut S,
    version: Version,
    members: &Members,
) -> Result<(), Failed>
    ensures { Writes (held S.contents S.failures pieces.old sink.old)
        (held S.contents S.failures pieces.new sink.new) result (members_text (process_text version) members.now) }
{
    for proc in members.as_slice() {
        pieces.put(sink, b" ")?;
        pieces.put_process(sink, version, *proc)?;
    }
    Ok(())
}

/// Writes an entry without the end of its line.
#[tactic(auto, using(totem_names::proofs::Writers::wrote_then, totem_names::proofs::Writers::wrote_failed))]
fn put_entry<S: Sink>(
    pieces: &mut Pieces,
    sink: &mut S,
    version: Version,
    entry: &Entry,
) -> Result<(), Failed>
    ensures { Writes (held S.contents S.failures pieces.old sink.old)
        (held S.contents S.failures pieces.new sink.new) result (entry_text (process_text version) entry.now) }
{
    match entry {
        Entry::Conf(conf, members) => {
            pieces.put(sink, b"conf ")?;
            pieces.put_conf(sink, conf)?;
            put_members(pieces, sink, version, members)
        }
        Entry::Send(message, conf, service) => {
            pieces.put(sink, b"send ")?;
            pieces.put_conf(sink, conf)?;
            pieces.put(sink, b" ")?;
            pieces.put_service(sink, *service)?;
            pieces.put(sink, b" ")?;
            pieces.put_message(sink, *message)
        }
        Entry::Deliver(message, conf) => {
            pieces.put(sink, b"dlv ")?;
            pieces.put_conf(sink, conf)?;
            pieces.put(sink, b" ")?;
            pieces.put_message(sink, *message)
        }
        Entry::Fail(conf) => {
            pieces.put(sink, b"fail ")?;
            pieces.put_conf(sink, conf)
        }
    }
}

fn put_entries<S: Sink>(
    pieces: &mut Pieces,
    sink: &mut S,
    version: Version,
    entries: &[Entry],
) -> Result<(), Failed>
    ensures { Writes (held S.contents S.failures pieces.old sink.old)
        (held S.contents S.failures pieces.new sink.new) result (flat_map (λ entry. line (entry_text (process_text version) entry)) entries.now) }
{
    for entry in entries {
        put_entry(pieces, sink, version, entry)?;
        pieces.put(sink, b"\n")?;
    }
    Ok(())
}

fn put_ending<S: Sink>(pieces: &mut Pieces, sink: &mut S, ending: Ending) -> Result<(), Failed>
    ensures { Writes (held S.contents S.failures pieces.old sink.old)
        (held S.contents S.failures pieces.new sink.new) result (line (ending_text ending)) }
{
    match ending {
        Ending::Standing => pieces.put(sink, b"open\n"),
        Ending::Failed => pieces.put(sink, b"failed\n"),
        Ending::Quiet => pieces.put(sink, b"quiet\n"),
    }
}

#[tactic(auto, using(totem_names::proofs::Writers::wrote_then, totem_names::proofs::Writers::wrote_failed))]
fn put_log<S: Sink>(
    pieces: &mut Pieces,
    sink: &mut S,
    version: Version,
    log: &Log,
) -> Result<(), Failed>
    ensures { Writes (held S.contents S.failures pieces.old sink.old)
        (held S.contents S.failures pieces.new sink.new) result (log_text (process_text version) log.now) }
{
    pieces.put(sink, b"log ")?;
    pieces.put_process(sink, version, log.proc)?;
    pieces.put(sink, b"\n")?;
    put_entries(pieces, sink, version, log.entries.as_slice())?;
    put_ending(pieces, sink, log.ending)
}

fn put_logs<S: Sink>(
    pieces: &mut Pieces,
    sink: &mut S,
    version: Version,
    logs: &[Log],
) -> Result<(), Failed>
    ensures { Writes (held S.contents S.failures pieces.old sink.old)
        (held S.contents S.failures pieces.new sink.new) result (flat_map (log_text (process_text version)) logs.now) }
{
    for log in logs {
        put_log(pieces, sink, version, log)?;
    }
    Ok(())
}

fn put_version<S: Sink>(pieces: &mut Pieces, sink: &mut S, version: Version) -> Result<(), Failed>
    ensures { Writes (held S.contents S.failures pieces.old sink.old)
        (held S.contents S.failures pieces.new sink.new) result (line (version_digit version ∷ [])) }
{
    match version {
        Version::One => pieces.put(sink, b"1\n"),
        Version::Two => pieces.put(sink, b"2\n"),
        Version::Three => pieces.put(sink, b"3\n"),
    }
}

/// Gathers the first line of a text.
#[tactic(auto, using(totem_names::proofs::Writers::wrote_then, totem_names::proofs::Writers::wrote_failed))]
pub fn put_header<F: Form, S: Sink>(
    pieces: &mut Pieces,
    sink: &mut S,
    version: Version,
) -> Result<(), Failed>
    ensures { Writes (held S.contents S.failures pieces.old sink.old)
        (held S.contents S.failures pieces.new sink.new) result (first_line F.words version) }
{
    pieces.put(sink, F::title())?;
    put_version(pieces, sink, version)
}

#[tactic(auto, using(totem_names::proofs::Writers::wrote_then, totem_names::proofs::Writers::wrote_failed))]
fn put_run<S: Sink>(pieces: &mut Pieces, sink: &mut S, run: &Run) -> Result<(), Failed>
    ensures { Writes (held S.contents S.failures pieces.old sink.old)
        (held S.contents S.failures pieces.new sink.new) result (run_text run.now) }
{
    put_header::<RunText, S>(pieces, sink, run.version)?;
    put_logs(pieces, sink, run.version, run.logs.as_slice())?;
    pieces.put(sink, b"end\n")
}

/// Writes the text of a run, in pieces of about 64 KiB.
pub fn write_run<S: Sink>(alloc: Global, run: &Run, sink: &mut S) -> Result<(), WriteFault>
    ensures { WritesText (held S.contents S.failures [] sink.old)
        (held S.contents S.failures [] sink.new) result (run_text run.now) }
{
    let Ok(mut pieces) = Pieces::new(alloc) else {
        return Err(WriteFault::Memory);
    };
    if put_run(&mut pieces, sink, run).is_err() || pieces.flush(sink).is_err() {
        return Err(WriteFault::Write);
    }
    Ok(())
}
