//! Readers of whole runs, which gather logs from parts.
ghost use Rattle.std.specs.Prelude.{◌≡◌, OnOk};
ghost use Rattle.totem_names.specs.Sources.{seen};
ghost use Rattle.totem_evs.specs.Gathered.{none_gathered, gathered, MayGather};
ghost use Rattle.totem_evs.specs.declared.part.Part.TheVariants as parts;
ghost use Rattle.totem_evs.specs.Reading.{ReadsRun, ReadsEnd};
ghost use Rattle.totem_evs.specs.Runs.{IsRunOf};

use crate::entries::Entries;
use crate::entry::Entry;
use crate::form::RunText;
use crate::heads::read_header;
use crate::log::Log;
use crate::logs::Logs;
use crate::part::Part;
use crate::part_reader::PartReader;
use crate::run::Run;
use crate::run_fault::RunFault;
use std::alloc::{AllocError, Global};
use std::marker::Model;
use std::mem;
use totem_names::{Proc, Source, Version};

/// The logs that have ended, and the process and entries of the log that has not.
#[derive(Drop)]
struct Gathered {
    logs: Vec<Log>,
    proc: Option<Proc>,
    entries: Vec<Entry>,
}

impl Model for Gathered {
    ghost use Rattle.totem_evs.specs.Gathered.{GatheredLogs};

    ghost Value = { GatheredLogs };

    ghost view = { λ g. record { logs = g.logs.items; proc = g.proc; entries = g.entries.items } };
}

impl Gathered {
    /// Returns the state before the first part.
    fn new(alloc: Global) -> Gathered
        ensures { result ≡ none_gathered }
    {
        Gathered {
            logs: Vec::new(alloc),
            proc: None,
            entries: Vec::new(alloc),
        }
    }

    /// Adds the next entry.
    #[inline(always)]
    fn add_entry(&mut self, entry: Entry) -> Result<(), AllocError>
        ensures { OnOk result (self.new ≡ gathered self.old (parts.Entry entry)) }
    {
        self.entries.push(entry)?;
        Ok(())
    }

    /// Adds the next part.
    fn add(&mut self, alloc: Global, part: Part) -> Result<(), AllocError>
        requires { MayGather self.old part }
        ensures { OnOk result (self.new ≡ gathered self.old part) }
    {
        match part {
            Part::Log(proc) => {
                self.proc = Some(proc);
                self.entries = Vec::new(alloc);
            }
            Part::Entry(entry) => self.entries.push(entry)?,
            Part::Close(ending) => {
                let entries = mem::replace(&mut self.entries, Vec::new(alloc));
                if let Some(proc) = self.proc {
                    let entries = Entries::of(entries);
                    self.logs.push(Log {
                        proc,
                        entries,
                        ending,
                    })?;
                }
                self.proc = None;
            }
        }
        Ok(())
    }

    /// Returns the run of this version with these logs.
    #[tactic(auto, using(crate::proofs::Weaker::any_lives))]
    fn into_run(self, version: Version) -> Run
        requires { IsRunOf (record { version = version; logs = self.logs }) }
        ensures { result ≡ record { version = version; logs = self.logs } }
    {
        let Gathered {
            logs,
            proc: _,
            entries: _,
        } = self;
        Run {
            version,
            logs: Logs::of(logs),
        }
    }
}

/// Reads a run from the first byte to the line `end`, and leaves unread what follows. If a member of
/// a configuration has no log in it, the fault is `MissingLog`.
pub fn read_run<S: Source>(alloc: Global, source: &mut S) -> Result<Run, RunFault>
    ensures { ReadsRun (seen S.remaining S.failures source.old)
        (seen S.remaining S.failures source.new) result }
{
    let version = read_header::<RunText, S>(source)?;
    let mut parts = PartReader::new(alloc, version);
    let mut logs = Gathered::new(alloc);
    'parts: loop {
        if let Some(entry) = parts.take_repeat(source) {
            logs.add_entry(entry)?;
            continue 'parts;
        }
        if let Some(entry) = parts.take_whole(alloc, source)? {
            logs.add_entry(entry)?;
            continue 'parts;
        }
        match parts.next(alloc, source)? {
            None => return Ok(logs.into_run(version)),
            Some(part) => logs.add(alloc, part)?,
        }
    }
}

/// Reads the end of the input. If a byte is there, takes it and fails with `End`.
pub fn read_end<S: Source>(source: &mut S) -> Result<(), RunFault>
    ensures { ReadsEnd (seen S.remaining S.failures source.old)
        (seen S.remaining S.failures source.new) result }
{
    match source.byte() {
        Ok(None) => Ok(()),
        Ok(Some(_)) => Err(RunFault::End),
        Err(_) => Err(RunFault::Read),
    }
}
