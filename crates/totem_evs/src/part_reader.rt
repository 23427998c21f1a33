//! Reads the parts of a run, one after the other.
ghost use Rattle.std.specs.Prelude.{◌≡◌, ◌==◌, Some, IfNone, IfOk, IfSome, OnOk, nat_lt};
ghost use Rattle.std.specs.Io.KnownBytes.{Keeps};
ghost use Rattle.totem_names.specs.Sources.{Reads, seen};
ghost use Rattle.totem_evs.specs.Endings.{writes_quiet};
ghost use Rattle.totem_evs.specs.NextLines.{FollowsIn};
ghost use Rattle.totem_evs.specs.RunGrammar.{line_at};
ghost use Rattle.totem_evs.specs.Parts.{begun_at, within_at, part_at};
ghost use Rattle.totem_evs.specs.ReadState.{ComesBetween, ComesWithin, MayCome};

use crate::ending::Ending;
use crate::entry::Entry;
use crate::form::RunText;
use crate::heads::read_head;
use crate::lines::{Line, read_line};
use crate::part::Part;
use crate::repeats::Repeats;
use crate::roster::Roster;
use crate::run_fault::RunFault;
use crate::stage::{OpenLog, Stage};
use std::alloc::{AllocError, Global};
use std::marker::Model;
use totem_names::{Proc, ReadError, Source, Version};

/// How many logs a run may have at most.
const MOST_LOGS: u32 = 32;

// Reads between logs: the first line of a log, or the last line of the run.
#[tactic(auto, using(crate::proofs::ReaderSteps::reader_steps), unfolding(crate::specs::Parts::begun_at))]
fn read_between<S: Source>(
    source: &mut S,
    version: Version,
    logs: u32,
    last: u32,
) -> Result<Option<Part>, ReadError>
    ensures read { Reads (seen S.remaining S.failures source.old)
        (seen S.remaining S.failures source.new) result (begun_at version logs last) }
    ensures comes { IfOk result (ComesBetween logs last) }
{
    let head = read_head::<RunText, S>(source, version, logs == MOST_LOGS, last)?;
    match head {
        None => Ok(None),
        Some(proc) => Ok(Some(Part::Log(proc))),
    }
}

// Reads the next line of a log that has not ended: an entry, or its end.
#[tactic(auto, using(crate::proofs::ReaderSteps::reader_steps), unfolding(crate::specs::Parts::within_at))]
fn read_within<S: Source>(
    alloc: Global,
    source: &mut S,
    version: Version,
    log: OpenLog,
    repeats: &mut Repeats,
) -> Result<Option<Part>, ReadError>
    ensures read { Reads (seen S.remaining S.failures source.old)
        (seen S.remaining S.failures source.new) result (within_at version log.entries log.failed) }
    ensures comes { IfOk result (ComesWithin (writes_quiet version) log.entries log.failed) }
{
    let line = read_line(alloc, source, version, log, repeats)?;
    match line {
        Line::Close(ending) => Ok(Some(Part::Close(ending))),
        Line::Entry(entry) => Ok(Some(Part::Entry(entry))),
    }
}

/// Reads the next part, or returns `None` once it has read the last line.
fn read_part<S: Source>(
    alloc: Global,
    source: &mut S,
    stage: Stage,
    repeats: &mut Repeats,
) -> Result<Option<Part>, ReadError>
    ensures read { Reads (seen S.remaining S.failures source.old)
        (seen S.remaining S.failures source.new) result (part_at stage) }
    ensures comes { IfOk result (MayCome stage) }
{
    match stage.log {
        None => read_between(source, stage.version, stage.logs, stage.last),
        Some(log) => read_within(alloc, source, stage.version, log, repeats),
    }
}

/// How far a run has been read, the processes whose logs have begun and the members that have none yet, and how lines repeat.
#[derive(Drop)]
pub struct PartReader {
    pub stage: Stage,
    pub roster: Roster,
    pub repeats: Repeats,
}

impl Model for PartReader {
    ghost use Rattle.totem_evs.specs.ReadState.{ReadState};

    ghost Value = { ReadState };

    ghost view = { λ r. record { stage = r.stage; begun = r.roster.begun; waiting = r.roster.waiting } };
}

impl PartReader {
    ghost use Rattle.totem_evs.specs.ReadState.{IsFirst, IsReadState, Goes};
    ghost use Rattle.totem_evs.specs.Reading.{HasPart, ReadsPart};
    ghost use Rattle.totem_evs.specs.declared.part.Part.TheVariants as parts;

    /// Returns the reader after the first line of a run of this version.
    pub fn new(alloc: Global, version: Version) -> PartReader
        ensures first { IsFirst version result }
        ensures limits { IsReadState result }
    {
        PartReader {
            stage: Stage::first(version),
            roster: Roster::new(alloc),
            repeats: Repeats::new(),
        }
    }

    // Notes that a log has begun.
    fn add_log(&mut self, proc: Proc) -> Result<(), AllocError>
        requires limits { IsReadState self.old }
        requires comes { MayCome self.old.stage (Some (parts.Log proc)) }
        ensures { OnOk result (IsReadState self.new × Goes self.old (parts.Log proc) self.new) }
    {
        self.roster.note_log(proc)?;
        self.stage = self.stage.with_log(proc);
        Ok(())
    }

    // Notes an entry.
    fn add_entry(&mut self, entry: &Entry) -> Result<(), AllocError>
        requires limits { IsReadState self.old }
        requires comes { MayCome self.old.stage (Some (parts.Entry entry.now)) }
        ensures { OnOk result (IsReadState self.new × Goes self.old (parts.Entry entry.now) self.new) }
    {
        self.roster.note_entry(entry)?;
        self.stage.pass_entry(entry);
        Ok(())
    }

    // Notes that a log has ended.
    fn end_log(&mut self, ending: Ending)
        requires limits { IsReadState self.old }
        ensures { IsReadState self.new × Goes self.old (parts.Close ending) self.new }
    {
        self.stage = self.stage.without_log();
    }

    // Notes a part.
    fn add(&mut self, part: &Part) -> Result<(), AllocError>
        requires limits { IsReadState self.old }
        requires comes { MayCome self.old.stage (Some part.now) }
        ensures { OnOk result (IsReadState self.new × Goes self.old part.now self.new) }
    {
        match part {
            Part::Log(proc) => self.add_log(*proc),
            Part::Entry(entry) => self.add_entry(entry),
            Part::Close(ending) => {
                self.end_log(*ending);
                Ok(())
            }
        }
    }

    /// Takes the next entry if its line repeats and all of it is at hand. Otherwise takes nothing.
    pub fn take_repeat<S: Source>(&mut self, source: &mut S) -> Option<Entry>
        requires { IsReadState self.old }
        ensures taken { IfSome result (λ e. HasPart (seen S.remaining S.failures source.old)
            (seen S.remaining S.failures source.new) self.old (parts.Entry e) self.new) }
        ensures kept { IfNone result (Keeps (S.remaining source.old) (S.remaining source.new)
            × (S.failures source.new ≡ S.failures source.old) × (self.new ≡ self.old)) }
        ensures limits { IsReadState self.new }
    {
        let log = self.stage.log?;
        if log.is_full() {
            return None;
        }
        let entry = self.repeats.take(source)?;
        entry.keeps_its_rule();
        self.stage.pass_entry(&entry);
        Some(entry)
    }

    /// Takes the next entry if all of its line is at hand, and it is a send, a delivery, or a change with the members of the one before it.
    /// Otherwise takes nothing.
    #[inline(never)]
    pub fn take_whole<S: Source>(
        &mut self,
        alloc: Global,
        source: &mut S,
    ) -> Result<Option<Entry>, AllocError>
        requires { IsReadState self.old }
        ensures taken { IfOk result (λ found. IfSome found (λ e. HasPart (seen S.remaining S.failures source.old)
            (seen S.remaining S.failures source.new) self.old (parts.Entry e) self.new)) }
        ensures kept { IfOk result (λ found. IfNone found (Keeps (S.remaining source.old) (S.remaining source.new) × (self.new ≡ self.old))) }
        ensures failures { S.failures source.new ≡ S.failures source.old }
        ensures limits { IfOk result (λ found. IsReadState self.new) }
    {
        let Some(log) = self.stage.log else {
            return Ok(None);
        };
        if log.is_full() {
            return Ok(None);
        }
        let Some(entry) = self.repeats.take_whole(alloc, source, self.stage.version)? else {
            return Ok(None);
        };
        entry.keeps_its_rule();
        self.add_entry(&entry)?;
        Ok(Some(entry))
    }

    /// Reads the next part, or returns `None` once it has read the last line. A member without a log is found only then. After
    /// a fault, nothing is known of the reader.
    pub fn next<S: Source>(
        &mut self,
        alloc: Global,
        source: &mut S,
    ) -> Result<Option<Part>, RunFault>
        requires { IsReadState self.old }
        ensures read { ReadsPart (seen S.remaining S.failures source.old)
            (seen S.remaining S.failures source.new) self.old self.new result }
        ensures limits { IfOk result (λ part. IsReadState self.new) }
    {
        match read_part(alloc, source, self.stage, &mut self.repeats)? {
            None => match self.roster.least() {
                None => Ok(None),
                Some(proc) => Err(RunFault::MissingLog(proc.written(self.stage.version))),
            },
            Some(part) => {
                part.keeps_its_rule();
                self.add(&part)?;
                Ok(Some(part))
            }
        }
    }
}
