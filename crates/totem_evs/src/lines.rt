//! Readers of the lines of a log. Each leaves unread what follows the line.
ghost use Rattle.std.specs.Prelude.{IfOk, Bool, ◌==◌, nat_lt};
ghost use Rattle.totem_names.specs.Sources.{Reads, seen};
ghost use Rattle.totem_evs.specs.Endings.{writes_quiet};
ghost use Rattle.totem_evs.specs.NextLines.{FollowsIn};
ghost use Rattle.totem_evs.specs.RunGrammar.{members_at, change_at, send_at, delivery_at, open_at, quiet_at, failed_at, fail_at, ail_at, failure_at, line_at};

use crate::ending::{Ending, may_be_quiet};
use crate::entry::Entry;
use crate::members::Members;
use crate::repeats::Repeats;
use crate::stage::OpenLog;
use std::alloc::Global;
use totem_names::{
    ReadError, Source, TextFault, Version, life_fits, next, read_conf, read_message, read_process,
    read_service, word,
};

/// For how many members space is taken at once. Few configurations have more.
const USUAL: usize = 8;

/// A line of a log after the first: an entry, or the word that closes the log.
#[derive(Drop)]
pub enum Line {
    Entry(Entry),
    Close(Ending),
}

/// Reads members up to the end of the line.
pub fn read_members<S: Source>(
    alloc: Global,
    source: &mut S,
    version: Version,
) -> Result<Members, ReadError>
    ensures { Reads (seen S.remaining S.failures source.old)
        (seen S.remaining S.failures source.new) result (members_at version 32 0) }
{
    let mut procs = Vec::with_capacity(alloc, USUAL)?;
    let mut last = 0u32;
    for _ in 0..32u32 {
        let (proc, byte) = read_process(source, version)?;
        let id = u32::from(proc.id().number());
        if id <= last {
            return Err(ReadError::Text(TextFault::Members));
        }
        life_fits(Version::Three, proc);
        procs.push(proc)?;
        if byte == b'\n' {
            return Ok(Members::from_vec(alloc, procs)?);
        }
        if byte != b' ' {
            return Err(ReadError::Text(TextFault::Word));
        }
        last = id;
    }
    Err(ReadError::Text(TextFault::TooMany))
}

// Reads the members of a change, all at once if they are at hand.
fn read_roll<S: Source>(
    alloc: Global,
    source: &mut S,
    version: Version,
    repeats: &mut Repeats,
) -> Result<Members, ReadError>
    ensures { Reads (seen S.remaining S.failures source.old)
        (seen S.remaining S.failures source.new) result (members_at version 32 0) }
{
    if let Some(members) = repeats.take_members(alloc, source, version)? {
        return Ok(members);
    }
    let members = read_members(alloc, source, version)?;
    Ok(repeats.share(members)?)
}

#[tactic(auto, using(crate::proofs::ReaderSteps::reader_steps), unfolding(crate::specs::RunGrammar::change_at))]
fn read_change<S: Source>(
    alloc: Global,
    source: &mut S,
    version: Version,
    log: OpenLog,
    repeats: &mut Repeats,
) -> Result<Line, ReadError>
    ensures read { Reads (seen S.remaining S.failures source.old)
        (seen S.remaining S.failures source.new) result (change_at version (log.entries == 1000000)) }
    ensures follows { (written : Bool) → IfOk result (FollowsIn written log) }
{
    if log.is_full() {
        return Err(ReadError::Text(TextFault::TooMany));
    }
    word(source, b"onf ", TextFault::Word)?;
    let conf = read_conf(source, b' ')?;
    let members = read_roll(alloc, source, version, repeats)?;
    Ok(Line::Entry(Entry::Conf(conf, members)))
}

#[tactic(auto, using(crate::proofs::ReaderSteps::reader_steps), unfolding(crate::specs::RunGrammar::send_at))]
fn read_send<S: Source>(source: &mut S, log: OpenLog) -> Result<Line, ReadError>
    ensures read { Reads (seen S.remaining S.failures source.old)
        (seen S.remaining S.failures source.new) result (send_at (log.entries == 1000000)) }
    ensures follows { (written : Bool) → IfOk result (FollowsIn written log) }
{
    if log.is_full() {
        return Err(ReadError::Text(TextFault::TooMany));
    }
    word(source, b"end ", TextFault::Word)?;
    let conf = read_conf(source, b' ')?;
    let service = read_service(source)?;
    word(source, b" ", TextFault::Word)?;
    let message = read_message(source, b'\n')?;
    Ok(Line::Entry(Entry::Send(message, conf, service)))
}

#[tactic(auto, using(crate::proofs::ReaderSteps::reader_steps), unfolding(crate::specs::RunGrammar::delivery_at))]
fn read_delivery<S: Source>(source: &mut S, log: OpenLog) -> Result<Line, ReadError>
    ensures read { Reads (seen S.remaining S.failures source.old)
        (seen S.remaining S.failures source.new) result (delivery_at (log.entries == 1000000)) }
    ensures follows { (written : Bool) → IfOk result (FollowsIn written log) }
{
    if log.is_full() {
        return Err(ReadError::Text(TextFault::TooMany));
    }
    word(source, b"lv ", TextFault::Word)?;
    let conf = read_conf(source, b' ')?;
    let message = read_message(source, b'\n')?;
    Ok(Line::Entry(Entry::Deliver(message, conf)))
}

#[tactic(auto, using(crate::proofs::ReaderSteps::reader_steps), unfolding(crate::specs::RunGrammar::open_at))]
fn read_open<S: Source>(source: &mut S, log: OpenLog) -> Result<Line, ReadError>
    ensures read { Reads (seen S.remaining S.failures source.old)
        (seen S.remaining S.failures source.new) result (open_at (nat_lt 0 log.entries) log.failed) }
    ensures follows { (written : Bool) → IfOk result (FollowsIn written log) }
{
    if log.is_empty() || log.failed {
        return Err(ReadError::Text(TextFault::End));
    }
    word(source, b"pen\n", TextFault::Word)?;
    Ok(Line::Close(Ending::Standing))
}

#[tactic(auto, using(crate::proofs::ReaderSteps::reader_steps), unfolding(crate::specs::RunGrammar::quiet_at))]
fn read_quiet<S: Source>(source: &mut S, version: Version, log: OpenLog) -> Result<Line, ReadError>
    ensures read { Reads (seen S.remaining S.failures source.old)
        (seen S.remaining S.failures source.new) result (quiet_at (writes_quiet version) (nat_lt 0 log.entries) log.failed) }
    ensures follows { IfOk result (FollowsIn (writes_quiet version) log) }
{
    if !may_be_quiet(version) {
        return Err(ReadError::Text(TextFault::Word));
    }
    if log.is_empty() || log.failed {
        return Err(ReadError::Text(TextFault::End));
    }
    word(source, b"uiet\n", TextFault::Word)?;
    Ok(Line::Close(Ending::Quiet))
}

#[tactic(auto, using(crate::proofs::ReaderSteps::reader_steps), unfolding(crate::specs::RunGrammar::failed_at))]
fn read_failed<S: Source>(source: &mut S, log: OpenLog) -> Result<Line, ReadError>
    ensures read { Reads (seen S.remaining S.failures source.old)
        (seen S.remaining S.failures source.new) result (failed_at log.failed) }
    ensures follows { (written : Bool) → IfOk result (FollowsIn written log) }
{
    if !log.failed {
        return Err(ReadError::Text(TextFault::End));
    }
    word(source, b"d\n", TextFault::Word)?;
    Ok(Line::Close(Ending::Failed))
}

#[tactic(auto, using(crate::proofs::ReaderSteps::reader_steps), unfolding(crate::specs::RunGrammar::fail_at))]
fn read_fail<S: Source>(source: &mut S, log: OpenLog) -> Result<Line, ReadError>
    ensures read { Reads (seen S.remaining S.failures source.old)
        (seen S.remaining S.failures source.new) result (fail_at (log.entries == 1000000)) }
    ensures follows { (written : Bool) → IfOk result (FollowsIn written log) }
{
    if log.is_full() {
        return Err(ReadError::Text(TextFault::TooMany));
    }
    let conf = read_conf(source, b'\n')?;
    Ok(Line::Entry(Entry::Fail(conf)))
}

#[tactic(auto, using(crate::proofs::ReaderSteps::reader_steps), unfolding(crate::specs::RunGrammar::ail_at))]
fn read_ail<S: Source>(source: &mut S, log: OpenLog) -> Result<Line, ReadError>
    ensures read { Reads (seen S.remaining S.failures source.old)
        (seen S.remaining S.failures source.new) result (ail_at (log.entries == 1000000) log.failed) }
    ensures follows { (written : Bool) → IfOk result (FollowsIn written log) }
{
    word(source, b"ail", TextFault::Word)?;
    let letter = next(source)?;
    if letter == b'e' {
        return read_failed(source, log);
    }
    if letter == b' ' {
        return read_fail(source, log);
    }
    Err(ReadError::Text(TextFault::Word))
}

#[tactic(auto, using(crate::proofs::ReaderSteps::reader_steps), unfolding(crate::specs::RunGrammar::failure_at))]
fn read_failure<S: Source>(source: &mut S, log: OpenLog) -> Result<Line, ReadError>
    ensures read { Reads (seen S.remaining S.failures source.old)
        (seen S.remaining S.failures source.new) result (failure_at (log.entries == 1000000) log.failed) }
    ensures follows { (written : Bool) → IfOk result (FollowsIn written log) }
{
    if log.is_full() && !log.failed {
        return Err(ReadError::Text(TextFault::TooMany));
    }
    read_ail(source, log)
}

/// Reads the next line of a log that has not ended.
#[tactic(auto, using(crate::proofs::ReaderSteps::reader_steps), unfolding(crate::specs::RunGrammar::line_at))]
pub fn read_line<S: Source>(
    alloc: Global,
    source: &mut S,
    version: Version,
    log: OpenLog,
    repeats: &mut Repeats,
) -> Result<Line, ReadError>
    ensures read { Reads (seen S.remaining S.failures source.old)
        (seen S.remaining S.failures source.new) result (line_at version (log.entries == 1000000) (nat_lt 0 log.entries) log.failed) }
    ensures follows { IfOk result (FollowsIn (writes_quiet version) log) }
{
    let letter = next(source)?;
    match letter {
        b'c' => read_change(alloc, source, version, log, repeats),
        b's' => read_send(source, log),
        b'd' => read_delivery(source, log),
        b'f' => read_failure(source, log),
        b'o' => read_open(source, log),
        b'q' => read_quiet(source, version, log),
        _ => Err(ReadError::Text(TextFault::Word)),
    }
}
