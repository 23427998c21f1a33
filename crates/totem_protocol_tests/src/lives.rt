//! Processes of a run and services: how they are read and written.
use crate::names::{Text, memory, message, told};
use crate::streams::push_bytes;
use crate::values::Case;
use std::alloc::{AllocError, Global};
use totem_names::{
    Failed, Pieces, Place, Proc, ReadError, Service, Sink, ToWrite, Version, read_place,
    read_process, read_process_to, read_service, write_message, write_number, write_process,
};

fn version(number: &str) -> Version {
    match number {
        "1" => Version::One,
        "2" => Version::Two,
        _ => Version::Three,
    }
}

/// Reads a process with the byte after it.
fn process_then(alloc: Global, version: Version, text: &mut Text) -> Result<String, ReadError> {
    let (process, byte) = read_process(text, version)?;
    Ok(format!(in alloc; "{process} {byte}")?)
}

/// Reads a process of version 2, and returns its next life, if it has one.
fn next_life(alloc: Global, text: &mut Text) -> Result<String, ReadError> {
    let process = read_process_to(text, Version::Two, b' ')?;
    match process.next_life() {
        None => Ok(String::from_str(alloc, "none")?),
        Some(next) => Ok(format!(in alloc; "{next}")?),
    }
}

/// Puts the first line of a log, both services, and the log's entry 5.
fn put_all<S: Sink>(
    sink: &mut S,
    pieces: &mut Pieces,
    version: Version,
    process: Proc,
) -> Result<(), Failed> {
    pieces.put(sink, b"log ")?;
    pieces.put_process(sink, version, process)?;
    pieces.put(sink, b" ")?;
    pieces.put_service(sink, Service::Agreed)?;
    pieces.put_service(sink, Service::Safe)?;
    pieces.put(sink, b" ")?;
    pieces.put_place(
        sink,
        version,
        Place {
            proc: process,
            at: 5,
        },
    )?;
    pieces.flush(sink)
}

fn written(alloc: Global, version: Version, process: Proc) -> Result<String, AllocError> {
    let mut pieces = Pieces::new(alloc)?;
    let mut sink = ToWrite::new(Vec::new(alloc));
    let is_put = put_all(&mut sink, &mut pieces, version, process).is_ok();
    let mut text = format!(in alloc; "{is_put} ")?;
    push_bytes(&mut text, &sink.into_inner())?;
    Ok(text)
}

/// Reads a process of version 2, and returns how a text of this version writes it.
fn rewritten(alloc: Global, version: Version, text: &mut Text) -> Result<String, ReadError> {
    let process = read_process_to(text, Version::Two, b' ')?;
    Ok(written(alloc, version, process)?)
}

/// Reads a process of version 2, writes it, a message and a number into the end of a text before a last dot, and returns the text from the
/// process on.
fn written_last(alloc: Global, version: Version, text: &mut Text) -> Result<String, ReadError> {
    let process = read_process_to(text, Version::Two, b' ')?;
    let mut bytes = [b'.'; 68];
    let number = write_number(&mut bytes, 67, b'=', 10);
    let message = write_message(&mut bytes, number, b',', message(4294967295, 65535, 7));
    let start = write_process(&mut bytes, message, b'<', version, process);
    let mut written = String::new(alloc);
    push_bytes(&mut written, &bytes[start..])?;
    Ok(written)
}

/// Returns what is read, written or related in a text of this version.
fn versioned(alloc: Global, kind: &str, words: &str) -> Result<String, AllocError> {
    let (number, text) = words.split_once(' ').unwrap_or((words, ""));
    let version = version(number);
    match kind {
        "place" => told(alloc, read_place(&mut memory(text), version, b' ')),
        "to" => told(alloc, read_process_to(&mut memory(text), version, b' ')),
        "then" => told(alloc, process_then(alloc, version, &mut memory(text))),
        "last" => told(alloc, written_last(alloc, version, &mut memory(text))),
        _ => told(alloc, rewritten(alloc, version, &mut memory(text))),
    }
}

/// Returns what is written or read, as text.
pub(crate) fn answer(alloc: Global, words: &str) -> Result<String, AllocError> {
    let (kind, text) = words.split_once(' ').unwrap_or((words, ""));
    match kind {
        "next" => told(alloc, next_life(alloc, &mut memory(text))),
        "service" => told(alloc, read_service(&mut memory(text))),
        _ => versioned(alloc, kind, text),
    }
}

pub(crate) const LIVES: [Case; 30] = [
    // version 1 writes no lives
    ("to 1 2 ", "2:1"),
    ("to 1 2:1 ", "Text(Word)"),
    ("then 1 7!", "7:1 33"),
    ("put 1 1:1 ", "true log 1 as 1@5"),
    // versions 2 and 3 do
    ("to 2 1:1 ", "1:1"),
    ("to 2 65535:65535 ", "65535:65535"),
    ("to 3 2:2 ", "2:2"),
    ("then 2 2:2;", "2:2 59"),
    ("put 2 1:1 ", "true log 1:1 as 1:1@5"),
    ("put 3 2:2 ", "true log 2:2 as 2:2@5"),
    ("last 1 3:1 ", "<3,4294967295.65535#7=10."),
    ("last 3 65535:65535 ", "<65535:65535,4294967295.65535#7=10."),
    // without a known version, a place is written as in the first version that can write it
    ("place 2 2:3@5 ", "2:3@5"),
    ("place 3 2:1@5 ", "2@5"),
    ("place 1 2@5 ", "2@5"),
    ("place 1 2:1@5 ", "Text(Word)"),
    ("place 2 2@5 ", "Text(Word)"),
    // processes with another spelling
    ("to 2 1 ", "Text(Word)"),
    ("to 2 65536:1 ", "Text(Number)"),
    ("to 2 1:0 ", "Text(Number)"),
    ("to 2 1:01 ", "Text(Number)"),
    ("to 2 1:65536 ", "Text(Number)"),
    ("to 2 1:1:", "Text(Word)"),
    ("to 2 1:1", "Text(Truncated)"),
    ("next 2:65534 ", "2:65535"),
    ("next 2:65535 ", "none"),
    ("service a", "a"),
    ("service s", "s"),
    ("service x", "Text(Word)"),
    ("service ", "Text(Truncated)"),
];
