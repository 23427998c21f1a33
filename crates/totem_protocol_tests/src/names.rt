//! Names: how they are written and read.
use crate::values::{Case, proc};
use std::alloc::{AllocError, Global};
use std::fmt::Display;
use totem_names::{
    ConfId, Failed, FromRead, MsgId, Place, Proc, ReadError, RingId, Service, TextFault, Version,
    byte_in, conf_in, message_in, next, number, number_to, number_within, read_conf, read_message,
    read_place, read_proc, read_ring, service_in, word, word_in,
};

pub(crate) fn ring(seq: u32, rep: u16) -> RingId {
    RingId {
        seq: seq.max(1),
        rep: proc(rep),
    }
}

pub(crate) fn transitional(seq: u32, rep: u16, least: u16) -> ConfId {
    ConfId::Transitional {
        next: ring(seq, rep),
        least: proc(least),
    }
}

pub(crate) fn message(seq: u32, rep: u16, number: u32) -> MsgId {
    MsgId {
        ring: ring(seq, rep),
        number: number.max(1),
    }
}

pub(crate) fn place(number: u16, at: u32) -> Place {
    Place {
        proc: Proc::first(proc(number)),
        at: at.max(1),
    }
}

fn written_names(alloc: Global) -> Result<String, AllocError> {
    let regular = ConfId::Regular(ring(4, 1));
    let last = transitional(8, 1, 12);
    let (sent, entry) = (message(4, 1, 7), place(2, 50));
    format!(in alloc; "{} {regular} {last} {sent} {entry}", ring(4, 1))
}

/// Returns the texts of services and of the reasons why reading fails.
fn written_words(alloc: Global) -> Result<String, AllocError> {
    let end = ReadError::Text(TextFault::Truncated);
    let memory = ReadError::from(AllocError);
    format!(in alloc;
        "{} {} {Failed}: {end} {memory:?}",
        Service::Agreed,
        Service::Safe
    )
}

pub(crate) fn memory(text: &str) -> FromRead<&[u8]> {
    FromRead::new(text.as_bytes())
}

pub(crate) type Text<'a> = FromRead<&'a [u8]>;

/// Returns what was read as it is written, or why it was not read.
pub(crate) fn told<T: Display + Drop>(
    alloc: Global,
    answer: Result<T, ReadError>,
) -> Result<String, AllocError> {
    match answer {
        Ok(read) => format!(in alloc; "{read}"),
        Err(fault) => format!(in alloc; "{fault:?}"),
    }
}

/// Reads the word `entry`, a byte, a number with the byte that ends it, and what follows.
fn read_words(alloc: Global, text: &mut Text) -> Result<String, ReadError> {
    word(text, b"entry", TextFault::Header)?;
    let behind = next(text)?;
    let (number, end) = number(text, u32::MAX)?;
    Ok(format!(in alloc; "{behind} {number} {end} {:?}", next(text))?)
}

/// Returns what is read of this kind.
fn read(alloc: Global, kind: &str, text: &mut Text) -> Result<String, AllocError> {
    match kind {
        "process" => told(alloc, read_proc(text, b' ')),
        "ring" => told(alloc, read_ring(text, b' ')),
        "conf" => told(alloc, read_conf(text, b' ')),
        "message" => told(alloc, read_message(text, b' ')),
        "place" => told(alloc, read_place(text, Version::One, b' ')),
        "to_nine" => told(alloc, number_to(text, 9, b',')),
        _ => told(alloc, read_words(alloc, text)),
    }
}

/// Returns the number up to 99 with which the text begins, the byte after it, and the length of both.
fn within(alloc: Global, text: &str) -> Result<String, AllocError> {
    match number_within(text.as_bytes(), 99) {
        None => String::from_str(alloc, "none"),
        Some((number, byte, count)) => format!(in alloc; "{number} {byte} {count}"),
    }
}

/// Returns the names in a line of a send, and the index of what follows it.
fn send_in(bytes: &[u8]) -> Option<(ConfId, Service, MsgId, usize)> {
    let (_, at) = byte_in(bytes, 0)?;
    let at = word_in(bytes, at, b"end ")?;
    let (conf, at) = conf_in(bytes, at, b' ')?;
    let (service, at) = service_in(bytes, at)?;
    let at = word_in(bytes, at, b" ")?;
    let (message, at) = message_in(bytes, at, b' ')?;
    Some((conf, service, message, at))
}

/// Returns what `send_in` returns, as text.
fn in_bytes(alloc: Global, text: &str) -> Result<String, AllocError> {
    match send_in(text.as_bytes()) {
        None => String::from_str(alloc, "none"),
        Some((conf, service, message, at)) => {
            format!(in alloc; "{conf} {service} {message} {at}")
        }
    }
}

/// Returns what is written or read, as text.
pub(crate) fn answer(alloc: Global, words: &str) -> Result<String, AllocError> {
    let (kind, text) = words.split_once(' ').unwrap_or((words, ""));
    match kind {
        "names" => written_names(alloc),
        "services" => written_words(alloc),
        "within" => within(alloc, text),
        "bytes" => in_bytes(alloc, text),
        _ => read(alloc, kind, &mut memory(text)),
    }
}

pub(crate) const NAMES: [Case; 44] = [
    ("names", "4.1 r4.1 t8.1/12 4.1#7 2@50"),
    (
        "services",
        "a s the stream failed: the text ends too soon Memory",
    ),
    ("bytes send t8.1/12 s 4.1#7 more", "t8.1/12 s 4.1#7 21"),
    ("bytes send r4.1 a 4.1#7", "none"),
    ("bytes send 4.1 a 4.1#7 ", "none"),
    ("process 65535 ", "65535"),
    ("ring 4.1 ", "4.1"),
    ("conf r4.1 ", "r4.1"),
    ("conf t8.1/12 ", "t8.1/12"),
    ("message 4.1#7 ", "4.1#7"),
    ("place 2@50 ", "2@50"),
    (
        "words entry 4294967295!",
        "32 4294967295 33 Err(Text(Truncated))",
    ),
    ("words exit", "Text(Header)"),
    ("to_nine 10,", "Text(Number)"),
    ("within 99 1", "99 32 3"),
    ("within 100 ", "none"),
    ("within 09 ", "none"),
    ("within 9", "none"),
    // rings with another spelling
    ("ring 0.1 ", "Text(Number)"),
    ("ring 04.1 ", "Text(Number)"),
    ("ring 4294967296.1 ", "Text(Number)"),
    ("ring 4.65536 ", "Text(Number)"),
    ("ring 4.0 ", "Text(Number)"),
    ("ring .1 ", "Text(Number)"),
    ("ring 4,1 ", "Text(Word)"),
    ("ring 4.1.", "Text(Word)"),
    ("ring 4.1", "Text(Truncated)"),
    ("ring 4.", "Text(Truncated)"),
    ("ring ", "Text(Truncated)"),
    // other names with another spelling
    ("conf 4.1 ", "Text(Word)"),
    ("conf R4.1 ", "Text(Word)"),
    ("conf t8.1 ", "Text(Word)"),
    ("conf t8.1/0 ", "Text(Number)"),
    ("conf r4.1/1 ", "Text(Word)"),
    ("conf t8.1/", "Text(Truncated)"),
    ("message 4.1 7 ", "Text(Word)"),
    ("message 4.1#0 ", "Text(Number)"),
    ("message 4.1#4294967296 ", "Text(Number)"),
    ("message 4.1#7", "Text(Truncated)"),
    ("place 65536@1 ", "Text(Number)"),
    ("place 1#1 ", "Text(Word)"),
    ("place 1@4294967296 ", "Text(Number)"),
    ("place 1@01 ", "Text(Number)"),
    ("place 1@", "Text(Truncated)"),
];
