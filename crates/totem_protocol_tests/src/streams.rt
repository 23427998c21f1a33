//! Sources and sinks that fail at a given call or as their readers and writers do, and sinks that get pieces. The result of each
//! call is text.
use crate::names::{memory, message, place, ring, transitional};
use crate::values::{Case, push};
use std::alloc::{AllocError, Global};
use std::io;
use std::io::{ErrorKind, Read, Write};
use totem_names::{
    Buffered, ConfId, Failed, FromRead, Fused, Pieces, Sink, Source, ToWrite, Version, read_ring,
};

/// Calls a source this many times, and returns each byte, `.` at the end, and `!` where it fails.
fn given<S: Source>(alloc: Global, source: &mut S, calls: u8) -> Result<String, AllocError> {
    let mut text = String::new(alloc);
    for _ in 0..calls {
        match source.byte() {
            Ok(Some(byte)) => text.push(char::from(byte))?,
            Ok(None) => text.push('.')?,
            Err(Failed) => text.push('!')?,
        }
    }
    Ok(text)
}

/// Returns the bytes that a fused source gives, and those that are left.
fn fused_bytes(alloc: Global) -> Result<String, AllocError> {
    let mut source = Fused::new(memory("ab"), 1);
    let mut text = given(alloc, &mut source, 3)?;
    push(&mut text, given(alloc, &mut source.into_inner(), 2))?;
    Ok(text)
}

/// Returns what is read of a ring from a source that fails after this many calls.
fn fused_ring(alloc: Global, calls: u64) -> Result<String, AllocError> {
    match read_ring(&mut Fused::new(memory("4.10 "), calls), b' ') {
        Ok(ring) => format!(in alloc; "{ring}"),
        Err(fault) => format!(in alloc; "{fault:?}"),
    }
}

/// Returns a sink's answers to these pieces: `+` if it takes one, and `!` if it fails.
fn answers<S: Sink>(alloc: Global, sink: &mut S, pieces: &[&str]) -> Result<String, AllocError> {
    let mut text = String::new(alloc);
    for piece in pieces {
        let is_put = sink.put(piece.as_bytes()).is_ok();
        text.push(if is_put { '+' } else { '!' })?;
    }
    Ok(text)
}

pub(crate) fn push_bytes(text: &mut String, bytes: &[u8]) -> Result<(), AllocError> {
    for byte in bytes {
        text.push(char::from(*byte))?;
    }
    Ok(())
}

/// Returns the answers of a sink that fails after two calls to four pieces, and what it holds then.
fn fused_sink(alloc: Global) -> Result<String, AllocError> {
    let mut sink = Fused::new(ToWrite::new(Vec::new(alloc)), 2);
    let mut text = answers(alloc, &mut sink, &["4.", "1", "#7", "#7"])?;
    push_bytes(&mut text, &sink.into_inner().into_inner())?;
    Ok(text)
}

/// A reader of three bytes that is interrupted by a signal before each one, and fails once.
#[derive(Drop)]
struct Faulty {
    calls: u8,
}

impl Read for Faulty {
    fn read(&mut self, buffer: &mut [u8]) -> io::Result<usize> {
        let call = self.calls;
        self.calls = call.saturating_add(1);
        if buffer.is_empty() {
            return Ok(0);
        }
        match call {
            1 | 3 | 7 => {
                buffer[0] = b'a' + call;
                Ok(1)
            }
            0 | 2 | 6 => Err(io::Error::from(ErrorKind::Interrupted)),
            4 => Err(io::Error::from(ErrorKind::BrokenPipe)),
            5 => Err(io::Error::from(ErrorKind::Interrupted)),
            _ => Ok(0),
        }
    }
}

fn faulty_bytes(alloc: Global) -> Result<String, AllocError> {
    given(alloc, &mut FromRead::new(Faulty { calls: 0 }), 5)
}

fn faulty_buffered_bytes(alloc: Global) -> Result<String, AllocError> {
    given(alloc, &mut Buffered::new(alloc, Faulty { calls: 0 })?, 5)
}

/// A writer that takes one byte at a time, and fails once after two.
#[derive(Drop)]
struct Narrow {
    taken: u8,
}

impl Write for Narrow {
    fn write(&mut self, bytes: &[u8]) -> io::Result<usize> {
        if self.taken >= 2 {
            return Err(io::Error::from(ErrorKind::BrokenPipe));
        }
        if bytes.is_empty() {
            return Ok(0);
        }
        self.taken += 1;
        Ok(1)
    }

    fn flush(&mut self) -> io::Result<()> {
        Ok(())
    }
}

fn narrow_sink(alloc: Global) -> Result<String, AllocError> {
    let mut sink = ToWrite::new(Narrow { taken: 0 });
    answers(alloc, &mut sink, &["ab", "", "c"])
}

/// Returns 70,000 bytes, more than a buffer holds.
fn many_bytes(alloc: Global) -> Result<Vec<u8>, AllocError> {
    let mut bytes = Vec::new(alloc);
    for i in 0..70000u32 {
        bytes.push(u8::try_from(i % 251).unwrap_or(0))?;
    }
    Ok(bytes)
}

/// Returns whether a source gives these bytes.
fn gives<S: Source>(source: &mut S, bytes: &[u8]) -> bool {
    for byte in bytes {
        if source.byte() != Ok(Some(*byte)) {
            return false;
        }
    }
    true
}

/// Returns whether a buffered source gives all of these many bytes, and then the end twice.
fn filled_again(alloc: Global) -> Result<String, AllocError> {
    let bytes = many_bytes(alloc)?;
    let mut source = Buffered::new(alloc, bytes.as_slice())?;
    let gives_all = gives(&mut source, &bytes);
    format!(in alloc; "{gives_all} {}", given(alloc, &mut source, 2)?)
}

/// Puts one of six names.
fn put_name<S: Sink>(sink: &mut S, pieces: &mut Pieces, at: u8) -> Result<(), Failed> {
    match at {
        0 => pieces.put_ring(sink, ring(4, 1)),
        1 => pieces.put_conf(sink, &ConfId::Regular(ring(4, 1))),
        2 => pieces.put_conf(sink, &transitional(8, 1, 12)),
        3 => pieces.put_message(sink, message(4294967295, 1, 7)),
        4 => pieces.put_place(sink, Version::One, place(65535, 50)),
        _ => pieces.put_number(sink, 10),
    }
}

/// Puts all six names, each with a space after it.
fn put_names<S: Sink>(sink: &mut S, pieces: &mut Pieces) -> Result<(), Failed> {
    for at in 0..6u8 {
        put_name(sink, pieces, at)?;
        pieces.put(sink, b" ")?;
    }
    pieces.flush(sink)?;
    pieces.flush(sink)
}

/// Returns what a sink has after names of all kinds were put in pieces.
fn gathered(alloc: Global) -> Result<String, AllocError> {
    let mut pieces = Pieces::new(alloc)?;
    let mut sink = ToWrite::new(Vec::new(alloc));
    let is_put = put_names(&mut sink, &mut pieces).is_ok();
    let mut text = format!(in alloc; "{is_put} ")?;
    push_bytes(&mut text, &sink.into_inner())?;
    Ok(text)
}

/// Puts 65 lines of 1,024 bytes.
fn put_lines<S: Sink>(sink: &mut S, pieces: &mut Pieces) -> Result<(), Failed> {
    let line = [b'x'; 1024];
    for _ in 0..65u32 {
        pieces.put(sink, &line)?;
    }
    Ok(())
}

/// Returns whether 65 lines are put and then flushed to a sink that fails at its second call, and how many bytes it holds.
fn large_piece(alloc: Global) -> Result<String, AllocError> {
    let mut sink = Fused::new(ToWrite::new(Vec::new(alloc)), 1);
    let mut pieces = Pieces::new(alloc)?;
    let are_put = put_lines(&mut sink, &mut pieces).is_ok();
    let is_flushed = pieces.flush(&mut sink).is_ok();
    format!(in alloc;
        "{are_put} {is_flushed} {}",
        sink.into_inner().into_inner().len()
    )
}

pub(crate) fn told(alloc: Global, name: &str) -> Result<String, AllocError> {
    match name {
        "fused bytes" => fused_bytes(alloc),
        "fused sink" => fused_sink(alloc),
        "faulty bytes" => faulty_bytes(alloc),
        "faulty buffered bytes" => faulty_buffered_bytes(alloc),
        "narrow sink" => narrow_sink(alloc),
        "filled again" => filled_again(alloc),
        "gathered" => gathered(alloc),
        "large piece" => large_piece(alloc),
        calls => fused_ring(alloc, calls.parse::<u64>().unwrap_or(0)),
    }
}

pub(crate) const STREAMS: [Case; 14] = [
    // a ring that is read from a source that fails after this many calls
    ("0", "Read"),
    ("1", "Read"),
    ("2", "Read"),
    ("3", "Read"),
    ("4", "Read"),
    ("5", "4.10"),
    ("fused bytes", "a!!b."),
    ("fused sink", "++!!4.1"),
    ("faulty bytes", "bd!h."),
    ("faulty buffered bytes", "bd!h."),
    ("narrow sink", "++!"),
    ("filled again", "true .."),
    (
        "gathered",
        "true 4.1 r4.1 t8.1/12 4294967295.1#7 65535@50 10 ",
    ),
    ("large piece", "true false 65536"),
];
