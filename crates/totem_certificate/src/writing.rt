//! Writes the text of a certificate.
ghost use Rattle.std.specs.Prelude.{◌≤◌, [], length};
ghost use Rattle.std.specs.List.{flat_map};
ghost use Rattle.totem_names.specs.Processes.{process_text};
ghost use Rattle.totem_names.specs.Writing.{Writes, held};
ghost use Rattle.totem_evs.specs.WriteRun.{WritesText};
ghost use Rattle.totem_certificate.specs.CertText.{numbers_text, line_text, cert_text};

use crate::certificate::Certificate;
use crate::form::CertText;
use crate::line::Line;
use std::alloc::Global;
use totem_evs::{WriteFault, put_header};
use totem_names::{Failed, Pieces, Sink, Version, write_number};

/// How many numbers are put at once.
const FEW: usize = 64;

/// How many bytes a number takes at most, with the space before it.
const WIDTH: usize = 11;

/// Puts at most 64 numbers at once. The last one is written first, since the digits of a number too come from the last to the first.
fn put_few<S: Sink>(pieces: &mut Pieces, sink: &mut S, numbers: &[u32]) -> Result<(), Failed>
    requires { length numbers.now ≤ 64 }
    ensures { Writes (held S.contents S.failures pieces.old sink.old)
        (held S.contents S.failures pieces.new sink.new) result (numbers_text numbers.now) }
{
    let mut text = [0; FEW * WIDTH];
    let mut start = text.len();
    let mut left = numbers.len();
    while left > 0 {
        left -= 1;
        start = write_number(&mut text, start, b' ', numbers[left]);
    }
    pieces.put(sink, &text[start..])
}

fn put_numbers<S: Sink>(pieces: &mut Pieces, sink: &mut S, numbers: &[u32]) -> Result<(), Failed>
    ensures { Writes (held S.contents S.failures pieces.old sink.old)
        (held S.contents S.failures pieces.new sink.new) result (numbers_text numbers.now) }
{
    let mut done = 0;
    while done < numbers.len() {
        let end = numbers.len().min(done + FEW);
        put_few(pieces, sink, &numbers[done..end])?;
        done = end;
    }
    Ok(())
}

#[tactic(auto, using(totem_names::proofs::Writers::wrote_then, totem_names::proofs::Writers::wrote_failed))]
fn put_line<S: Sink>(
    pieces: &mut Pieces,
    sink: &mut S,
    version: Version,
    line: &Line,
) -> Result<(), Failed>
    ensures { Writes (held S.contents S.failures pieces.old sink.old)
        (held S.contents S.failures pieces.new sink.new) result (line_text (process_text version) line.now) }
{
    pieces.put(sink, b"pos ")?;
    pieces.put_process(sink, version, line.proc)?;
    put_numbers(pieces, sink, line.numbers.as_slice())?;
    pieces.put(sink, b"\n")
}

fn put_lines<S: Sink>(
    pieces: &mut Pieces,
    sink: &mut S,
    version: Version,
    lines: &[Line],
) -> Result<(), Failed>
    ensures { Writes (held S.contents S.failures pieces.old sink.old)
        (held S.contents S.failures pieces.new sink.new) result (flat_map (line_text (process_text version)) lines.now) }
{
    for line in lines {
        put_line(pieces, sink, version, line)?;
    }
    Ok(())
}

/// Gathers the text of a certificate.
#[tactic(auto, using(totem_names::proofs::Writers::wrote_then, totem_names::proofs::Writers::wrote_failed))]
pub fn put_cert<S: Sink>(
    pieces: &mut Pieces,
    sink: &mut S,
    certificate: &Certificate,
) -> Result<(), Failed>
    ensures { Writes (held S.contents S.failures pieces.old sink.old)
        (held S.contents S.failures pieces.new sink.new) result (cert_text certificate.now) }
{
    put_header::<CertText, S>(pieces, sink, certificate.version)?;
    put_lines(
        pieces,
        sink,
        certificate.version,
        certificate.lines.as_slice(),
    )?;
    pieces.put(sink, b"end\n")
}

/// Writes the text of a certificate, in pieces of about 64 KiB.
pub fn write_cert<S: Sink>(
    alloc: Global,
    certificate: &Certificate,
    sink: &mut S,
) -> Result<(), WriteFault>
    ensures { WritesText (held S.contents S.failures [] sink.old)
        (held S.contents S.failures [] sink.new) result (cert_text certificate.now) }
{
    let Ok(mut pieces) = Pieces::new(alloc) else {
        return Err(WriteFault::Memory);
    };
    if put_cert(&mut pieces, sink, certificate).is_err() || pieces.flush(sink).is_err() {
        return Err(WriteFault::Write);
    }
    Ok(())
}
