//! The reader of certificates (docs/SPECIFICATIONS.md, "Certificate text"). What its text shares with that of a run is read by
//! totem_evs `heads`.
ghost use Rattle.totem_names.specs.Sources.{Reads, seen};
ghost use Rattle.totem_certificate.specs.CertGrammar.{numbers_at, lines_at, cert_at};
ghost use Rattle.totem_certificate.specs.Reading.{ReadsCert};

use crate::cert_fault::CertFault;
use crate::certificate::Certificate;
use crate::form::CertText;
use crate::line::Line;
use crate::lines::Lines;
use crate::numbers::Numbers;
use std::alloc::Global;
use totem_evs::{read_head, read_header};
use totem_names::{ReadError, Source, TextFault, Version, number};

// Reads numbers up to the end of the line.
fn read_numbers<S: Source>(alloc: Global, source: &mut S) -> Result<Numbers, ReadError>
    ensures { Reads (seen S.remaining S.failures source.old)
        (seen S.remaining S.failures source.new) result (numbers_at 1000000) }
{
    let mut list = Vec::new(alloc);
    for _ in 0..1_000_000u32 {
        let (number, byte) = number(source, u32::MAX)?;
        list.push(number)?;
        if byte == b'\n' {
            return Ok(Numbers::of(list));
        }
        if byte != b' ' {
            return Err(ReadError::Text(TextFault::Word));
        }
    }
    Err(ReadError::Text(TextFault::TooMany))
}

// Reads the lines of a certificate, and its last line.
fn read_lines<S: Source>(
    alloc: Global,
    source: &mut S,
    version: Version,
) -> Result<Lines, ReadError>
    ensures { Reads (seen S.remaining S.failures source.old)
        (seen S.remaining S.failures source.new) result (lines_at version 33 0) }
{
    let mut lines = Vec::new(alloc);
    let mut last = 0u32;
    'lines: for count in 0..33u32 {
        match read_head::<CertText, S>(source, version, count == 32, last)? {
            None => return Ok(Lines::of(lines)),
            Some(proc) => {
                let numbers = read_numbers(alloc, source)?;
                let line = Line { proc, numbers };
                line.keeps_its_rules();
                lines.push(line)?;
                last = proc.rank();
            }
        }
    }
    Err(ReadError::Text(TextFault::TooMany))
}

// Reads a certificate from its first line on.
#[tactic(auto, using(totem_evs::proofs::ReaderSteps::reader_steps), unfolding(crate::specs::CertGrammar::cert_at))]
fn read_text<S: Source>(alloc: Global, source: &mut S) -> Result<Certificate, ReadError>
    ensures { Reads (seen S.remaining S.failures source.old)
        (seen S.remaining S.failures source.new) result cert_at }
{
    let version = read_header::<CertText, S>(source)?;
    let lines = read_lines(alloc, source, version)?;
    Ok(Certificate { version, lines })
}

/// Reads a certificate from the first byte to the line `end`, and leaves unread what follows.
pub fn read_cert<S: Source>(alloc: Global, source: &mut S) -> Result<Certificate, CertFault>
    ensures { ReadsCert (seen S.remaining S.failures source.old)
        (seen S.remaining S.failures source.new) result }
{
    let certificate = read_text(alloc, source)?;
    Ok(certificate)
}
