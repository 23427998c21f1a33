//! The text of a report (docs/SPECIFICATIONS.md, "Report text").
ghost use Rattle.std.specs.Prelude.{◌≡◌, [], ◌++◌, codes};
ghost use Rattle.std.specs.List.{flat_map};
ghost use Rattle.totem_names.specs.Processes.{process_text};
ghost use Rattle.totem_names.specs.Writing.{Writes, held};
ghost use Rattle.totem_evs.specs.SpecNo.{spec_text};
ghost use Rattle.totem_evs.specs.ReportText.{places_text, fault_text};
ghost use Rattle.totem_evs.specs.RunText.{line};
ghost use Rattle.totem_evs.specs.WriteRun.{WritesText};
ghost use Rattle.totem_certificate.specs.Keeping.{certificate_version};
ghost use Rattle.totem_audit.specs.Verdicts.{answer_of, HasVersion};
ghost use Rattle.totem_verdicts.specs.Report.{no_text, report_text, accepted_text};

use crate::left_open::put_yes;
use std::alloc::Global;
use totem_audit::Verdict;
use totem_certificate::put_cert;
use totem_check::Accepted;
use totem_evs::{Fault, SpecNo, WriteFault};
use totem_names::{Failed, Pieces, Place, Sink, Version};

/// What a report of a yes ends with. A no is reported in the same way in both forms.
#[derive(Clone, Copy, PartialEq, Debug)]
pub enum Form {
    /// The certificate.
    Whole,
    /// The line `end`, as the checker's yes.
    Brief,
}

fn put_spec<S: Sink>(pieces: &mut Pieces, sink: &mut S, spec: SpecNo) -> Result<(), Failed>
    ensures { Writes (held S.contents S.failures pieces.old sink.old)
        (held S.contents S.failures pieces.new sink.new) result (spec_text spec) }
{
    pieces.put(sink, spec.as_str().as_bytes())
}

fn put_places<S: Sink>(
    pieces: &mut Pieces,
    sink: &mut S,
    version: Version,
    places: &[Place],
) -> Result<(), Failed>
    ensures { Writes (held S.contents S.failures pieces.old sink.old)
        (held S.contents S.failures pieces.new sink.new) result (places_text (process_text version) places.now) }
{
    for place in places {
        pieces.put(sink, b" ")?;
        pieces.put_place(sink, version, *place)?;
    }
    Ok(())
}

/// Puts a fault, without the end of its line.
#[tactic(auto, using(totem_names::proofs::Writers::wrote_then, totem_names::proofs::Writers::wrote_failed))]
pub(crate) fn put_fault<S: Sink>(
    pieces: &mut Pieces,
    sink: &mut S,
    version: Version,
    fault: &Fault,
) -> Result<(), Failed>
    ensures { Writes (held S.contents S.failures pieces.old sink.old)
        (held S.contents S.failures pieces.new sink.new) result (fault_text (process_text version) fault.now) }
{
    pieces.put(sink, b"fault ")?;
    put_spec(pieces, sink, fault.spec)?;
    put_places(pieces, sink, version, fault.places.as_slice())
}

fn put_faults<S: Sink>(
    pieces: &mut Pieces,
    sink: &mut S,
    version: Version,
    faults: &[Fault],
) -> Result<(), Failed>
    ensures { Writes (held S.contents S.failures pieces.old sink.old)
        (held S.contents S.failures pieces.new sink.new) result (flat_map (λ fault. line (fault_text (process_text version) fault)) faults.now) }
{
    for fault in faults {
        put_fault(pieces, sink, version, fault)?;
        pieces.put(sink, b"\n")?;
    }
    Ok(())
}

/// Puts the report of a no.
#[tactic(auto, using(totem_names::proofs::Writers::wrote_then, totem_names::proofs::Writers::wrote_failed))]
fn put_no<S: Sink>(
    pieces: &mut Pieces,
    sink: &mut S,
    version: Version,
    faults: &[Fault],
) -> Result<(), Failed>
    ensures { Writes (held S.contents S.failures pieces.old sink.old)
        (held S.contents S.failures pieces.new sink.new) result (no_text version faults.now) }
{
    pieces.put(sink, b"verdict no\n")?;
    put_faults(pieces, sink, version, faults)?;
    pieces.put(sink, b"end\n")
}

#[tactic(auto, using(totem_names::proofs::Writers::wrote_then, totem_names::proofs::Writers::wrote_failed))]
fn put_report<S: Sink>(
    pieces: &mut Pieces,
    sink: &mut S,
    version: Version,
    form: Form,
    verdict: &Verdict,
) -> Result<(), Failed>
    requires { HasVersion (certificate_version version) verdict.now }
    ensures { Writes (held S.contents S.failures pieces.old sink.old)
        (held S.contents S.failures pieces.new sink.new) result (report_text form version (answer_of verdict.now)) }
{
    match verdict {
        Verdict::Yes {
            certificate,
            pending,
            waiting,
        } => {
            put_yes(pieces, sink, version, pending, waiting)?;
            match form {
                Form::Whole => put_cert(pieces, sink, certificate),
                Form::Brief => pieces.put(sink, b"end\n"),
            }
        }
        Verdict::No { faults } => put_no(pieces, sink, version, faults),
    }
}

/// Puts the checker's yes.
#[tactic(auto, using(totem_names::proofs::Writers::wrote_then, totem_names::proofs::Writers::wrote_failed))]
fn put_accepted<S: Sink>(
    pieces: &mut Pieces,
    sink: &mut S,
    version: Version,
    accepted: &Accepted,
) -> Result<(), Failed>
    ensures { Writes (held S.contents S.failures pieces.old sink.old)
        (held S.contents S.failures pieces.new sink.new) result (accepted_text version accepted.now.pending.items accepted.now.waiting.items) }
{
    put_yes(pieces, sink, version, &accepted.pending, &accepted.waiting)?;
    pieces.put(sink, b"end\n")
}

/// Writes the report of a verdict on a run of this version, in pieces of about 64 KiB.
pub fn write_report<S: Sink>(
    alloc: Global,
    version: Version,
    form: Form,
    verdict: &Verdict,
    sink: &mut S,
) -> Result<(), WriteFault>
    requires { HasVersion (certificate_version version) verdict.now }
    ensures { WritesText (held S.contents S.failures [] sink.old)
        (held S.contents S.failures [] sink.new) result (report_text form version (answer_of verdict.now)) }
{
    let Ok(mut pieces) = Pieces::new(alloc) else {
        return Err(WriteFault::Memory);
    };
    if put_report(&mut pieces, sink, version, form, verdict).is_err()
        || pieces.flush(sink).is_err()
    {
        return Err(WriteFault::Write);
    }
    Ok(())
}

/// Writes the report of the checker's yes to a run of this version.
pub fn write_accepted<S: Sink>(
    alloc: Global,
    version: Version,
    accepted: &Accepted,
    sink: &mut S,
) -> Result<(), WriteFault>
    ensures { WritesText (held S.contents S.failures [] sink.old)
        (held S.contents S.failures [] sink.new) result (accepted_text version accepted.now.pending.items accepted.now.waiting.items) }
{
    let Ok(mut pieces) = Pieces::new(alloc) else {
        return Err(WriteFault::Memory);
    };
    if put_accepted(&mut pieces, sink, version, accepted).is_err() || pieces.flush(sink).is_err() {
        return Err(WriteFault::Write);
    }
    Ok(())
}

/// Writes the report of a no to a run of this version, with these faults.
pub fn write_no<S: Sink>(
    alloc: Global,
    version: Version,
    faults: &[Fault],
    sink: &mut S,
) -> Result<(), WriteFault>
    ensures { WritesText (held S.contents S.failures [] sink.old)
        (held S.contents S.failures [] sink.new) result (no_text version faults.now) }
{
    let Ok(mut pieces) = Pieces::new(alloc) else {
        return Err(WriteFault::Memory);
    };
    if put_no(&mut pieces, sink, version, faults).is_err() || pieces.flush(sink).is_err() {
        return Err(WriteFault::Write);
    }
    Ok(())
}

/// Writes a text.
pub fn write_text<S: Sink>(alloc: Global, text: &[u8], sink: &mut S) -> Result<(), WriteFault>
    ensures { WritesText (held S.contents S.failures [] sink.old)
        (held S.contents S.failures [] sink.new) result text.now }
{
    let Ok(mut pieces) = Pieces::new(alloc) else {
        return Err(WriteFault::Memory);
    };
    if pieces.put(sink, text).is_err() || pieces.flush(sink).is_err() {
        return Err(WriteFault::Write);
    }
    Ok(())
}
