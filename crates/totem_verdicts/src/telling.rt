//! What the program prints on standard error. Printing doesn't allocate, and ignores a failure of that stream.
ghost use Rattle.std.specs.Prelude.{◌≡◌, ◌++◌, decimal};
ghost use Rattle.totem_names.specs.Processes.{process_text};
ghost use Rattle.totem_names.specs.Writing.{Writes};
ghost use Rattle.totem_verdicts.specs.Endings.{Tells, bare, refusal_text, missing_text, run_line, cert_line, check_line, fault_line, fault_status};

use crate::verdict_fault::VerdictFault;
use totem_certificate::CertFault;
use totem_check::CheckFault;
use totem_evs::RunFault;
use totem_names::{Failed, Sink, WrittenProc};

fn put_bytes<E: Sink>(errors: &mut E, bytes: &[u8]) -> Result<(), Failed>
    ensures { Writes (bare E.contents E.failures errors.old) (bare E.contents E.failures errors.new) result bytes.now }
{
    errors.put(bytes)
}

fn put_number<E: Sink>(errors: &mut E, number: u16) -> Result<(), Failed>
    ensures { Writes (bare E.contents E.failures errors.old) (bare E.contents E.failures errors.new) result (decimal number) }
{
    let mut digits = itoa::Buffer::new();
    put_bytes(errors, digits.format(number).as_bytes())
}

/// Puts a text.
pub fn put_text<E: Sink>(errors: &mut E, text: &str) -> Result<(), Failed>
    ensures { Writes (bare E.contents E.failures errors.old) (bare E.contents E.failures errors.new) result text.now }
{
    put_bytes(errors, text.as_bytes())
}

/// Puts what was refused, the number of the fault and its name.
#[tactic(auto, using(totem_names::proofs::Writers::wrote_then, totem_names::proofs::Writers::wrote_failed))]
pub fn put_refusal<E: Sink>(
    errors: &mut E,
    front: &str,
    number: u8,
    name: &str,
) -> Result<(), Failed>
    ensures { Writes (bare E.contents E.failures errors.old) (bare E.contents E.failures errors.new)
        result (refusal_text front.now number name.now) }
{
    put_text(errors, front)?;
    put_number(errors, u16::from(number))?;
    put_text(errors, " ")?;
    put_text(errors, name)
}

/// Writes a process as the text that names it does.
#[tactic(auto, using(totem_names::proofs::Writers::wrote_then, totem_names::proofs::Writers::wrote_failed))]
fn put_process<E: Sink>(errors: &mut E, proc: WrittenProc) -> Result<(), Failed>
    ensures { Writes (bare E.contents E.failures errors.old) (bare E.contents E.failures errors.new)
        result (process_text proc.version proc.process) }
{
    let process = proc.process;
    if !proc.version.lives() {
        return put_number(errors, process.id().number());
    }
    put_number(errors, process.id().number())?;
    put_text(errors, ":")?;
    put_number(errors, process.life())
}

/// Writes the end of the line of a run's fault: for a missing log, the process without it.
#[tactic(auto, using(totem_names::proofs::Writers::wrote_then, totem_names::proofs::Writers::wrote_failed))]
fn put_missing<E: Sink>(errors: &mut E, fault: &RunFault) -> Result<(), Failed>
    ensures { Writes (bare E.contents E.failures errors.old) (bare E.contents E.failures errors.new) result (missing_text fault.now) }
{
    if let RunFault::MissingLog(proc) = fault {
        put_text(errors, " ")?;
        return put_process(errors, *proc);
    }
    Ok(())
}

/// Puts the line of a run's fault.
pub fn put_run_fault<E: Sink>(errors: &mut E, fault: &RunFault) -> Result<(), Failed>
    ensures { Writes (bare E.contents E.failures errors.old) (bare E.contents E.failures errors.new) result (run_line fault.now) }
{
    if let RunFault::Read = fault {
        return put_text(errors, "totem: read failed\n");
    }
    put_refusal(errors, "totem: run refused: ", fault.number(), fault.name())?;
    put_missing(errors, fault)?;
    put_text(errors, "\n")
}

/// Puts the line of a fault of a certificate that could not be read.
pub fn put_cert_fault<E: Sink>(errors: &mut E, fault: &CertFault) -> Result<(), Failed>
    ensures { Writes (bare E.contents E.failures errors.old) (bare E.contents E.failures errors.new) result (cert_line fault.now) }
{
    if let CertFault::Read = fault {
        return put_text(errors, "totem: read failed\n");
    }
    put_refusal(
        errors,
        "totem: certificate unreadable: ",
        fault.number(),
        fault.name(),
    )?;
    put_text(errors, "\n")
}

/// Puts the line of a fault of a certificate that was read.
pub fn put_check_fault<E: Sink>(errors: &mut E, fault: &CheckFault) -> Result<(), Failed>
    ensures { Writes (bare E.contents E.failures errors.old) (bare E.contents E.failures errors.new) result (check_line fault.now) }
{
    put_refusal(
        errors,
        "totem: certificate refused: ",
        fault.number(),
        fault.name(),
    )?;
    put_text(errors, "\n")
}

fn put_fault<E: Sink>(errors: &mut E, fault: &VerdictFault) -> Result<(), Failed>
    ensures { Writes (bare E.contents E.failures errors.old) (bare E.contents E.failures errors.new) result (fault_line fault.now) }
{
    match fault {
        VerdictFault::Run(fault) => put_run_fault(errors, fault),
        VerdictFault::Cert(fault) => put_cert_fault(errors, fault),
        VerdictFault::Refused(fault) => put_check_fault(errors, fault),
        VerdictFault::Memory => put_text(errors, "totem: out of memory\n"),
        VerdictFault::Write => put_text(errors, "totem: write failed\n"),
    }
}

/// Writes the line of a fault and an explanation after it.
#[tactic(auto, using(totem_names::proofs::Writers::wrote_then, totem_names::proofs::Writers::wrote_failed))]
fn put_with_words<E: Sink>(errors: &mut E, fault: &VerdictFault, words: &str) -> Result<(), Failed>
    ensures { Writes (bare E.contents E.failures errors.old) (bare E.contents E.failures errors.new) result
        (fault_line fault.now ++ words.now) }
{
    put_fault(errors, fault)?;
    put_text(errors, words)
}

/// Writes these bytes to standard error.
pub fn tell<E: Sink>(errors: &mut E, bytes: &[u8])
    ensures { Tells (bare E.contents E.failures errors.old) (bare E.contents E.failures errors.new) bytes.now }
{
    let _ = put_bytes(errors, bytes);
}

/// Prints the line of a fault, and returns the fault's status.
pub fn tell_fault<E: Sink>(errors: &mut E, fault: &VerdictFault) -> u8
    ensures line { Tells (bare E.contents E.failures errors.old) (bare E.contents E.failures errors.new) (fault_line fault.now) }
    ensures status { result ≡ fault_status fault.now }
{
    let _ = put_fault(errors, fault);
    status_of(fault)
}

/// Prints the line of a fault and an explanation after it, and returns the fault's status.
pub fn tell_with_words<E: Sink>(errors: &mut E, fault: &VerdictFault, words: &str) -> u8
    ensures line { Tells (bare E.contents E.failures errors.old) (bare E.contents E.failures errors.new) (fault_line fault.now ++ words.now) }
    ensures status { result ≡ fault_status fault.now }
{
    let _ = put_with_words(errors, fault, words);
    status_of(fault)
}

fn status_of(fault: &VerdictFault) -> u8
    ensures { result ≡ fault_status fault.now }
{
    match fault {
        VerdictFault::Run(RunFault::Read) | VerdictFault::Cert(CertFault::Read) => 4,
        VerdictFault::Run(_) | VerdictFault::Cert(_) | VerdictFault::Refused(_) => 2,
        VerdictFault::Memory => 3,
        VerdictFault::Write => 4,
    }
}
