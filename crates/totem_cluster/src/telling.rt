//! What the program prints on standard error about scripts, runs in threads and all faults. Printing doesn't allocate, and ignores a
//! failure of that stream.
ghost use Rattle.std.specs.Prelude.{◌≡◌, ◌++◌};
ghost use Rattle.totem_names.specs.Writing.{Writes};
ghost use Rattle.totem_verdicts.specs.Endings.{Tells, bare};
ghost use Rattle.totem_cluster.specs.declared.io_fault.IoFault.TheVariants.{Book};
ghost use Rattle.totem_cluster.specs.Endings.{script_line, fault_line, script_status, fault_status};

use crate::io_fault::IoFault;
use totem_certificate::CertFault;
use totem_evs::RunFault;
use totem_names::{Failed, Sink};
use totem_script::ScriptFault;
use totem_threads::BookTrouble;
use totem_verdicts::{put_cert_fault, put_check_fault, put_refusal, put_run_fault, put_text};

fn put_script_fault<E: Sink>(errors: &mut E, fault: &ScriptFault) -> Result<(), Failed>
    ensures { Writes (bare E.contents E.failures errors.old) (bare E.contents E.failures errors.new) result (script_line fault.now) }
{
    if let ScriptFault::Read = *fault {
        return put_text(errors, "totem: read failed\n");
    }
    put_refusal(
        errors,
        "totem: script refused: ",
        fault.number(),
        fault.name(),
    )?;
    put_text(errors, "\n")
}

fn put_book_trouble<E: Sink>(errors: &mut E, trouble: &BookTrouble) -> Result<(), Failed>
    ensures { Writes (bare E.contents E.failures errors.old) (bare E.contents E.failures errors.new) result (fault_line (Book trouble.now)) }
{
    put_refusal(
        errors,
        "totem: book refused: ",
        trouble.number(),
        trouble.name(),
    )?;
    put_text(errors, "\n")
}

fn put_fault<E: Sink>(errors: &mut E, fault: &IoFault) -> Result<(), Failed>
    ensures { Writes (bare E.contents E.failures errors.old) (bare E.contents E.failures errors.new) result (fault_line fault.now) }
{
    match fault {
        IoFault::Run(fault) => put_run_fault(errors, fault),
        IoFault::Cert(fault) => put_cert_fault(errors, fault),
        IoFault::Refused(fault) => put_check_fault(errors, fault),
        IoFault::Script(fault) => put_script_fault(errors, fault),
        IoFault::Book(trouble) => put_book_trouble(errors, trouble),
        IoFault::Memory => put_text(errors, "totem: out of memory\n"),
        IoFault::Write => put_text(errors, "totem: write failed\n"),
    }
}

/// Writes the line of a fault and an explanation after it.
#[tactic(auto, using(totem_names::proofs::Writers::wrote_then, totem_names::proofs::Writers::wrote_failed))]
fn put_with_words<E: Sink>(errors: &mut E, fault: &IoFault, words: &str) -> Result<(), Failed>
    ensures { Writes (bare E.contents E.failures errors.old) (bare E.contents E.failures errors.new) result
        (fault_line fault.now ++ words.now) }
{
    put_fault(errors, fault)?;
    put_text(errors, words)
}

/// Returns the status of a script's fault.
fn script_status(fault: ScriptFault) -> u8
    ensures { result ≡ script_status fault }
{
    match fault {
        ScriptFault::Read => 4,
        _ => 2,
    }
}

/// Prints the line of a fault, and returns the fault's status.
pub fn tell_fault<E: Sink>(errors: &mut E, fault: &IoFault) -> u8
    ensures line { Tells (bare E.contents E.failures errors.old) (bare E.contents E.failures errors.new) (fault_line fault.now) }
    ensures status { result ≡ fault_status fault.now }
{
    let _ = put_fault(errors, fault);
    status_of(fault)
}

/// Prints the line of a fault and an explanation after it, and returns the fault's status.
pub fn tell_with_words<E: Sink>(errors: &mut E, fault: &IoFault, words: &str) -> u8
    ensures line { Tells (bare E.contents E.failures errors.old) (bare E.contents E.failures errors.new) (fault_line fault.now ++ words.now) }
    ensures status { result ≡ fault_status fault.now }
{
    let _ = put_with_words(errors, fault, words);
    status_of(fault)
}

fn status_of(fault: &IoFault) -> u8
    ensures { result ≡ fault_status fault.now }
{
    match fault {
        IoFault::Run(RunFault::Read) | IoFault::Cert(CertFault::Read) => 4,
        IoFault::Script(fault) => script_status(*fault),
        IoFault::Run(_) | IoFault::Cert(_) | IoFault::Refused(_) | IoFault::Book(_) => 2,
        IoFault::Memory => 3,
        IoFault::Write => 4,
    }
}
