//! The answer to a request for help or the version, and to usage errors (docs/PROGRAM.md).
ghost use Rattle.std.specs.Prelude.{◌≡◌, []};
ghost use Rattle.clap.specs.Values.{kind_of};
ghost use Rattle.totem_names.specs.Writing.{held};
ghost use Rattle.totem_verdicts.specs.Endings.{Answers, Shows, bare};

use crate::report::write_text;
use crate::telling::{tell, tell_fault};
use crate::verdict_fault::VerdictFault;
use clap::Error;
use clap::error::ErrorKind;
use std::alloc::{AllocError, Global};
use totem_evs::WriteFault;
use totem_names::Sink;

/// Returns the text that is printed.
fn text_of(alloc: Global, error: &Error) -> Result<String, AllocError> {
    if error.kind() == ErrorKind::OutOfMemory {
        return Err(AllocError);
    }
    error.to_string(alloc)
}

/// Writes help or the version, and returns the status.
fn show<W: Sink, E: Sink>(alloc: Global, text: &[u8], output: &mut W, errors: &mut E) -> u8
    ensures { Shows (held W.contents W.failures [] output.old) (held W.contents W.failures [] output.new)
        (bare E.contents E.failures errors.old) (bare E.contents E.failures errors.new) text.now result }
{
    match write_text(alloc, text, output) {
        Ok(()) => 0,
        Err(WriteFault::Memory) => tell_fault(errors, &VerdictFault::Memory),
        Err(WriteFault::Write) => tell_fault(errors, &VerdictFault::Write),
    }
}

/// Prints help, the version or a usage error, and returns the status.
pub fn answer<W: Sink, E: Sink>(alloc: Global, error: &Error, output: &mut W, errors: &mut E) -> u8
    ensures { Answers (kind_of error.now)
        (held W.contents W.failures [] output.old) (held W.contents W.failures [] output.new)
        (bare E.contents E.failures errors.old) (bare E.contents E.failures errors.new) result }
{
    let Ok(text) = text_of(alloc, error) else {
        return tell_fault(errors, &VerdictFault::Memory);
    };
    match error.kind() {
        ErrorKind::DisplayHelp | ErrorKind::DisplayVersion => {
            show(alloc, text.as_bytes(), output, errors)
        }
        _ => {
            tell(errors, text.as_bytes());
            64
        }
    }
}
