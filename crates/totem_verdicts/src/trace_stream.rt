//! From the text of a run to what became of one message in it.
ghost use Rattle.std.specs.Prelude.{◌≡◌, []};
ghost use Rattle.totem_names.specs.Sources.{seen};
ghost use Rattle.totem_names.specs.Writing.{held};
ghost use Rattle.totem_verdicts.specs.TraceIo.{TracesRun};

use crate::audit_stream::read_whole;
use crate::report::write_text;
use crate::verdict_fault::VerdictFault;
use std::alloc::Global;
use totem_explain::explain_message;
use totem_names::{MsgId, Sink, Source};

/// Reads the text of a run to the end of the input, and writes what became of a message in it (docs/PROGRAM.md, "One message"), in lines of
/// this many columns. Returns whether a log names the message. The run is not judged.
pub fn trace_io<R: Source, W: Sink>(
    alloc: Global,
    input: &mut R,
    output: &mut W,
    message: MsgId,
    columns: usize,
) -> Result<bool, VerdictFault>
    ensures { TracesRun (seen R.remaining R.failures input.old) (seen R.remaining R.failures input.new)
        (held W.contents W.failures [] output.old) (held W.contents W.failures [] output.new) result }
{
    let run = read_whole(alloc, input)?;
    let Ok(traced) = explain_message(alloc, &run, message, columns) else {
        return Err(VerdictFault::Memory);
    };
    write_text(alloc, traced.text.as_bytes(), output)?;
    Ok(traced.is_found)
}
