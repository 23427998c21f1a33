//! The lines of a yes: what a run leaves open (docs/SPECIFICATIONS.md, "Report text"). What a yes of the checker depends on is in
//! totem_check, `checker`.
ghost use Rattle.std.specs.List.{flat_map};
ghost use Rattle.totem_names.specs.Writing.{Writes, held};
ghost use Rattle.totem_verdicts.specs.Report.{pending_line, waiting_line, yes_text};

use totem_evs::{Pending, Waiting};
use totem_names::{Failed, Pieces, Sink, Version, write_message, write_process};

/// No pending line takes more bytes.
const WIDTH: usize = 63;

/// Puts a pending line in one piece. Its end is written first, since the digits of a number come from the last to the first.
fn put_pending<S: Sink>(
    pieces: &mut Pieces,
    sink: &mut S,
    version: Version,
    pending: &Pending,
) -> Result<(), Failed>
    ensures { Writes (held S.contents S.failures pieces.old sink.old)
        (held S.contents S.failures pieces.new sink.new) result (pending_line version pending.now) }
{
    let mut text = [b'\n'; WIDTH];
    let message = write_message(&mut text, WIDTH - 1, b' ', pending.msg);
    let process = write_process(&mut text, message, b' ', version, pending.proc);
    let start = process - 7;
    text[start..process].copy_from_slice(b"pending");
    pieces.put(sink, &text[start..])
}

fn put_each_pending<S: Sink>(
    pieces: &mut Pieces,
    sink: &mut S,
    version: Version,
    list: &[Pending],
) -> Result<(), Failed>
    ensures { Writes (held S.contents S.failures pieces.old sink.old)
        (held S.contents S.failures pieces.new sink.new) result (flat_map (pending_line version) list.now) }
{
    for pending in list {
        put_pending(pieces, sink, version, pending)?;
    }
    Ok(())
}

#[tactic(auto, using(totem_names::proofs::Writers::wrote_then, totem_names::proofs::Writers::wrote_failed))]
fn put_waiting<S: Sink>(
    pieces: &mut Pieces,
    sink: &mut S,
    version: Version,
    waiting: &Waiting,
) -> Result<(), Failed>
    ensures { Writes (held S.contents S.failures pieces.old sink.old)
        (held S.contents S.failures pieces.new sink.new) result (waiting_line version waiting.now) }
{
    pieces.put(sink, b"waiting ")?;
    pieces.put_process(sink, version, waiting.proc)?;
    pieces.put(sink, b" ")?;
    pieces.put_conf(sink, &waiting.conf)?;
    pieces.put(sink, b" ")?;
    pieces.put_process(sink, version, waiting.other)?;
    pieces.put(sink, b"\n")
}

fn put_each_waiting<S: Sink>(
    pieces: &mut Pieces,
    sink: &mut S,
    version: Version,
    list: &[Waiting],
) -> Result<(), Failed>
    ensures { Writes (held S.contents S.failures pieces.old sink.old)
        (held S.contents S.failures pieces.new sink.new) result (flat_map (waiting_line version) list.now) }
{
    for waiting in list {
        put_waiting(pieces, sink, version, waiting)?;
    }
    Ok(())
}

/// Puts the first line of a yes, and then the lines of what is pending and waiting.
#[tactic(auto, using(totem_names::proofs::Writers::wrote_then, totem_names::proofs::Writers::wrote_failed))]
pub fn put_yes<S: Sink>(
    pieces: &mut Pieces,
    sink: &mut S,
    version: Version,
    pending: &[Pending],
    waiting: &[Waiting],
) -> Result<(), Failed>
    ensures { Writes (held S.contents S.failures pieces.old sink.old)
        (held S.contents S.failures pieces.new sink.new) result (yes_text version pending.now waiting.now) }
{
    pieces.put(sink, b"verdict yes\n")?;
    put_each_pending(pieces, sink, version, pending)?;
    put_each_waiting(pieces, sink, version, waiting)
}
