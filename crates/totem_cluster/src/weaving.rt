//! Runs of nodes in threads whose ring is woven.
ghost use Rattle.std.specs.Prelude.{◌≡◌, [], ◌++◌, decimal};
ghost use Rattle.std.specs.List.{flat_map};
ghost use Rattle.totem_names.specs.Writing.{Writes, held};
ghost use Rattle.totem_evs.specs.RunText.{line};
ghost use Rattle.totem_evs.specs.WriteRun.{WritesText};
ghost use Rattle.totem_threads.specs.Starts.{IsInRange};
ghost use Rattle.totem_cluster.specs.WeaveIo.{names_text, handed_text, steps_text, woven_text, orphan_text, weave_status, TellsRefusal, WeavesBooks, WeavesRun};

use crate::io_fault::IoFault;
use crate::recording::run_watched;
use std::alloc::Global;
use std::sync::Wait;
use std::thread::Threads;
use totem_books::ClosedBook;
use totem_evs::WriteFault;
use totem_names::{Failed, MsgId, Pieces, Place, Proc, ProcId, Sink};
use totem_net::{Progress, Quiet};
use totem_packets::Message;
use totem_threads::RunPlan;
use totem_weave::{WeaveFault, Woven, weave};

/// The outcome of weaving the ring of a run.
#[derive(Clone, Copy, Debug, PartialEq, Eq)]
pub enum Weave {
    /// One schedule takes all steps of the ring.
    Whole,
    /// A call fits no schedule.
    Orphan,
}

impl Weave {
    /// Returns the exit status.
    pub fn status(self) -> u8
        ensures { result ≡ weave_status self }
    {
        match self {
            Weave::Whole => 0,
            Weave::Orphan => 1,
        }
    }
}

/// Puts a count in decimal.
fn put_count<S: Sink>(pieces: &mut Pieces, sink: &mut S, count: usize) -> Result<(), Failed>
    ensures { Writes (held S.contents S.failures pieces.old sink.old)
        (held S.contents S.failures pieces.new sink.new) result (decimal count) }
{
    let mut digits = itoa::Buffer::new();
    pieces.put(sink, digits.format(count).as_bytes())
}

fn put_proc<S: Sink>(pieces: &mut Pieces, sink: &mut S, proc: ProcId) -> Result<(), Failed>
    ensures { Writes (held S.contents S.failures pieces.old sink.old)
        (held S.contents S.failures pieces.new sink.new) result (decimal proc) }
{
    pieces.put_number(sink, u32::from(proc.number()))
}

fn put_names<S: Sink>(pieces: &mut Pieces, sink: &mut S, messages: &[Message]) -> Result<(), Failed>
    ensures { Writes (held S.contents S.failures pieces.old sink.old)
        (held S.contents S.failures pieces.new sink.new) result (names_text messages.now) }
{
    for message in messages {
        pieces.put(sink, b" ")?;
        let name = MsgId {
            ring: message.ring,
            number: message.number.get(),
        };
        pieces.put_message(sink, name)?;
    }
    Ok(())
}

#[tactic(auto, using(totem_names::proofs::Writers::wrote_then, totem_names::proofs::Writers::wrote_failed))]
fn put_handed<S: Sink>(
    pieces: &mut Pieces,
    sink: &mut S,
    handed: &(Proc, Vec<Message>),
) -> Result<(), Failed>
    ensures { Writes (held S.contents S.failures pieces.old sink.old)
        (held S.contents S.failures pieces.new sink.new) result (handed_text handed.now.0 handed.now.1.items) }
{
    pieces.put(sink, b"handed ")?;
    put_proc(pieces, sink, handed.0.id())?;
    put_names(pieces, sink, &handed.1)
}

fn put_each_handed<S: Sink>(
    pieces: &mut Pieces,
    sink: &mut S,
    lists: &[(Proc, Vec<Message>)],
) -> Result<(), Failed>
    ensures { Writes (held S.contents S.failures pieces.old sink.old)
        (held S.contents S.failures pieces.new sink.new) result (flat_map (λ h. line (handed_text h.0 h.1.items)) lists.now) }
{
    for handed in lists {
        put_handed(pieces, sink, handed)?;
        pieces.put(sink, b"\n")?;
    }
    Ok(())
}

/// Puts the number of steps that were woven.
#[tactic(auto, using(totem_names::proofs::Writers::wrote_then, totem_names::proofs::Writers::wrote_failed))]
fn put_steps<S: Sink>(pieces: &mut Pieces, sink: &mut S, count: usize) -> Result<(), Failed>
    ensures { Writes (held S.contents S.failures pieces.old sink.old)
        (held S.contents S.failures pieces.new sink.new) result (steps_text count) }
{
    pieces.put(sink, b"woven ")?;
    put_count(pieces, sink, count)?;
    pieces.put(sink, b"\n")
}

#[tactic(auto, using(totem_names::proofs::Writers::wrote_then, totem_names::proofs::Writers::wrote_failed))]
fn put_woven<S: Sink>(pieces: &mut Pieces, sink: &mut S, woven: &Woven) -> Result<(), Failed>
    ensures { Writes (held S.contents S.failures pieces.old sink.old)
        (held S.contents S.failures pieces.new sink.new) result (woven_text woven.now) }
{
    let steps = woven.steps.as_slice();
    put_steps(pieces, sink, steps.len())?;
    put_each_handed(pieces, sink, &woven.handed)?;
    pieces.put(sink, b"end\n")
}

#[tactic(auto, using(totem_names::proofs::Writers::wrote_then, totem_names::proofs::Writers::wrote_failed))]
fn put_orphan<S: Sink>(pieces: &mut Pieces, sink: &mut S, place: Place) -> Result<(), Failed>
    ensures { Writes (held S.contents S.failures pieces.old sink.old)
        (held S.contents S.failures pieces.new sink.new) result (orphan_text place) }
{
    pieces.put(sink, b"orphan ")?;
    pieces.put_place(sink, place.proc.first_version(), place)?;
    pieces.put(sink, b"\nend\n")
}

fn write_woven<S: Sink>(alloc: Global, woven: &Woven, sink: &mut S) -> Result<(), WriteFault>
    ensures { WritesText (held S.contents S.failures [] sink.old)
        (held S.contents S.failures [] sink.new) result (woven_text woven.now) }
{
    let Ok(mut pieces) = Pieces::new(alloc) else {
        return Err(WriteFault::Memory);
    };
    if put_woven(&mut pieces, sink, woven).is_err() || pieces.flush(sink).is_err() {
        return Err(WriteFault::Write);
    }
    Ok(())
}

fn write_orphan<S: Sink>(alloc: Global, place: Place, sink: &mut S) -> Result<(), WriteFault>
    ensures { WritesText (held S.contents S.failures [] sink.old)
        (held S.contents S.failures [] sink.new) result (orphan_text place) }
{
    let Ok(mut pieces) = Pieces::new(alloc) else {
        return Err(WriteFault::Memory);
    };
    if put_orphan(&mut pieces, sink, place).is_err() || pieces.flush(sink).is_err() {
        return Err(WriteFault::Write);
    }
    Ok(())
}

/// Writes the text of a refusal to weave these books: the call that fits no schedule.
fn write_refusal<S: Sink>(alloc: Global, fault: &WeaveFault, sink: &mut S) -> Result<Weave, IoFault>
    ensures { TellsRefusal fault.now (held S.contents S.failures [] sink.old) (held S.contents S.failures [] sink.new) result }
{
    match fault {
        WeaveFault::Orphan(place) => {
            write_orphan(alloc, *place, sink)?;
            Ok(Weave::Orphan)
        }
        WeaveFault::Members | WeaveFault::Memory => Err(IoFault::Memory),
    }
}

/// Weaves the ring on which these books began, and writes the woven ring or the call that fits no schedule. The books are
/// expected to be those of the members of that ring.
fn write_weave<S: Sink>(alloc: Global, books: &[ClosedBook], sink: &mut S) -> Result<Weave, IoFault>
    ensures { WeavesBooks books.now (held S.contents S.failures [] sink.old) (held S.contents S.failures [] sink.new) result }
{
    let Some(first) = books.first() else {
        return Err(IoFault::Memory);
    };
    match weave(alloc, books, first.ring(), first.members()) {
        Ok(woven) => {
            write_woven(alloc, &woven, sink)?;
            Ok(Weave::Whole)
        }
        Err(fault) => write_refusal(alloc, &fault, sink),
    }
}

/// Runs nodes in threads, weaves ring 4.1 of their books, and writes the woven ring or the call that fits no schedule
/// (docs/PROTOCOL.md, "The woven ring"). Reports the progress, and what came of the run.
pub fn weave_io<R: Threads + Wait + Sync, W: Sink, P: Progress>(
    rt: &R,
    alloc: Global,
    plan: RunPlan,
    output: &mut W,
    progress: &mut P,
) -> Result<Weave, IoFault>
    requires { IsInRange plan }
    ensures { WeavesRun plan.nodes (held W.contents W.failures [] output.old) (held W.contents W.failures [] output.new) result }
{
    let (_, books) = run_watched(rt, alloc, plan, &Quiet, progress)?;
    write_weave(alloc, &books, output)
}
