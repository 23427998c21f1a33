//! From the text of a run to the explanation of its verdict.
ghost use Rattle.std.specs.Prelude.{◌≡◌, []};
ghost use Rattle.std.specs.List.{flat_map};
ghost use Rattle.totem_names.specs.Sources.{seen};
ghost use Rattle.totem_names.specs.Writing.{Writes, held};
ghost use Rattle.totem_evs.specs.WriteRun.{WritesText};
ghost use Rattle.totem_audit.specs.Verdicts.{answer_of};
ghost use Rattle.totem_verdicts.specs.declared.explain_stream.Explanation.TheVariants.{Words, Rendered};
ghost use Rattle.totem_verdicts.specs.ExplainIo.{ExplainsRun, WritesExplanation, explained_text, explained_no_text};

use crate::audit_stream::{judge, outcome, read_whole};
use crate::outcome::Outcome;
use crate::rendering::{Rendering, counted, rendered};
use crate::report::{put_fault, write_text};
use crate::verdict_fault::VerdictFault;
use std::alloc::Global;
use std::sync::Wait;
use std::thread::Threads;
use totem_audit::{Verdict, Workers};
use totem_evs::{Run, WriteFault};
use totem_explain::{Counts, Explained, ExplainedNo, Lacking, explain_no, explain_yes};
use totem_names::{Failed, Pieces, Sink, Source, Version};

/// What is written of a run that was judged.
#[derive(Clone, Copy)]
pub enum Explanation {
    /// The verdict in words, and what the run put to the test (docs/PROGRAM.md, "Explanations"), in lines of this many columns. Only a longer
    /// word and the lines of the faults, which are those of the report, are longer.
    Words(usize),
    /// Something else than the verdict in words.
    Rendered(Rendering),
}

#[tactic(auto, using(totem_names::proofs::Writers::wrote_then, totem_names::proofs::Writers::wrote_failed))]
fn put_explained<S: Sink>(
    pieces: &mut Pieces,
    sink: &mut S,
    version: Version,
    one: &Explained,
) -> Result<(), Failed>
    ensures { Writes (held S.contents S.failures pieces.old sink.old)
        (held S.contents S.failures pieces.new sink.new) result (explained_text version one.now) }
{
    pieces.put(sink, b"\n")?;
    put_fault(pieces, sink, version, &one.fault)?;
    pieces.put(sink, b"\n")?;
    pieces.put(sink, one.text.as_bytes())
}

fn put_each_explained<S: Sink>(
    pieces: &mut Pieces,
    sink: &mut S,
    version: Version,
    list: &[Explained],
) -> Result<(), Failed>
    ensures { Writes (held S.contents S.failures pieces.old sink.old)
        (held S.contents S.failures pieces.new sink.new) result (flat_map (explained_text version) list.now) }
{
    for one in list {
        put_explained(pieces, sink, version, one)?;
    }
    Ok(())
}

#[tactic(auto, using(totem_names::proofs::Writers::wrote_then, totem_names::proofs::Writers::wrote_failed))]
fn put_no<S: Sink>(
    pieces: &mut Pieces,
    sink: &mut S,
    version: Version,
    words: &ExplainedNo,
) -> Result<(), Failed>
    ensures { Writes (held S.contents S.failures pieces.old sink.old)
        (held S.contents S.failures pieces.new sink.new) result (explained_no_text version words.now) }
{
    pieces.put(sink, words.heading.as_bytes())?;
    put_each_explained(pieces, sink, version, &words.faults)?;
    pieces.put(sink, words.closing.as_bytes())
}

/// Writes the explanation of a no.
fn write_no<S: Sink>(
    alloc: Global,
    version: Version,
    words: &ExplainedNo,
    sink: &mut S,
) -> Result<(), WriteFault>
    ensures { WritesText (held S.contents S.failures [] sink.old)
        (held S.contents S.failures [] sink.new) result (explained_no_text version words.now) }
{
    let Ok(mut pieces) = Pieces::new(alloc) else {
        return Err(WriteFault::Memory);
    };
    if put_no(&mut pieces, sink, version, words).is_err() || pieces.flush(sink).is_err() {
        return Err(WriteFault::Write);
    }
    Ok(())
}

/// Writes a verdict on the run, which has these counts, in words.
fn write_words<S: Sink>(
    alloc: Global,
    run: &Run,
    verdict: &Verdict,
    counts: &Counts,
    columns: usize,
    sink: &mut S,
) -> Result<(), WriteFault>
    ensures { WritesExplanation (Words columns) run.now.version (held S.contents S.failures [] sink.old)
        (held S.contents S.failures [] sink.new) result (answer_of verdict.now) }
{
    match verdict {
        Verdict::Yes {
            pending,
            waiting,
            ..
        } => {
            let Ok(text) = explain_yes(alloc, run, pending, waiting, counts, columns) else {
                return Err(WriteFault::Memory);
            };
            write_text(alloc, text.as_bytes(), sink)
        }
        Verdict::No { faults } => {
            let Ok(words) = explain_no(alloc, run, faults, counts, columns) else {
                return Err(WriteFault::Memory);
            };
            write_no(alloc, run.version, &words, sink)
        }
    }
}

/// Writes what is made of a verdict on the run.
fn write_rendered<S: Sink>(
    alloc: Global,
    run: &Run,
    verdict: &Verdict,
    rendering: Rendering,
    lacking: &mut Lacking,
    sink: &mut S,
) -> Result<(), WriteFault>
    ensures { WritesExplanation (Rendered rendering) run.now.version (held S.contents S.failures [] sink.old)
        (held S.contents S.failures [] sink.new) result (answer_of verdict.now) }
{
    let Ok(text) = rendered(alloc, run, verdict, rendering, lacking) else {
        return Err(WriteFault::Memory);
    };
    write_text(alloc, text.as_bytes(), sink)
}

fn write_explanation<S: Sink>(
    alloc: Global,
    run: &Run,
    verdict: &Verdict,
    explanation: Explanation,
    lacking: &mut Lacking,
    sink: &mut S,
) -> Result<(), WriteFault>
    ensures { WritesExplanation explanation run.now.version (held S.contents S.failures [] sink.old)
        (held S.contents S.failures [] sink.new) result (answer_of verdict.now) }
{
    match explanation {
        Explanation::Words(columns) => {
            let Ok(counts) = counted(alloc, run, lacking) else {
                return Err(WriteFault::Memory);
            };
            write_words(alloc, run, verdict, &counts, columns, sink)
        }
        Explanation::Rendered(rendering) => {
            write_rendered(alloc, run, verdict, rendering, lacking, sink)
        }
    }
}

/// Reads the text of a run to the end of the input, judges the run, and writes an explanation of the verdict. The outcome is that of
/// `audit_io`, and the text is the same for every number of workers. `lacking` learns the counts, if they are written, and that a fault is
/// not there; then nothing is written.
pub fn explain_io<T: Threads + Wait + Sync, R: Source, W: Sink>(
    rt: &T,
    alloc: Global,
    input: &mut R,
    output: &mut W,
    workers: Workers,
    explanation: Explanation,
    lacking: &mut Lacking,
) -> Result<Outcome, VerdictFault>
    ensures { ExplainsRun explanation (seen R.remaining R.failures input.old) (seen R.remaining R.failures input.new)
        (held W.contents W.failures [] output.old) (held W.contents W.failures [] output.new) result }
{
    let run = read_whole(alloc, input)?;
    let Ok(verdict) = judge(rt, alloc, &run, workers) else {
        return Err(VerdictFault::Memory);
    };
    write_explanation(alloc, &run, &verdict, explanation, lacking, output)?;
    Ok(outcome(&verdict))
}
