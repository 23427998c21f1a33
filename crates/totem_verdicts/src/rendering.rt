//! What is made of a judged run other than the verdict in words: pictures, counts, partings and the membership.
use std::alloc::{AllocError, Global};
use totem_audit::Verdict;
use totem_draw::{draw_no, draw_views, draw_yes};
use totem_evs::Run;
use totem_explain::{Counts, Lacking, apart_lines, explain_views, stopped_by};

/// What is made of a run.
#[derive(Clone, Copy)]
pub enum Rendering {
    /// A picture of its verdict, in SVG (docs/PROGRAM.md, "Pictures"): of the fault with this number, from 1; if it has none, of the first
    /// fault or of a yes.
    Picture(Option<u32>),
    /// What it put to the test, a line for each count (docs/SPECIFICATIONS.md, "Counts").
    Counts,
    /// Where it parted, and what one side has that another lacks (docs/SPECIFICATIONS.md, "Apart").
    Apart,
    /// Its membership, in lines of this many columns (docs/PROGRAM.md, "The membership").
    Views(usize),
    /// A picture of its membership, in SVG.
    DrawnViews,
}

/// Returns the picture of a verdict on the run. If it has no fault with the number that is asked for, returns an empty text, and `lacking`
/// learns so.
fn drawn(
    alloc: Global,
    run: &Run,
    verdict: &Verdict,
    number: Option<u32>,
    lacking: &mut Lacking,
) -> Result<String, AllocError> {
    let first = number.unwrap_or(1);
    let count = match verdict {
        Verdict::Yes { pending, .. } => match number {
            None => return draw_yes(alloc, run, pending),
            Some(_) => 0,
        },
        Verdict::No { faults } => match draw_no(alloc, run, faults, first as usize)? {
            Some(picture) => return Ok(picture),
            None => faults.len(),
        },
    };
    lacking.miss_fault(alloc, first, count)?;
    Ok(String::new(alloc))
}

/// Returns the lines of the counts of a run with this verdict.
fn count_lines(
    alloc: Global,
    run: &Run,
    verdict: &Verdict,
    lacking: &mut Lacking,
) -> Result<String, AllocError> {
    let stopped = match verdict {
        Verdict::Yes { .. } => None,
        Verdict::No { faults } => stopped_by(faults),
    };
    counted(alloc, run, lacking)?.lines(alloc, stopped)
}

/// Counts what a run put to the test, and which required counts it lacks.
pub fn counted(alloc: Global, run: &Run, lacking: &mut Lacking) -> Result<Counts, AllocError> {
    let counts = Counts::of(alloc, run)?;
    lacking.learn(alloc, &counts)?;
    Ok(counts)
}

/// Returns the text that is made of a verdict on the run.
pub fn rendered(
    alloc: Global,
    run: &Run,
    verdict: &Verdict,
    rendering: Rendering,
    lacking: &mut Lacking,
) -> Result<String, AllocError> {
    match rendering {
        Rendering::Picture(number) => drawn(alloc, run, verdict, number, lacking),
        Rendering::Counts => count_lines(alloc, run, verdict, lacking),
        Rendering::Apart => apart_lines(alloc, run, matches!(verdict, Verdict::Yes { .. })),
        Rendering::Views(columns) => explain_views(alloc, run, columns),
        Rendering::DrawnViews => draw_views(alloc, run),
    }
}
