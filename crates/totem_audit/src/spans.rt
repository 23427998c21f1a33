//! How many jobs a worker takes at a time.
ghost use Rattle.std.specs.Prelude.{◌<◌, ◌≤◌, IfOk};
ghost use Rattle.totem_audit.specs.Spans.{AreCut};

use std::alloc::{AllocError, Global};

/// Consecutive jobs: from one index up to another, counted from 0.
#[derive(Clone, Copy)]
pub struct Span {
    pub from: usize,
    pub to: usize,
}

/// How many jobs are taken at a time at most. Cheap jobs then share the cost of a channel message, and few jobs wait after an
/// expensive one.
const MOST: usize = 16;

/// Returns how many of the jobs that are left are taken next: half of a worker's equal share, but at least one, and not too many.
fn size(left: usize, workers: u32) -> usize
    requires some { 0 < left }
    requires workers { 0 < workers }
    ensures { (0 < result) × (result ≤ left) }
{
    let half = left / workers as usize / 2;
    half.clamp(1, MOST)
}

/// Cuts the given number of jobs into spans. The last ones are single jobs, so that no worker has much to do when the others are done.
pub fn spans(alloc: Global, count: usize, workers: u32) -> Result<Vec<Span>, AllocError>
    requires { 0 < workers }
    ensures { IfOk result (λ spans. AreCut 0 spans.items count) }
{
    let mut spans = Vec::new(alloc);
    let mut from = 0;
    while from < count {
        let to = from + size(count - from, workers);
        spans.push(Span { from, to })?;
        from = to;
    }
    Ok(spans)
}
