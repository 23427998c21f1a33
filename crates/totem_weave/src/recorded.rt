//! What books recorded of one ring.
ghost use Rattle.std.specs.Prelude.{◌≡◌, ◌<◌, ◌++◌, [], length, MatchBool, MatchOption, OnOk, IfOk};
ghost use Rattle.totem_ring.specs.Rings.{same_ring};
ghost use Rattle.totem_weave.specs.Recorded.{acts_on, call_acts, calls_acts, recorded, StandsIn, IsBookOf};

use std::alloc::{AllocError, Global};
use totem_books::{Call, ClosedBook, Reply};
use totem_core::RingStep;
use totem_names::{Proc, RingId};
use totem_ring::{Act, is_same_ring};

/// Returns the book of this process, or the first of them if there are several.
pub fn book_of(books: &[ClosedBook], ring: RingId, proc: Proc) -> Option<&ClosedBook>
    ensures { MatchOption result (recorded ring books.now proc ≡ []) (λ book. IsBookOf ring books.now proc book.now) }
{
    for book in books {
        if proc == book.me() {
            return Some(book);
        }
    }
    None
}

/// Returns whether the step was taken on the ring.
fn is_on(ring: RingId, step: &RingStep) -> bool
    ensures { result ≡ same_ring step.now.ring ring }
{
    is_same_ring(step.ring, ring)
}

fn put_steps(
    acts: &mut Vec<Act>,
    alloc: Global,
    ring: RingId,
    steps: &[RingStep],
) -> Result<(), AllocError>
    ensures { OnOk result (acts.new.items ≡ acts.old.items ++ acts_on ring steps.now) }
{
    for step in steps {
        if is_on(ring, step) {
            acts.push(step.act.try_clone(alloc)?)?;
        }
    }
    Ok(())
}

fn put_call(acts: &mut Vec<Act>, alloc: Global, ring: RingId, call: &Call) -> Result<(), AllocError>
    ensures { OnOk result (acts.new.items ≡ acts.old.items ++ call_acts ring call.now) }
{
    match &call.reply {
        Reply::Done(out) => put_steps(acts, alloc, ring, &out.ring_steps),
        Reply::Refused(_) => Ok(()),
    }
}

/// Returns copies of the acts that these calls did on the ring, one after the other.
pub fn acts_in(alloc: Global, ring: RingId, calls: &[Call]) -> Result<Vec<Act>, AllocError>
    ensures { IfOk result (λ acts. acts.items ≡ calls_acts ring calls.now) }
{
    let mut acts = Vec::new(alloc);
    for call in calls {
        put_call(&mut acts, alloc, ring, call)?;
    }
    Ok(acts)
}

fn count_on(ring: RingId, steps: &[RingStep]) -> usize
    ensures { result ≡ length (acts_on ring steps.now) }
{
    let mut count = 0;
    for step in steps {
        if is_on(ring, step) {
            count += 1;
        }
    }
    count
}

/// Returns the number of steps that the call took on the ring.
fn count_in(ring: RingId, call: &Call) -> usize
    ensures { result ≡ length (call_acts ring call.now) }
{
    match &call.reply {
        Reply::Done(out) => count_on(ring, &out.ring_steps),
        Reply::Refused(_) => 0,
    }
}

/// Returns whether none of these calls took a step on the ring.
pub fn tell_none(ring: RingId, calls: &[Call]) -> bool
    ensures { MatchBool result (calls_acts ring calls.now ≡ []) (¬ (calls_acts ring calls.now ≡ [])) }
{
    for call in calls {
        if count_in(ring, call) > 0 {
            return false;
        }
    }
    true
}

/// Returns the index of the call that has the step with this number, counted from 0.
pub fn call_of(ring: RingId, calls: &[Call], step: usize) -> usize
    requires { step < length (calls_acts ring calls.now) }
    ensures { StandsIn ring calls.now step result }
{
    let mut left = step;
    for (at, call) in calls.iter().enumerate() {
        let count = count_in(ring, call);
        if left < count {
            return at;
        }
        left -= count;
    }
    calls.len()
}
