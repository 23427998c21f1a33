ghost use Rattle.std.specs.Prelude.{◌≡◌, ◌<◌, ◌≤◌, ◌↔◌, ◌∷◌, ◌++◌, IsTrue, IfOk, OnOk, length};
ghost use Rattle.totem_evs.specs.Classes.{IsAtMost};
ghost use Rattle.totem_evs.specs.ClosedLists.{unless, IsTurned, BeginsLeast};
ghost use Rattle.totem_cert.specs.Progress.{StandsBefore, IsForwardFrom, IsLeastUpTo};

use crate::step::Step;
use std::alloc::{AllocError, Global};
use totem_names::Place;

/// Returns the event from which the step after step `i` in forward order leads.
fn before(steps: &[Step], again: usize, i: usize) -> Place
    requires from { again ≤ i }
    requires within { i < length steps.now }
    ensures { StandsBefore steps.now again i result }
{
    let behind = if i == again { steps.len() } else { i };
    let step = steps[behind - 1];
    step.from
}

/// Appends the two events of a step. The second is left out if the next step leads from it.
fn write_step(places: &mut Vec<Place>, step: &Step, before: &Place) -> Result<(), AllocError>
    ensures { OnOk result (places.new.items ≡ places.old.items ++ (step.now.from ∷ unless step.now.to before.now)) }
{
    places.push(step.from)?;
    if step.to != *before {
        places.push(step.to)?;
    }
    Ok(())
}

/// Returns the events of a round's steps, in forward order.
pub fn forward(alloc: Global, steps: &[Step], again: usize) -> Result<Vec<Place>, AllocError>
    requires { again < length steps.now }
    ensures { IfOk result (λ places. IsForwardFrom steps.now again again places.items) }
{
    let mut places = Vec::new(alloc);
    let mut i = steps.len();
    while again < i {
        i -= 1;
        let before = before(steps, again, i);
        write_step(&mut places, &steps[i], &before)?;
    }
    Ok(places)
}

fn is_at_most(e: &Place, f: &Place) -> bool
    ensures { IsTrue result ↔ IsAtMost e.now f.now }
{
    let p = e.proc.rank();
    let q = f.proc.rank();
    p < q || (p == q && e.at <= f.at)
}

/// Returns the index of the least place.
fn least_of(places: &[Place]) -> usize
    requires { 0 < length places.now }
    ensures within { result < length places.now }
    ensures least { IsLeastUpTo places.now result (length places.now) }
{
    let mut least = 0;
    for (i, place) in places.iter().enumerate() {
        if !is_at_most(&places[least], place) {
            least = i;
        }
    }
    least
}

/// Returns the same list, starting at its least place.
pub fn turned(alloc: Global, places: &[Place]) -> Result<Vec<Place>, AllocError>
    requires { 0 < length places.now }
    ensures turned { IfOk result (λ list. IsTurned places.now list.items) }
    ensures least { IfOk result (λ list. BeginsLeast list.items) }
{
    let least = least_of(places);
    let mut list = Vec::from_slice(alloc, &places[least..])?;
    list.extend_from_slice(&places[..least])?;
    Ok(list)
}
