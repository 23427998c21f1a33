//! What a token asks for on arrival and when it leaves.
ghost use Rattle.std.specs.Prelude.{◌≡◌, ◌≤◌, ◌<◌, IfOk, OnOk, IfSome, IfNone, filter, insert, length, not};
ghost use Rattle.totem_ring.specs.Departures.{IsAnswered};
ghost use Rattle.totem_ring.specs.Requests.{with_number, with_requests};
ghost use Rattle.totem_ring.specs.Rings.{holds};
ghost use Rattle.totem_ring.specs.Visits.{missing};

use crate::held::Held;
use std::alloc::{AllocError, Global};
use totem_packets::{Message, Number, Requests};

/// How many numbers a token asks for at most.
const MOST: usize = 64;

/// The requests of a token, split into what is held and what is not.
#[derive(Drop)]
pub struct Answered {
    /// Copies of the requested messages that are held.
    pub messages: Vec<Message>,
    /// The requested numbers that are not held.
    pub rtr: Vec<Number>,
}

/// Returns the index at which to insert this number into the ascending list, or `None` if the list has it already.
fn place_in(numbers: &[Number], number: u32) -> Option<usize>
    ensures within { IfSome result (λ place. place ≤ length numbers.now) }
    ensures place { IfSome result (λ place. with_number numbers.now number ≡ insert numbers.now place number) }
    ensures there { IfNone result (with_number numbers.now number ≡ numbers.now) }
{
    for (place, other) in numbers.iter().enumerate() {
        if number < other.get() {
            return Some(place);
        }
        if number == other.get() {
            return None;
        }
    }
    Some(numbers.len())
}

/// Returns the numbers in the list that are not held.
#[tactic(auto, using(crate::proofs::HoldingMore::steps))]
fn still_asked(alloc: Global, held: &Held, numbers: &[Number]) -> Result<Vec<Number>, AllocError>
    ensures { IfOk result (λ rtr. rtr.items ≡ filter (λ n. not (holds held.now n)) numbers.now) }
{
    let mut rtr = Vec::new(alloc);
    for number in numbers {
        if held.contains(number.get()) {
            continue;
        }
        rtr.push(*number)?;
    }
    Ok(rtr)
}

/// Splits the requests of a token into copies of the held messages and the numbers that are not held.
pub fn answer(alloc: Global, held: &Held, numbers: &Requests) -> Result<Answered, AllocError>
    ensures { IfOk result (IsAnswered held.now numbers.now) }
{
    let numbers = numbers.as_slice();
    Ok(Answered {
        messages: held.asked(alloc, numbers)?,
        rtr: still_asked(alloc, held, numbers)?,
    })
}

/// Adds requests for the numbers up to `seq` that are not held, the least first, until `rtr` has 64 numbers.
#[tactic(auto, using(crate::proofs::Missing::asking))]
pub fn ask_missing(rtr: &mut Vec<Number>, held: &Held, seq: u32) -> Result<(), AllocError>
    ensures { OnOk result (rtr.new.items ≡ with_requests rtr.old.items (missing held.now seq)) }
{
    for number in held.aru()..seq {
        if rtr.len() >= MOST {
            return Ok(());
        }
        if held.contains(number + 1) {
            continue;
        }
        if let Some(place) = place_in(rtr, number + 1) {
            rtr.insert(place, Number::of(number + 1))?;
        }
    }
    Ok(())
}
