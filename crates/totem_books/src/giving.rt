//! Gives a node an input, and stores the call.
ghost use Rattle.std.specs.Prelude.{◌≡◌, ◌<◌, ◌+◌, ◌^◌, IfOk, OnOk, OnErr, vec_len};
ghost use Rattle.totem_books.specs.Replies.{answer_of};
ghost use Rattle.totem_books.specs.History.{receipt};
ghost use Rattle.totem_books.specs.Taking.{IsTaken, IsAdded};

use crate::call::{Call, Stub};
use crate::reply::Reply;
use crate::stepping::stepped;
use std::alloc::{AllocError, Global};
use totem_core::{Input, NodeCore};
use totem_evs::Entry;

/// Returns the receipt of the call at this place.
fn receipt_of(alloc: Global, place: u64, input: &Input, reply: &Reply) -> Result<Stub, AllocError>
    ensures { IfOk result (λ stub. stub ≡ receipt place input.now (answer_of reply.now)) }
{
    let reply = reply.try_clone(alloc)?;
    let input = input.try_clone(alloc)?;
    Ok(Stub {
        at: place,
        input,
        reply,
    })
}

/// Gives the node the input, as the call at this place.
fn give(
    alloc: Global,
    node: &mut NodeCore,
    place: u64,
    input: &Input,
) -> Result<(Stub, Reply), AllocError>
    ensures { IfOk result (λ r. IsTaken node.old input.now place node.new r.0 (answer_of r.1)) }
{
    let reply = stepped(alloc, node, input.try_clone(alloc)?)?;
    let stub = receipt_of(alloc, place, input, &reply)?;
    Ok((stub, reply))
}

/// Adds the call of this receipt to the calls, and its entries to the log.
fn add(
    alloc: Global,
    calls: &mut Vec<Call>,
    log: &mut Vec<Entry>,
    stub: &Stub,
) -> Result<(), AllocError>
    ensures added { OnOk result (IsAdded calls.old.items calls.new.items log.old.items log.new.items stub.now) }
    ensures unchanged { OnErr result ((calls.new.items ≡ calls.old.items) × (log.new.items ≡ log.old.items)) }
{
    let call = stub.call(alloc)?;
    let mut entries = stub.reply.entries(alloc)?;
    calls.reserve(1)?;
    log.append(&mut entries)?;
    calls.push_reserved(call);
    Ok(())
}

/// Gives the node the input and stores the call. At a fault nothing is stored, but the node may have taken the input.
pub fn give_and_store(
    alloc: Global,
    calls: &mut Vec<Call>,
    log: &mut Vec<Entry>,
    node: &mut NodeCore,
    input: &Input,
) -> Result<(Stub, Reply), AllocError>
    requires { vec_len calls.old < 1000000 }
    ensures taken { IfOk result (λ r. IsTaken node.old input.now (vec_len calls.old + 1) node.new r.0 (answer_of r.1)) }
    ensures added { IfOk result (λ r. IsAdded calls.old.items calls.new.items log.old.items log.new.items r.0) }
    ensures unchanged { OnErr result ((calls.new.items ≡ calls.old.items) × (log.new.items ≡ log.old.items)) }
{
    let (stub, reply) = give(alloc, node, calls.len() as u64 + 1, input)?;
    match add(alloc, calls, log, &stub) {
        Ok(()) => Ok((stub, reply)),
        Err(e) => Err(e),
    }
}
