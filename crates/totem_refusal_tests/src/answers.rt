//! Copies of what rings, nodes and books answer. A value and its copy are printed alike. Each copy that is refused is made again.
use crate::recoveries::{app, submit as submit_body, visit};
use crate::samples::{first, four, submit};
use std::alloc::{AllocError, Global};
use std::fmt;
use std::test::Fail;
use totem_books::{Book, BookFault, Call, Reply, Stub};
use totem_core::{Input, StepOut};
use totem_evs::Members;
use totem_names::{Proc, ProcId, Service};
use totem_packets::Packet;
use totem_ring::{Act, RingFault, RingMove, RingOut, RingState, first_token};

fn once_shown<T: fmt::Debug>(alloc: Global, value: &T) -> Result<String, AllocError> {
    format!(in alloc; "{value:?}")
}

fn shown<T: fmt::Debug>(alloc: Global, value: &T) -> Result<String, AllocError> {
    again!(once_shown(alloc, value))
}

fn are_alike<T: fmt::Debug>(alloc: Global, value: &T, copy: &T) -> Result<bool, AllocError> {
    let text = shown(alloc, value)?;
    Ok(text.as_str() == shown(alloc, copy)?.as_str())
}

fn is_copied_out(alloc: Global, out: &RingOut) -> Result<bool, AllocError> {
    are_alike(alloc, out, &again!(out.try_clone(alloc))?)
}

fn is_copied_act(alloc: Global, act: &Act) -> Result<bool, AllocError> {
    are_alike(alloc, act, &again!(act.try_clone(alloc))?)
}

fn is_copied_move(alloc: Global, one: &RingMove) -> Result<bool, AllocError> {
    are_alike(alloc, one, &again!(one.try_clone(alloc))?)
}

fn is_copied_step(alloc: Global, out: &StepOut) -> Result<bool, AllocError> {
    are_alike(alloc, out, &again!(out.try_clone(alloc))?)
}

fn is_copied_reply(alloc: Global, reply: &Reply) -> Result<bool, AllocError> {
    are_alike(alloc, reply, &again!(reply.try_clone(alloc))?)
}

fn is_copied_stub(alloc: Global, stub: &Stub) -> Result<bool, AllocError> {
    are_alike(alloc, stub, &again!(stub.try_clone(alloc))?)
}

fn is_copied_call(alloc: Global, call: &Call) -> Result<bool, AllocError> {
    are_alike(alloc, call, &again!(call.try_clone(alloc))?)
}

fn new_ring(alloc: Global) -> Result<RingState, AllocError> {
    let members = [ProcId::of(1), ProcId::of(2)];
    again!(RingState::new(alloc, ProcId::of(1), four(), &members))
}

/// Returns what a member with a body sends and delivers to its node at its first visit.
fn first_visit(alloc: Global, state: &mut RingState) -> Result<RingOut, RingFault> {
    submit_body(state, Service::Agreed)?;
    visit(alloc, state)
}

/// Returns the act of a member that gets this packet.
fn act_of(packet: Packet) -> Act {
    match packet {
        Packet::Message(message) => Act::Message(message),
        Packet::Token(token) => Act::Token(token),
        _ => Act::Resend,
    }
}

/// Returns whether an act, and a move that is this act, are equal to their copies.
fn are_copied(alloc: Global, act: Act) -> Result<bool, AllocError> {
    let proc = ProcId::of(2);
    let is_copied = is_copied_act(alloc, &act)?;
    Ok(is_copied && is_copied_move(alloc, &RingMove { proc, act })?)
}

fn are_all_copied(alloc: Global, out: RingOut) -> Result<bool, AllocError> {
    let mut is_copied = is_copied_out(alloc, &out)?;
    for (_to, packet) in out.packets {
        is_copied = is_copied && are_copied(alloc, act_of(packet))?;
    }
    Ok(is_copied)
}

/// What a visit sends and delivers, and the acts on a ring, are equal to their copies.
#[test]
fn what_a_ring_does_is_copied(rt: HostRuntime) -> Result<(), Fail> {
    let alloc = rt.alloc();
    let out = first_visit(alloc, &mut new_ring(alloc)?)?;
    assert_eq!(rt; [out.packets.len(), out.handed.len()], [2, 1]);
    let are_sent = are_all_copied(alloc, out)?;
    let is_submitted = are_copied(alloc, Act::Submit(app(Service::Safe)))?;
    let is_resent = are_copied(alloc, Act::Resend)?;
    assert_eq!(rt; [are_sent, is_submitted, is_resent], [true; 3]);
    Ok(())
}

fn new_book(alloc: Global, members: &Members) -> Result<Book, AllocError> {
    let me = Proc::first(ProcId::of(1));
    again!(Book::new(alloc, me, four(), members.as_slice()))
}

/// Returns an input: a client's message, or the first token.
fn input(alloc: Global, is_message: bool) -> Input {
    if is_message {
        submit()
    } else {
        Input::Packet(Packet::Token(first_token(alloc, four())))
    }
}

fn applied(alloc: Global, book: &mut Book, is_message: bool) -> Result<(Stub, Reply), BookFault> {
    again!(book.apply(alloc, input(alloc, is_message)))
}

fn is_copied_done(alloc: Global, reply: &Reply) -> Result<bool, AllocError> {
    match reply {
        Reply::Done(out) => is_copied_step(alloc, out),
        Reply::Refused(_) => Ok(false),
    }
}

fn are_calls_copied(alloc: Global, calls: &[Call]) -> Result<bool, AllocError> {
    let mut is_copied = !calls.is_empty();
    for call in calls {
        is_copied = is_copied && is_copied_call(alloc, call)?;
    }
    Ok(is_copied)
}

/// Returns whether the reply to an input and its receipt are equal to their copies, and whether the node took the input.
fn gives_copies(alloc: Global, book: &mut Book, is_message: bool) -> Result<[bool; 3], Fail> {
    let (stub, reply) = applied(alloc, book, is_message)?;
    Ok([
        is_copied_stub(alloc, &stub)?,
        is_copied_reply(alloc, &reply)?,
        is_copied_done(alloc, &reply)?,
    ])
}

/// What a book answers, taken and refused, its receipts and its calls are equal to their copies.
#[test]
fn what_a_book_answers_is_copied(rt: HostRuntime) -> Result<(), Fail> {
    let alloc = rt.alloc();
    let mut book = new_book(alloc, &first(alloc, 1)?)?;
    let message = gives_copies(alloc, &mut book, true)?;
    let token = gives_copies(alloc, &mut book, false)?;
    let once_more = gives_copies(alloc, &mut book, false)?;
    assert_eq!(rt;
        [message, token, once_more],
        [[true; 3], [true; 3], [true, true, false]]
    );
    let are_copied = are_calls_copied(alloc, book.calls())?;
    assert!(rt; are_copied);
    Ok(())
}
