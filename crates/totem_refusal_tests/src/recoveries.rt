//! A ring's messages, a recovery, and the finish that is worked out by hand. Each call that is refused is made again.
use crate::samples::{four, proc, ring, told};
use bytes::Bytes;
use std::alloc::{AllocError, Global};
use std::test::Fail;
use totem_evs::Entry;
use totem_names::Service;
use totem_packets::{
    Body, CommitMember, CommitMembers, CommitToken, Life, Message, Number, Payload, Processes,
    Report, Round,
};
use totem_recover::{Recovery, is_ready};
use totem_ring::{RingFault, RingOut, RingState, first_token};

/// Messages of which 3 is safe and sent by 3, 5 is safe and sent by 2, and the others are agreed; 7 is missing.
const OLD_MESSAGES: [(u32, u16, Service); 8] = [
    (1, 1, Service::Agreed),
    (2, 2, Service::Agreed),
    (3, 3, Service::Safe),
    (4, 1, Service::Agreed),
    (5, 2, Service::Safe),
    (6, 1, Service::Agreed),
    (8, 1, Service::Agreed),
    (9, 3, Service::Agreed),
];

pub fn app(service: Service) -> Body {
    Body::App {
        service,
        payload: Payload::of(Bytes::from_static(b"x")),
    }
}

fn message(number: u32, sender: u16, service: Service) -> Message {
    Message {
        ring: four(),
        number: Number::of(number.max(1)),
        sender: proc(sender),
        body: app(service),
    }
}

fn once_member(alloc: Global, me: u16) -> Result<RingState, AllocError> {
    RingState::new(alloc, proc(me), four(), &[proc(1), proc(2), proc(3)])
}

/// Returns member `me` of ring 4.1 of 1, 2 and 3.
fn member(alloc: Global, me: u16) -> Result<RingState, AllocError> {
    again!(once_member(alloc, me))
}

fn heard_out(
    alloc: Global,
    state: &mut RingState,
    message: &Message,
) -> Result<RingOut, RingFault> {
    match state.on_message(alloc, message) {
        Err(RingFault::Memory) => state.on_message(alloc, message),
        answer => answer,
    }
}

/// Takes a message.
fn hear(alloc: Global, state: &mut RingState, message: &Message) -> Result<(), RingFault> {
    let _ = heard_out(alloc, state, message)?;
    Ok(())
}

fn copied_ring(alloc: Global, state: &RingState) -> Result<RingState, AllocError> {
    again!(state.try_clone(alloc))
}

/// Replaces the member by a copy.
fn go_on(alloc: Global, state: &mut RingState) -> Result<(), AllocError> {
    let copy = copied_ring(alloc, state)?;
    *state = copy;
    Ok(())
}

fn hear_all(alloc: Global, state: &mut RingState) -> Result<(), RingFault> {
    for (number, sender, service) in &OLD_MESSAGES {
        hear(alloc, state, &message(*number, *sender, *service))?;
        go_on(alloc, state)?;
    }
    Ok(())
}

fn heard(alloc: Global, me: u16) -> Result<RingState, RingFault> {
    let mut state = member(alloc, me)?;
    hear_all(alloc, &mut state)?;
    Ok(state)
}

fn reporting(me: u16, delivered: u32) -> CommitMember {
    CommitMember {
        proc: proc(me),
        report: Some(Report {
            life: Life::first(),
            ring: four(),
            aru: 6,
            delivered,
            obligation: Processes::none(),
        }),
    }
}

fn once_members(alloc: Global) -> Result<Vec<CommitMember>, AllocError> {
    let mut members = Vec::new(alloc);
    let first = reporting(1, 2);
    // Without this the prover does not know the type of a report here.
    let _has_reported = first.report.is_some();
    members.push(first)?;
    members.push(reporting(2, 3))?;
    Ok(members)
}

fn members(alloc: Global) -> Result<Vec<CommitMember>, AllocError> {
    again!(once_members(alloc))
}

fn token(alloc: Global) -> Result<CommitToken, Fail> {
    Ok(CommitToken {
        ring: ring(8),
        round: Round::Second,
        members: CommitMembers::new(members(alloc)?)?,
    })
}

/// Begins the recovery of 1, or returns `None` if it may not begin.
fn once_begun(
    alloc: Global,
    prev: &RingState,
    token: &CommitToken,
) -> Result<Option<Recovery>, AllocError> {
    let me = proc(1);
    if !is_ready(me, prev, token) {
        return Ok(None);
    }
    Ok(Some(Recovery::new(alloc, me, prev, token)?))
}

fn begun(
    alloc: Global,
    prev: &RingState,
    token: &CommitToken,
) -> Result<Option<Recovery>, AllocError> {
    again!(once_begun(alloc, prev, token))
}

fn begun_with(alloc: Global, prev: &RingState, token: &CommitToken) -> Result<Recovery, Fail> {
    match begun(alloc, prev, token)? {
        Some(recovery) => Ok(recovery),
        None => Err("it may not begin".into()),
    }
}

/// Returns the recovery of 1 as it begins.
pub fn begun_by_1(alloc: Global) -> Result<Recovery, Fail> {
    let prev = heard(alloc, 1)?;
    let token = token(alloc)?;
    begun_with(alloc, &prev, &token)
}

fn bodies(alloc: Global, recovery: &Recovery) -> Result<Vec<Body>, AllocError> {
    again!(recovery.next_bodies(alloc))
}

/// Returns the number of bodies that a first visit sends.
fn count(alloc: Global, recovery: &Recovery) -> Result<usize, AllocError> {
    let bodies = bodies(alloc, recovery)?;
    Ok(bodies.len())
}

fn entries(alloc: Global, recovery: &Recovery, prev: &RingState) -> Result<Vec<Entry>, AllocError> {
    again!(recovery.finish(alloc, prev))
}

/// Returns what is written when the ring is left.
fn finished(alloc: Global, recovery: &Recovery, prev: &RingState) -> Result<String, AllocError> {
    let entries = entries(alloc, recovery, prev)?;
    told(alloc, &entries)
}

fn end(
    alloc: Global,
    recovery: &Recovery,
    prev: &RingState,
) -> Result<(String, usize), AllocError> {
    let count = count(alloc, recovery)?;
    Ok((finished(alloc, recovery, prev)?, count))
}

fn copied(alloc: Global, recovery: &Recovery) -> Result<Recovery, AllocError> {
    again!(recovery.try_clone(alloc))
}

fn end_of_copy(
    alloc: Global,
    recovery: &Recovery,
    prev: &RingState,
) -> Result<(String, usize), AllocError> {
    let copy = copied(alloc, recovery)?;
    end(alloc, &copy, prev)
}

fn left_with(
    alloc: Global,
    prev: &RingState,
    token: &CommitToken,
) -> Result<(String, usize), Fail> {
    let recovery = begun_with(alloc, prev, token)?;
    Ok(end_of_copy(alloc, &recovery, prev)?)
}

fn left(alloc: Global, prev: &RingState) -> Result<(String, usize), Fail> {
    let token = token(alloc)?;
    left_with(alloc, prev, &token)
}

/// Returns what 1 writes when it leaves its old ring, and the number of bodies that its first visit sends.
fn old_ring_left(alloc: Global) -> Result<(String, usize), Fail> {
    let prev = heard(alloc, 1)?;
    left(alloc, &prev)
}

/// A member that leaves its old ring writes the finish that is worked out by hand.
#[test]
fn the_old_ring_is_left(rt: HostRuntime) -> Result<(), Fail> {
    let (text, bodies) = old_ring_left(rt.alloc())?;
    assert_eq!(rt;
        (text.as_str(), bodies),
        (
            "dlv r4.1 4.1#3;dlv r4.1 4.1#4;conf t8.1/1 1 2;dlv t8.1/1 4.1#5;dlv t8.1/1 4.1#6;dlv t8.1/1 4.1#8;conf r8.1 1 2;",
            3
        )
    );
    Ok(())
}

/// Submits a body.
pub fn submit(state: &mut RingState, service: Service) -> Result<(), RingFault> {
    match state.submit(app(service)) {
        Err(RingFault::Memory) => state.submit(app(service)),
        answer => answer,
    }
}

/// Returns what a member does when the first token comes.
pub fn visit(alloc: Global, state: &mut RingState) -> Result<RingOut, RingFault> {
    let token = first_token(alloc, four());
    match state.on_token(alloc, &token) {
        Err(RingFault::Memory) => state.on_token(alloc, &token),
        answer => answer,
    }
}

/// Returns how many packets a visit sends, and how many messages it delivers to the node.
fn visited(alloc: Global, state: &mut RingState) -> Result<[usize; 2], RingFault> {
    let out = visit(alloc, state)?;
    Ok([out.packets.len(), out.handed.len()])
}

fn sent_again(alloc: Global, state: &RingState) -> Result<RingOut, RingFault> {
    again!(state.on_resend(alloc))
}

fn resent(alloc: Global, state: &RingState) -> Result<usize, RingFault> {
    let out = sent_again(alloc, state)?;
    Ok(out.packets.len())
}

fn is_repeat(alloc: Global, state: &mut RingState) -> bool {
    matches!(visit(alloc, state), Err(RingFault::Repeat))
}

fn adopt(state: &mut RingState, message: &Message) -> Result<(), RingFault> {
    match state.adopt(message) {
        Err(RingFault::Memory) => state.adopt(message),
        answer => answer,
    }
}

fn submit_two(state: &mut RingState) -> Result<(), RingFault> {
    submit(state, Service::Agreed)?;
    submit(state, Service::Agreed)
}

/// Returns how many packets a member with two bodies sends, delivers to the node and sends again.
fn first_visit(alloc: Global, state: &mut RingState) -> Result<[usize; 3], RingFault> {
    submit_two(state)?;
    let [sent, handed] = visited(alloc, state)?;
    Ok([sent, handed, resent(alloc, state)?])
}

/// Returns how many messages a member holds after it has adopted one, and how many bodies wait.
fn adopts(state: &mut RingState) -> Result<[usize; 2], RingFault> {
    adopt(state, &message(4, 2, Service::Agreed))?;
    Ok([state.held().len(), state.waiting().len()])
}

fn lived(alloc: Global, state: &mut RingState) -> Result<[usize; 5], Fail> {
    let [sent, handed, again] = first_visit(alloc, state)?;
    if !is_repeat(alloc, state) {
        return Err("the token is taken twice".into());
    }
    let [held, waiting] = adopts(state)?;
    Ok([sent, handed, again, held, waiting])
}

/// Returns the numbers for a member that submits two bodies, takes the first token, and adopts a message. The first token is a repeat
/// when it arrives again.
fn ring_life(alloc: Global) -> Result<[usize; 5], Fail> {
    let mut state = member(alloc, 1)?;
    lived(alloc, &mut state)
}

/// A member of a ring submits, takes a token, sends again and adopts, although calls are refused.
#[test]
fn a_member_of_a_ring_goes_on(rt: HostRuntime) -> Result<(), Fail> {
    assert_eq!(rt; ring_life(rt.alloc())?, [3, 2, 1, 3, 0]);
    Ok(())
}
