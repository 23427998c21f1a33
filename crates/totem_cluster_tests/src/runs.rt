//! What the threads of a run do, by the public call: what the books of every run have to show.
use std::alloc::{AllocError, Global};
use std::collections::BTreeMap;
use std::sync::{Mutex, Wait};
use std::test::*;
use std::thread;
use std::thread::Threads;
use std::time::{Clock, Duration};
use totem_books::{Call, ClosedBook, Reply};
use totem_cluster::{RunPlan, run_threads};
use totem_core::Input;
use totem_names::ProcId;
use totem_net::{Plan, Quiet, Start};
use totem_packets::Packet;
use totem_ring::To;

/// Returns how many calls of these books were made by a timer, and how many by a client.
fn turns(books: &[ClosedBook]) -> (usize, usize) {
    let mut timers = 0usize;
    let mut submits = 0usize;
    for book in books {
        for call in book.calls() {
            match call.input {
                Input::Timer => timers = timers.saturating_add(1),
                Input::Submit { .. } => submits = submits.saturating_add(1),
                _ => {}
            }
        }
    }
    (timers, submits)
}

/// Returns the bytes of a packet, followed by the number of the node that receives it.
fn passage(alloc: Global, to: ProcId, packet: &Packet) -> Result<Vec<u8>, AllocError> {
    let mut bytes = packet.encode(alloc)?;
    bytes.extend_from_slice(&to.number().to_be_bytes())?;
    Ok(bytes)
}

/// The packets that were sent, with their receivers, and whether a node other than the receiver sent each.
type Sent = BTreeMap<Vec<u8>, bool>;

/// Returns whether a packet that `from` sends goes to this node.
fn goes(to: &To, from: ProcId, node: ProcId) -> bool {
    match to {
        To::All => node != from,
        To::One(receiver) => node == *receiver,
    }
}

fn note_passage(
    alloc: Global,
    sent: &mut Sent,
    from: ProcId,
    node: ProcId,
    packet: &Packet,
) -> Result<(), AllocError> {
    let passage = passage(alloc, node, packet)?;
    let _ = sent.insert(passage, node != from)?;
    Ok(())
}

/// Records a packet of a node for each of the three nodes to which it goes.
fn note_packet(
    alloc: Global,
    sent: &mut Sent,
    from: ProcId,
    to: &To,
    packet: &Packet,
) -> Result<(), AllocError> {
    for number in 1..4 {
        let node = ProcId::of(number);
        if goes(to, from, node) {
            note_passage(alloc, sent, from, node, packet)?;
        }
    }
    Ok(())
}

fn note_packets(
    alloc: Global,
    sent: &mut Sent,
    from: ProcId,
    packets: &[(To, Packet)],
) -> Result<(), AllocError> {
    for (to, packet) in packets {
        note_packet(alloc, sent, from, to, packet)?;
    }
    Ok(())
}

/// Records the packets that one of three nodes sent in these calls.
fn note_calls(
    alloc: Global,
    sent: &mut Sent,
    from: ProcId,
    calls: &[Call],
) -> Result<(), AllocError> {
    for call in calls {
        if let Reply::Done(out) = &call.reply {
            note_packets(alloc, sent, from, &out.packets)?;
        }
    }
    Ok(())
}

fn note_books(alloc: Global, sent: &mut Sent, books: &[ClosedBook]) -> Result<(), AllocError> {
    for book in books {
        note_calls(alloc, sent, book.me().id(), book.calls())?;
    }
    Ok(())
}

fn all_sent(alloc: Global, books: &[ClosedBook]) -> Result<Sent, AllocError> {
    let mut sent = BTreeMap::new(alloc);
    note_books(alloc, &mut sent, books)?;
    Ok(sent)
}

/// Returns whether another node sent the packet that a node received, or `None` if no node sent it.
fn by_another(
    alloc: Global,
    sent: &Sent,
    node: ProcId,
    packet: &Packet,
) -> Result<Option<bool>, AllocError> {
    let passage = passage(alloc, node, packet)?;
    Ok(sent.get(&passage).copied())
}

/// Counts for one call the packets received that no node sent, and those that another node sent and this one took.
fn given_in(
    alloc: Global,
    sent: &Sent,
    node: ProcId,
    call: &Call,
) -> Result<(usize, usize), AllocError> {
    let Input::Packet(packet) = &call.input else {
        return Ok((0, 0));
    };
    match by_another(alloc, sent, node, packet)? {
        None => Ok((1, 0)),
        Some(by_another) => {
            let is_taken = by_another && matches!(call.reply, Reply::Done(_));
            Ok((0, usize::from(is_taken)))
        }
    }
}

/// Counts the same for all calls of a book.
fn given(alloc: Global, sent: &Sent, book: &ClosedBook) -> Result<(usize, usize), AllocError> {
    let mut unsent = 0usize;
    let mut taken = 0usize;
    for call in book.calls() {
        let (none, one) = given_in(alloc, sent, book.me().id(), call)?;
        unsent = unsent.saturating_add(none);
        taken = taken.saturating_add(one);
    }
    Ok((unsent, taken))
}

fn given_to_all(
    alloc: Global,
    sent: &Sent,
    books: &[ClosedBook],
) -> Result<(usize, bool), AllocError> {
    let mut unsent = 0usize;
    let mut each = true;
    for book in books {
        let (none, taken) = given(alloc, sent, book)?;
        unsent = unsent.saturating_add(none);
        each = each && taken > 0;
    }
    Ok((unsent, each))
}

/// Returns how many of the packets received no node sent, and whether each node took a packet that another sent.
fn all_given(alloc: Global, books: &[ClosedBook]) -> Result<(usize, bool), AllocError> {
    let sent = all_sent(alloc, books)?;
    given_to_all(alloc, &sent, books)
}

/// What the books of a run show.
#[derive(Clone, Copy)]
struct Findings {
    books: usize,
    /// How many calls were made by timers, and how many by clients.
    turns: (usize, usize),
    /// How many of the packets received no node sent.
    unsent: usize,
    /// Whether each node took a packet of another.
    each: bool,
}

fn found_in(alloc: Global, books: &[ClosedBook]) -> Result<Findings, AllocError> {
    let (unsent, each) = all_given(alloc, books)?;
    Ok(Findings {
        books: books.len(),
        turns: turns(books),
        unsent,
        each,
    })
}

/// Runs three nodes for this many ticks, over a network that follows the plan.
fn found_in_run<S: Start, R: Threads + Wait + Sync>(
    rt: &R,
    alloc: Global,
    ticks: u32,
    plan: Option<Plan>,
    start: &S,
) -> Result<Findings, Fail> {
    let Some(plan) = plan.and_then(|plan| RunPlan::new(3, ticks, 1, plan)) else {
        return Err(Fail::from("no plan"));
    };
    match run_threads(rt, alloc, plan, start) {
        Ok((_, books)) => Ok(found_in(alloc, &books)?),
        Err(_) => Err(Fail::from("no run")),
    }
}

/// Timers and clients get all their turns, and each packet but the first token was sent by a node.
#[test]
fn words_and_packets_are_those_of_a_network(rt: HostRuntime) -> Result<(), Fail> {
    for _ in 0..10 {
        let found = found_in_run(&rt, rt.alloc(), 4000, Plan::new(0, 0, 0), &Quiet)?;
        assert_eq!(rt; found.turns, (500, 500));
        assert_eq!(rt; found.unsent, 1, "only the first token was sent by no node");
        if found.each {
            return Ok(());
        }
    }
    panic!(rt; "in ten runs, a node took no packet of another");
}

/// Timers and clients get all their turns in a network that loses packets, too.
#[test]
fn a_network_that_loses_has_each_word_too(rt: HostRuntime) -> Result<(), Fail> {
    let found = found_in_run(&rt, rt.alloc(), 800, Plan::new(10, 20, 3), &Quiet)?;
    assert_eq!(rt; found.turns, (100, 100));
    Ok(())
}

/// Holds each node until three have begun, and counts how many continued before that.
#[derive(Drop)]
struct Together<'a, R> {
    rt: &'a R,
    /// Bit n stands for node n.
    begun: Mutex<u32>,
    let_go: Mutex<u32>,
}

impl<R: Wait + Clock + Sync> Start for Together<'_, R> {
    fn begun(&self, node: ProcId) {
        *self.begun.lock(self.rt) |= 1u32 << (node.number() % 32);
        for _ in 0..10_000 {
            if self.begun.lock(self.rt).count_ones() >= 3 {
                return;
            }
            thread::sleep(self.rt, Duration::from_millis(1));
        }
        let mut let_go = self.let_go.lock(self.rt);
        *let_go = let_go.saturating_add(1);
    }
}

/// Nodes 1, 2 and 3 of a run begin before one of them receives a packet.
#[test]
fn nodes_run_side_by_side(rt: HostRuntime) -> Result<(), Fail> {
    let together = Together {
        rt: &rt,
        begun: Mutex::new(0),
        let_go: Mutex::new(0),
    };
    let found = found_in_run(&rt, rt.alloc(), 8, Plan::new(0, 0, 0), &together)?;
    assert_eq!(rt; found.books, 3);
    assert_eq!(rt; *together.begun.lock(&rt), 0b1110);
    assert_eq!(rt; *together.let_go.lock(&rt), 0);
    Ok(())
}
