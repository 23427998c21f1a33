//! A node's thread, which opens the node's book, runs three threads over it, and closes it.
ghost use Rattle.std.specs.Prelude.{◌≡◌, ◌<◌, ◌≤◌, IfOk, IfErr, All, vec_len};
ghost use Rattle.totem_evs.specs.Lives.{AreFirst};
ghost use Rattle.totem_recover.specs.Lives.{first_rank};
ghost use Rattle.totem_threads.specs.Faults.{EndsRun};
ghost use Rattle.totem_threads.specs.FirstLives.{IsFirstSeat, IsFirstBook};
ghost use Rattle.totem_threads.specs.Starts.{first_ring, start_of};

use crate::fault::ThreadsFault;
use crate::firsts::{first_members, first_ring};
use crate::serving::{receive, serve};
use std::alloc::Global;
use std::marker::Brand;
use std::sync::Wait;
use std::thread;
use std::thread::{Promise, Threads};
use totem_books::{Blank, BookFault, BookName, ClosedBook, Seat, SharedBook, close};
use totem_evs::Members;
use totem_names::Proc;
use totem_net::{NodeEnds, Outlet, Start};

/// A promise of a thread: the calls of the seat that it gives back name no life but the first.
#[derive(Clone, Copy)]
struct NamesFirst;

impl<L: BookName> Promise<Result<Seat<L>, BookFault>> for NamesFirst {
    ghost use Rattle.std.specs.Prelude.{IfOk};
    ghost use Rattle.totem_threads.specs.FirstLives.{IsFirstSeat};

    ghost kept_by = { λ p r. IfOk r IsFirstSeat };
}

/// Returns the three seats.
fn three<L: BookName>(seats: Vec<Seat<L>>) -> (Seat<L>, Seat<L>, Seat<L>)
    requires count { vec_len seats ≡ 3 }
    requires first { All IsFirstSeat seats.items }
    ensures first { IsFirstSeat result.0 × IsFirstSeat result.1 × IsFirstSeat result.2 }
{
    let mut seats = seats;
    let (Some(third), Some(second), Some(first)) = (seats.pop(), seats.pop(), seats.pop()) else {
        unreachable!()
    };
    (first, second, third)
}

/// Reports that the node is gone, and returns the fault of a node for which a thread can't be made.
fn unmade<R: Wait>(rt: &R, outlet: &Outlet) -> BookFault {
    outlet.tell_gone(rt);
    BookFault::Memory
}

/// Runs the node's threads until they end, and returns their seats.
fn serve_all<L: BookName + Send + Sync, S: Start, R: Threads + Wait + Sync>(
    rt: &R,
    alloc: Global,
    book: &SharedBook<L>,
    seats: Vec<Seat<L>>,
    ends: NodeEnds,
    outlet: &Outlet,
    start: &S,
) -> Result<Vec<Seat<L>>, BookFault>
    requires count { vec_len seats ≡ 3 }
    requires first { All IsFirstSeat seats.items }
    ensures count { IfOk result (λ back. vec_len back ≡ 3) }
    ensures first { IfOk result (λ back. All IsFirstSeat back.items) }
{
    let (first, second, third) = three(seats);
    let NodeEnds {
        node,
        receiving,
        timer,
        client,
    } = ends;
    thread::scope(
        thread::scope_env(),
        rt,
        move |scope| -> Result<Vec<Seat<L>>, BookFault>
            requires { IsFirstSeat first × IsFirstSeat second × IsFirstSeat third }
            ensures count { IfOk result (λ back. vec_len back ≡ 3) }
            ensures first { IfOk result (λ back. All IsFirstSeat back.items) }
        {
            let receives = move || -> Result<Seat<L>, BookFault>
                requires { IsFirstSeat first }
            { receive(rt, alloc, book, first, receiving, node, start) };
            let Ok(receiver) = scope.spawn_with(NamesFirst, receives) else {
                return Err(unmade(rt, outlet));
            };
            let times = move || -> Result<Seat<L>, BookFault>
                requires { IsFirstSeat second }
            { serve(rt, alloc, book, second, timer) };
            let Ok(timing) = scope.spawn_with(NamesFirst, times) else {
                return Err(unmade(rt, outlet));
            };
            let asks = move || -> Result<Seat<L>, BookFault>
                requires { IsFirstSeat third }
            { serve(rt, alloc, book, third, client) };
            let Ok(asking) = scope.spawn_with(NamesFirst, asks) else {
                return Err(unmade(rt, outlet));
            };
            let mut back = Vec::with_capacity(alloc, 3)?;
            back.push(receiver.join(rt)?)?;
            back.push(timing.join(rt)?)?;
            back.push(asking.join(rt)?)?;
            Ok(back)
        },
    )
}

/// Opens the book of this name, runs the node's threads on it, and closes it.
fn keep_book<L: BookName + Send + Sync, S: Start, R: Threads + Wait + Sync>(
    rt: &R,
    alloc: Global,
    blank: Blank,
    members: &Members,
    ends: NodeEnds,
    outlet: &Outlet,
    start: &S,
) -> Result<ClosedBook, ThreadsFault>
    requires ledger { (blank.name ≡ L.name) × (blank.parts ≡ L.parts) × (L.parts ≡ 3) }
    requires journal { blank.journal ≡ L.journal }
    requires start { (first_rank ends.node ≡ L.me) × (L.ring ≡ first_ring) × (L.members ≡ members.now) }
    requires first { AreFirst members.now }
    ensures me { IfOk result (λ book. book.start.me ≡ first_rank ends.node) }
    ensures ring { IfOk result (λ book. book.start.ring ≡ first_ring) }
    ensures members { IfOk result (λ book. book.start.members ≡ members.now) }
    ensures first { IfOk result IsFirstBook }
    ensures fault { IfErr result EndsRun }
{
    let me = Proc::first(ends.node);
    let (book, seats) = SharedBook::<L>::new(
        alloc,
        blank,
        me,
        first_ring(),
        members.as_slice(),
        3,
    )?;
    let back = serve_all(rt, alloc, &book, seats, ends, outlet, start)?;
    match close(book, back) {
        Ok(closed) => Ok(closed),
        Err(refused) => Err(ThreadsFault::from(refused.fault)),
    }
}

/// Runs one of this many nodes from its first channel message to its last.
fn run_to_end<S: Start, R: Threads + Wait + Sync>(
    rt: &R,
    alloc: Global,
    nodes: u16,
    ends: NodeEnds,
    outlet: &Outlet,
    start: &S,
) -> Result<ClosedBook, ThreadsFault>
    requires { (0 < nodes) × (nodes ≤ 32) }
    ensures book { IfOk result (λ book. book.start ≡ start_of nodes ends.node) }
    ensures first { IfOk result IsFirstBook }
    ensures fault { IfErr result EndsRun }
{
    let members = first_members(alloc, nodes)?;
    keep_book::<Brand, S, R>(rt, alloc, Blank::new(3), &members, ends, outlet, start)
}

/// Runs one of this many nodes. At a fault it reports that the node is gone, which ends the run.
pub fn run_node<S: Start, R: Threads + Wait + Sync>(
    rt: &R,
    alloc: Global,
    nodes: u16,
    ends: NodeEnds,
    start: &S,
) -> Result<ClosedBook, ThreadsFault>
    requires { (0 < nodes) × (nodes ≤ 32) }
    ensures book { IfOk result (λ book. book.start ≡ start_of nodes ends.node) }
    ensures first { IfOk result IsFirstBook }
    ensures fault { IfErr result EndsRun }
{
    let Ok(outlet) = ends.receiving.outlet.try_clone() else {
        ends.receiving.outlet.tell_gone(rt);
        return Err(ThreadsFault::Memory);
    };
    let ended = run_to_end(rt, alloc, nodes, ends, &outlet, start);
    if ended.is_err() {
        outlet.tell_gone(rt);
    }
    ended
}
