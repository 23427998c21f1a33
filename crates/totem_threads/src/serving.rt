//! What each thread of a node does.
ghost use Rattle.std.specs.Prelude.{IfOk};
ghost use Rattle.totem_threads.specs.FirstLives.{IsFirstSeat, IsFirstTask};

use crate::logged::logged_at;
use crate::sending::send;
use crate::task::Task;
use crate::word::Word;
use std::alloc::Global;
use std::sync::Wait;
use totem_books::{BookFault, BookName, Seat, SharedBook};
use totem_names::ProcId;
use totem_net::{Logged, Outlet, PacketWord, Start, ThreadEnd};

/// Gives the node the input of a task, sends its packets, and returns what was logged, or `None` at a stop.
fn carry_out<L: BookName, R: Wait>(
    rt: &R,
    alloc: Global,
    book: &SharedBook<L>,
    seat: &mut Seat<L>,
    outlet: &Outlet,
    task: Task,
) -> Result<Option<Logged>, BookFault>
    requires seat { IsFirstSeat seat.old }
    requires task { IsFirstTask task }
    ensures { IsFirstSeat seat.new }
{
    match task {
        Task::Input(input) => {
            let reply = book.call(rt, alloc, seat, input)?;
            send(rt, alloc, outlet, &reply)?;
            Ok(Some(logged_at(&reply)))
        }
        Task::Nothing => Ok(Some(Logged::nothing())),
        Task::Stop => Ok(None),
    }
}

/// Carries out the task of each channel message, and reports that it is done and what was logged, until a stop arrives or the
/// switch is gone.
fn deal<L: BookName, W: Word, R: Wait>(
    rt: &R,
    alloc: Global,
    book: &SharedBook<L>,
    seat: &mut Seat<L>,
    end: &ThreadEnd<W>,
) -> Result<(), BookFault>
    requires { IsFirstSeat seat.old }
    ensures { IsFirstSeat seat.new }
{
    for _ in rt.forever() {
        let Ok(word) = end.words.recv(rt) else {
            break;
        };
        let task = word.task(alloc)?;
        let Some(logged) = carry_out(rt, alloc, book, seat, &end.outlet, task)? else {
            break;
        };
        end.outlet.tell_done(rt, logged)?;
    }
    Ok(())
}

/// Handles a thread's channel messages until they end, and returns the seat with the receipts of its calls. At a fault it
/// reports that the node is gone, which ends the run.
pub fn serve<L: BookName, W: Word, R: Wait>(
    rt: &R,
    alloc: Global,
    book: &SharedBook<L>,
    seat: Seat<L>,
    end: ThreadEnd<W>,
) -> Result<Seat<L>, BookFault>
    requires { IsFirstSeat seat }
    ensures { IfOk result IsFirstSeat }
{
    let mut seat = seat;
    match deal(rt, alloc, book, &mut seat, &end) {
        Ok(()) => Ok(seat),
        Err(fault) => {
            end.outlet.tell_gone(rt);
            Err(fault)
        }
    }
}

/// Reports, in the receiving thread, that its node has begun, and then does the same as `serve`.
pub fn receive<L: BookName, S: Start, R: Wait>(
    rt: &R,
    alloc: Global,
    book: &SharedBook<L>,
    seat: Seat<L>,
    end: ThreadEnd<PacketWord>,
    node: ProcId,
    start: &S,
) -> Result<Seat<L>, BookFault>
    requires { IsFirstSeat seat }
    ensures { IfOk result IsFirstSeat }
{
    start.begun(node);
    serve(rt, alloc, book, seat, end)
}
