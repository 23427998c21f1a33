//! Closes a shared book when its seats are back.
ghost use Rattle.std.specs.Prelude.{◌≡◌, ◌<◌, ◌≤◌, All, IfOk, IfErr, vec_len, length};
ghost use Rattle.totem_books.specs.Replay.{IsRecorded};
ghost use Rattle.totem_books.specs.History.{start_with};
ghost use Rattle.totem_books.specs.Journals.{BeginWith};
ghost use Rattle.totem_books.specs.Receipts.{Agree, Covers, receipts_in, shares_in};

use crate::close_fault::CloseFault;
use crate::closed::ClosedBook;
use crate::name::BookName;
use crate::seat::Seat;
use crate::settle::settle;
use crate::shared::SharedBook;

/// Why a book was not closed. The book and the seats are given back, so that closing can be tried again.
#[derive(Drop)]
pub struct CloseRefused<L: BookName> {
    pub fault: CloseFault,
    pub book: SharedBook<L>,
    pub seats: Vec<Seat<L>>,
}

/// Closes the book if all its seats are back. Each has the receipts of its calls: this is an invariant of the types, together with the
/// journal. So nothing is compared, and no memory is taken. Doesn't block.
pub fn close<L: BookName>(
    book: SharedBook<L>,
    seats: Vec<Seat<L>>,
) -> Result<ClosedBook, CloseRefused<L>>
    ensures whole { IfOk result (λ b. L.parts ≤ vec_len seats) }
    ensures shares { IfOk result (λ b. length b.calls ≡ shares_in seats.items) }
    ensures receipts { IfOk result (λ b. length b.calls ≡ receipts_in seats.items) }
    ensures agree { IfOk result (λ b. Agree b.calls seats.items) }
    ensures covers { IfOk result (λ b. Covers b.calls seats.items) }
    ensures seen { IfOk result (λ b. All (λ seat. BeginWith b.calls seat.seen) seats.items) }
    ensures start { IfOk result (λ b. b.start ≡ start_with L.me L.ring L.members) }
    ensures log { IfOk result (λ b. IsRecorded (start_with L.me L.ring L.members) b.calls b.log) }
    ensures back { IfErr result (λ e. e.seats.items ≡ seats.items) }
    ensures missing { IfErr result (λ e. (e.fault ≡ CloseFault.SeatMissing) × (vec_len seats < L.parts)) }
{
    if (seats.len() as u64) < book.count.seats {
        return Err(CloseRefused {
            fault: CloseFault::SeatMissing,
            book,
            seats,
        });
    }
    Ok(settle(book.lock.into_inner(), seats))
}
