//! Closes a book whose seats are back.
ghost use Rattle.std.specs.Prelude.{◌≡◌, ◌<◌, ◌≤◌, All, vec_len, length};
ghost use Rattle.totem_books.specs.History.{start_with};
ghost use Rattle.totem_books.specs.Journals.{BeginWith};
ghost use Rattle.totem_books.specs.Receipts.{Agree, Covers, receipts_in, shares_in};

use crate::closed::ClosedBook;
use crate::kept::Kept;
use crate::meeting::meet_all;
use crate::name::BookName;
use crate::seat::Seat;
use std::sync::ledger::Share;

/// Merges the shares of all seats. They add up to the number of receipts, and there are at most as many as the ledger has parts.
pub fn merged<L: BookName>(seats: Vec<Seat<L>>) -> Share<L>
    requires some { 0 < vec_len seats }
    requires whole { 0 < L.parts }
    ensures parts { result.parts ≡ vec_len seats }
    ensures apart { result.parts ≤ L.parts }
    ensures shares { result.amount ≡ shares_in seats.items }
    ensures receipts { result.amount ≡ receipts_in seats.items }
{
    let mut seats = seats;
    let Some(first) = seats.pop() else {
        unreachable!()
    };
    let Seat {
        stubs: _,
        share,
        pen: _,
    } = first;
    let mut all = share;
    while let Some(seat) = seats.pop() {
        let Seat {
            stubs: _,
            share,
            pen: _,
        } = seat;
        all.merge(share);
    }
    all
}

/// Closes the book with the merged shares of all seats: they come to the number of its calls.
fn closed_with<L: BookName>(kept: Kept<L>, all: Share<L>) -> ClosedBook
    requires { all.parts ≡ L.parts }
    ensures calls { result.calls ≡ kept.book.calls }
    ensures amount { length result.calls ≡ all.amount }
    ensures start { result.start ≡ start_with L.me L.ring L.members }
{
    let mut all = all;
    let Kept {
        book,
        mut total,
        journal: _,
    } = kept;
    total.audit(&mut all);
    book.into_closed()
}

/// Closes the book. Nothing is compared: the journal says that the seats' receipts are those of the book's calls, and the ledger that they
/// are as many.
pub fn settle<L: BookName>(kept: Kept<L>, seats: Vec<Seat<L>>) -> ClosedBook
    requires { (L.parts ≤ vec_len seats) × (0 < L.parts) }
    ensures calls { result.calls ≡ kept.book.calls }
    ensures shares { length result.calls ≡ shares_in seats.items }
    ensures receipts { length result.calls ≡ receipts_in seats.items }
    ensures agree { Agree result.calls seats.items }
    ensures covers { Covers result.calls seats.items }
    ensures seen { All (λ seat. BeginWith result.calls seat.seen) seats.items }
    ensures start { result.start ≡ start_with L.me L.ring L.members }
{
    let (mut kept, mut seats) = (kept, seats);
    meet_all(&mut kept, seats.as_mut_slice());
    closed_with(kept, merged(seats))
}
