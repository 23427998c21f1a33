//! A thread's access to a shared book.
ghost use Rattle.std.specs.Prelude.{◌≡◌, [], length};
ghost use Rattle.totem_books.specs.Journals.{calls_in};

use crate::call::Stub;
use crate::name::BookName;
use std::alloc::Global;
use std::marker::Model;
use std::sync::ledger::Share;
use totem_journal::Pen;

/// A thread's access to a shared book, with the receipts of the calls that the thread made. A seat has one part
/// of the book's ledger, and a share of the calls that is as large as the number of its receipts. All its receipts are in the
/// book's journal, at their places and with the seat's own mark.
#[derive(Drop)]
pub struct Seat<L: BookName> {
    pub(crate) stubs: Vec<Stub>,
    pub(crate) share: Share<L>,
    pub(crate) pen: Pen<Stub>,
}

impl<L: BookName> Model for Seat<L> {
    ghost use Rattle.std.specs.Prelude.{◌≡◌, vec_len};
    ghost use Rattle.totem_books.specs.Seats.{SeatRecord};
    ghost use Rattle.totem_books.specs.Journals.{AreEntered, calls_in};

    ghost Value = { SeatRecord };

    ghost view = { λ s. record { stubs = s.stubs.items; share = s.share.amount; seen = calls_in s.pen.seen } };

    ghost invariant = { λ s. (s.share.parts ≡ 1) × (s.share.amount ≡ vec_len s.stubs) × (s.pen.journal ≡ L.journal)
        × AreEntered s.pen.mark s.pen.seen 0 s.stubs.items };
}

impl<L: BookName> Seat<L> {
    /// Returns a seat that has made no call.
    pub(crate) fn new(alloc: Global, share: Share<L>, pen: Pen<Stub>) -> Seat<L>
        requires share { (share.parts ≡ 1) × (share.amount ≡ 0) }
        requires pen { pen.journal ≡ L.journal }
        ensures stubs { result.stubs ≡ [] }
        ensures share { result.share ≡ 0 }
        ensures seen { result.seen ≡ calls_in pen.seen }
    {
        Seat {
            stubs: Vec::new(alloc),
            share,
            pen,
        }
    }

    /// Returns the receipts of the seat's calls, in their order.
    pub fn stubs(&self) -> &[Stub]
        ensures value { result.now ≡ self.now.stubs }
        ensures share { self.now.share ≡ length self.now.stubs }
    {
        self.stubs.as_slice()
    }
}
