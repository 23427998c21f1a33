//! A book that threads share.
ghost use Rattle.std.specs.Prelude.{◌≡◌, ◌<◌, ◌≤◌, ◌+◌, [], ◌∷◌, ◌++◌, IfOk, IfErr, OnOk, OnErr, vec_len, length, All};
ghost use Rattle.totem_evs.specs.Members.{IsMembers};
ghost use Rattle.totem_books.specs.Replies.{answer_of};
ghost use Rattle.totem_books.specs.History.{receipt, start_with, IsFull};
ghost use Rattle.totem_books.specs.Journals.{book_of, BeginWith, IsAnswered};

use crate::blank::Blank;
use crate::book::Book;
use crate::book_fault::BookFault;
use crate::kept::Kept;
use crate::name::BookName;
use crate::reply::Reply;
use crate::seat::Seat;
use std::alloc::{AllocError, Global};
use std::marker::PhantomData;
use std::sync::ledger::Ledger;
use std::sync::{Mutex, Wait};
use totem_core::Input;
use totem_names::{Proc, RingId};

/// The number of a book's seats: one for each part of its ledger.
#[derive(Drop)]
pub(crate) struct Count<L: Ledger> {
    pub seats: u64,
    pub of: PhantomData<L>,
    pub ghost all: { seats ≡ L.parts },
    pub ghost some: { 0 < seats },
}

/// A book that threads share, each with a seat of its own. While no thread has the lock, the log and the stored replies are
/// the replay of the stored inputs, the ledger counts the calls, and the journal has their receipts.
#[derive(Drop)]
pub struct SharedBook<L: BookName> {
    pub(crate) lock: Mutex<Kept<L>>,
    pub(crate) count: Count<L>,
}

impl<L: BookName> SharedBook<L> {
    /// Returns a book without calls, of a node that starts on this ring, and its seats: 1 to 64, one for each part of the
    /// blank. If memory is refused, the ledger and the journal are lost.
    pub fn new(
        alloc: Global,
        blank: Blank,
        me: Proc,
        ring: RingId,
        members: &[Proc],
        seats: u64,
    ) -> Result<(SharedBook<L>, Vec<Seat<L>>), AllocError>
        requires ledger { (blank.name ≡ L.name) × (blank.parts ≡ L.parts) }
        requires journal { blank.journal ≡ L.journal }
        requires start { (me ≡ L.me) × (ring ≡ L.ring) × (members.now ≡ L.members) }
        requires members { IsMembers members.now }
        requires seats { (seats ≡ L.parts) × (0 < seats) × (seats ≤ 64) }
        ensures count { IfOk result (λ r. vec_len r.1 ≡ seats) }
        ensures empty { IfOk result (λ r. All (λ seat. (seat.stubs ≡ []) × (seat.share ≡ 0)) r.1.items) }
        ensures unseen { IfOk result (λ r. All (λ seat. seat.seen ≡ []) r.1.items) }
    {
        let Blank { ledger, journal } = blank;
        let (total, mut all) = ledger.open::<L>();
        let mut journal = journal;
        let mut empty = Vec::new(alloc);
        for _ in 0..seats {
            let share = all.split_off(1, 0);
            let pen = journal.pen();
            empty.push(Seat::new(alloc, share, pen))?;
        }
        let kept = Kept {
            book: Book::new(alloc, me, ring, members)?,
            total,
            journal,
        };
        let count = Count {
            seats,
            of: PhantomData,
        };
        let lock = Mutex::new(kept);
        Ok((SharedBook { lock, count }, empty))
    }

    /// Waits for the lock, gives the node one input, and adds the receipt to the seat. At a fault the seat's receipts are unchanged.
    /// The calls that the seat has seen begin with those that it saw before. The reply is the node's after all the other calls;
    /// `Long` is returned if those calls fill the book.
    pub fn call(
        &self,
        rt: &impl Wait,
        alloc: Global,
        seat: &mut Seat<L>,
        input: Input,
    ) -> Result<Reply, BookFault>
        ensures answer { IfOk result (λ r. IsAnswered (start_with L.me L.ring L.members) seat.old.seen seat.new.seen input (answer_of r)) }
        ensures receipt { IfOk result (λ r. seat.new.stubs ≡ seat.old.stubs ++ receipt (length seat.new.seen) input (answer_of r) ∷ []) }
        ensures share { OnOk result (seat.new.share ≡ seat.old.share + 1) }
        ensures unchanged { OnErr result ((seat.new.stubs ≡ seat.old.stubs) × (seat.new.share ≡ seat.old.share)) }
        ensures seen { BeginWith seat.new.seen seat.old.seen }
        ensures long { IfErr result (λ e. e ≡ BookFault.Long → IsFull (book_of (start_with L.me L.ring L.members) seat.new.seen)) }
    {
        let Seat { stubs, share, pen } = seat;
        stubs.reserve(1)?;
        let (stub, reply) = self.lock.lock(rt).apply(alloc, share, pen, input)?;
        stubs.push_reserved(stub);
        Ok(reply)
    }
}
