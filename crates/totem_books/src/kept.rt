//! The contents of a shared book's lock.
ghost use Rattle.std.specs.Prelude.{◌≡◌, ◌<◌, ◌+◌, Err, IfOk, IfErr, OnOk, OnErr, length};
ghost use Rattle.totem_books.specs.Replies.{answer_of};
ghost use Rattle.totem_books.specs.History.{start_with, answer, called, receipt, followed_by, IsFull};
ghost use mathlib.Core.List.{IsPrefix};
ghost use Rattle.totem_books.specs.Journals.{calls_in, IsEntered, IsAnswered};

use crate::book::Book;
use crate::book_fault::BookFault;
use crate::call::Stub;
use crate::name::BookName;
use crate::reply::Reply;
use std::alloc::Global;
use std::sync::ledger;
use std::sync::ledger::Share;
use totem_core::Input;
use totem_journal::{Journal, Pen};

/// The book of this name, the total of the ledger, which is the number of the book's calls, and the journal, which
/// has the receipt of each call.
#[derive(Drop)]
pub struct Kept<L: BookName> {
    pub book: Book,
    pub total: ledger::Book<L>,
    pub journal: Journal<Stub>,
    pub ghost begun: { book.start ≡ start_with L.me L.ring L.members },
    pub ghost counted: { length book.calls ≡ total.total },
    pub ghost named: { journal.name ≡ L.journal },
    pub ghost entered: { book.calls ≡ calls_in journal.entries },
}

impl<L: BookName> Kept<L> {
    /// Makes one more call, counts it in the share, and notes its receipt in the journal. At a fault nothing
    /// changes. In both cases the pen has then seen the receipts of all calls.
    pub fn apply(
        &mut self,
        alloc: Global,
        share: &mut Share<L>,
        pen: &mut Pen<Stub>,
        input: Input,
    ) -> Result<(Stub, Reply), BookFault>
        requires part { 0 < share.old.parts }
        requires pen { pen.old.journal ≡ L.journal }
        ensures history { IfOk result (λ r. self.new.book ≡ followed_by self.old.book (called input (answer_of r.1))) }
        ensures reply { IfOk result (λ r. answer_of r.1 ≡ answer self.old.book input) }
        ensures stub { IfOk result (λ r. r.0 ≡ receipt (length self.old.book.calls + 1) input (answer_of r.1)) }
        ensures share { OnOk result (share.new.amount ≡ share.old.amount + 1) }
        ensures parts { share.new.parts ≡ share.old.parts }
        ensures pen { (pen.new.journal ≡ pen.old.journal) × (pen.new.mark ≡ pen.old.mark) }
        ensures seen { IsPrefix pen.old.seen pen.new.seen }
        ensures shown { self.new.book.calls ≡ calls_in pen.new.seen }
        ensures start { self.new.book.start ≡ start_with L.me L.ring L.members }
        ensures entered { IfOk result (λ r. IsEntered pen.old.mark pen.old.seen pen.new.seen r.0) }
        ensures answered { IfOk result (λ r. IsAnswered (start_with L.me L.ring L.members) (calls_in pen.old.seen) (calls_in pen.new.seen)
            input (answer_of r.1)) }
        ensures unchanged { OnErr result ((self.new.book ≡ self.old.book) × (share.new.amount ≡ share.old.amount)) }
        ensures long { IfErr result (λ e. e ≡ BookFault.Long → IsFull self.old.book) }
        ensures full { IsFull self.old.book → result ≡ Err BookFault.Long }
    {
        let Kept {
            book,
            total,
            journal,
        } = self;
        let made = match book.apply(alloc, input) {
            Ok(made) => made,
            Err(fault) => {
                journal.learn(pen);
                return Err(fault);
            }
        };
        total.add(share, 1);
        journal.note(pen, &made.0);
        Ok(made)
    }
}
