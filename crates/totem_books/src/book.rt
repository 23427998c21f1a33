//! A node's book: the node, its calls and its log.
ghost use Rattle.std.specs.Prelude.{◌≡◌, ◌+◌, Err, IfOk, IfErr, OnErr, length};
ghost use Rattle.totem_evs.specs.Members.{IsMembers};
ghost use Rattle.totem_books.specs.Replies.{answer_of};
ghost use Rattle.totem_books.specs.History.{begun, start_with, log_of, answer, called, receipt, followed_by, IsFull};

use crate::book_fault::BookFault;
use crate::call::{Call, Stub};
use crate::closed::ClosedBook;
use crate::giving::give_and_store;
use crate::level::Level;
use crate::reply::Reply;
use std::alloc::{AllocError, Global};
use std::marker::Model;
use std::sync::Arc;
use totem_core::{Input, NodeCore};
use totem_evs::{Entry, Members};
use totem_names::{Proc, RingId};

/// The number of calls, or of entries, at which a book is full.
const MOST: usize = 1_000_000;

/// A node with its calls and its log. Contracts see the calls and the node's start.
#[derive(Debug, Drop)]
pub struct Book {
    me: Proc,
    ring: RingId,
    members: Members,
    node: Level,
    entries: Vec<Entry>,
    calls: Vec<Call>,
}

impl Model for Book {
    ghost use Rattle.totem_books.specs.History.{History, start_with};
    ghost use Rattle.totem_books.specs.Replay.{IsReplay};

    ghost Value = { History };

    ghost view = { λ b. record { start = start_with b.me b.ring b.members; calls = b.calls.items } };

    ghost invariant = { λ b. IsReplay (start_with b.me b.ring b.members) b.calls.items b.node b.entries.items };
}

impl Book {
    /// Returns the book of a node that starts on this ring, without calls. The members are 1 to 32 processes, strictly
    /// ascending by identifier, and are expected to have `me` among them.
    pub fn new(alloc: Global, me: Proc, ring: RingId, members: &[Proc]) -> Result<Book, AllocError>
        requires { IsMembers members.now }
        ensures { IfOk result (λ b. b ≡ begun (start_with me ring members.now)) }
    {
        let copy = Members::of(Arc::new(alloc, members.to_vec(alloc)?)?);
        let (node, change) = NodeCore::new(alloc, me, ring, members)?;
        let mut entries = Vec::new(alloc);
        entries.push(change)?;
        Ok(Book {
            me,
            ring,
            members: copy,
            node: Level::new(node),
            entries,
            calls: Vec::new(alloc),
        })
    }

    pub fn calls(&self) -> &[Call]
        ensures { result.now ≡ self.now.calls }
    {
        &self.calls
    }

    /// Returns the entries of the log: the first change, and then those that the calls wrote.
    pub fn log(&self) -> &[Entry]
        ensures { result.now ≡ log_of self.now }
    {
        &self.entries
    }

    /// Gives the node one input and stores the call. Returns the receipt of the call and the reply. `Long` if the book
    /// is full. At a fault nothing changes and nothing is stored.
    pub fn apply(&mut self, alloc: Global, input: Input) -> Result<(Stub, Reply), BookFault>
        ensures history { IfOk result (λ r. self.new ≡ followed_by self.old (called input (answer_of r.1))) }
        ensures reply { IfOk result (λ r. answer_of r.1 ≡ answer self.old input) }
        ensures stub { IfOk result (λ r. r.0 ≡ receipt (length self.old.calls + 1) input (answer_of r.1)) }
        ensures unchanged { OnErr result (self.new ≡ self.old) }
        ensures long { IfErr result (λ e. e ≡ BookFault.Long → IsFull self.old) }
        ensures full { IsFull self.old → result ≡ Err BookFault.Long }
    {
        if self.calls.len() >= MOST || self.entries.len() >= MOST {
            return Err(BookFault::Long);
        }
        let mut copy = self.node.copy(alloc)?;
        let (calls, log) = (&mut self.calls, &mut self.entries);
        let (stub, reply) = give_and_store(alloc, calls, log, &mut copy, &input)?;
        self.node.follow(alloc, copy, input);
        Ok((stub, reply))
    }

    /// Turns the book into one that takes no more calls.
    pub(crate) fn into_closed(self) -> ClosedBook
        ensures start { result.start ≡ self.start }
        ensures calls { result.calls ≡ self.calls }
    {
        let Book {
            me,
            ring,
            members,
            node: _,
            entries,
            calls,
        } = self;
        ClosedBook {
            me,
            ring,
            members,
            calls,
            log: entries,
        }
    }
}
