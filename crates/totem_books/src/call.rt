//! Calls of a node, and the receipts that the callers keep.
ghost use Rattle.std.specs.Prelude.{◌≡◌, ◌↔◌, IsTrue, IfOk};

use crate::comparing::Same;
use crate::reply::Reply;
use std::alloc::{AllocError, Global};
use std::marker::Model;
use totem_core::Input;

/// An input and the node's answer to it.
#[derive(Debug, Drop)]
pub struct Call {
    pub input: Input,
    pub reply: Reply,
}

/// The receipt of a call: its place among all calls of the node, counted from 1, with its input and reply.
#[derive(Debug, Drop)]
pub struct Stub {
    pub at: u64,
    pub input: Input,
    pub reply: Reply,
}

impl Model for Call {
    ghost use Rattle.totem_books.specs.Replies.{answer_of};
    ghost use Rattle.totem_books.specs.Calls.{Called};

    ghost Value = { Called };

    ghost view = { λ c. record { input = c.input; reply = answer_of c.reply } };
}

impl Model for Stub {
    ghost use Rattle.totem_books.specs.Replies.{answer_of};
    ghost use Rattle.totem_books.specs.Calls.{Receipt};

    ghost Value = { Receipt };

    ghost view = { λ s. record { at = s.at; input = s.input; reply = answer_of s.reply } };
}

impl Call {
    ghost use Rattle.totem_books.specs.History.{called};

    /// Returns whether the receipt has this call's input and reply.
    pub fn is_of(&self, stub: &Stub) -> bool
        ensures { IsTrue result ↔ (self.now ≡ called stub.now.input stub.now.reply) }
    {
        self.input.same(&stub.input) && self.reply.is(&stub.reply)
    }

    pub fn try_clone(&self, alloc: Global) -> Result<Call, AllocError>
        ensures { IfOk result (λ call. call ≡ self.now) }
    {
        Ok(Call {
            input: self.input.try_clone(alloc)?,
            reply: self.reply.try_clone(alloc)?,
        })
    }
}

impl Stub {
    ghost use Rattle.totem_books.specs.History.{called};

    /// Returns a copy of the call that the receipt is of.
    pub(crate) fn call(&self, alloc: Global) -> Result<Call, AllocError>
        ensures { IfOk result (λ call. call ≡ called self.now.input self.now.reply) }
    {
        Ok(Call {
            input: self.input.try_clone(alloc)?,
            reply: self.reply.try_clone(alloc)?,
        })
    }

    pub fn try_clone(&self, alloc: Global) -> Result<Stub, AllocError>
        ensures { IfOk result (λ stub. stub ≡ self.now) }
    {
        Ok(Stub {
            at: self.at,
            input: self.input.try_clone(alloc)?,
            reply: self.reply.try_clone(alloc)?,
        })
    }
}
