//! Messages in ascending order.
ghost use Rattle.std.specs.Prelude.{◌≡◌, ◌↔◌, ◌++◌, ◌∷◌, [], IsTrue, Contains, IfOk, OnOk};
ghost use Rattle.std.specs.Bool.{OnTrue};
ghost use Rattle.totem_judge_certificate.specs.Ascending.{Ascends, IsAbove};

use std::alloc::{AllocError, Global};
use totem_names::MsgId;

/// Messages in ascending order.
#[derive(Drop)]
pub struct Ascending {
    messages: Vec<MsgId>,
    ghost ascends: { Ascends messages.items },
}

impl Ascending {
    pub fn none(alloc: Global) -> Ascending
        ensures { result.messages.items ≡ [] }
    {
        Ascending {
            messages: Vec::new(alloc),
        }
    }

    /// Returns whether a message comes after all of these.
    pub fn is_next(&self, message: &MsgId) -> bool
        ensures { OnTrue result (IsAbove self.now.messages.items message.now) }
    {
        match self.messages.last() {
            Some(last) => last.cmp(message).is_lt(),
            None => true,
        }
    }

    pub fn contains(&self, message: &MsgId) -> bool
        ensures { IsTrue result ↔ Contains self.now.messages.items message.now }
    {
        !self.is_next(message) && self.messages.as_slice().binary_search(message).is_ok()
    }

    /// Adds a message that comes after all of these.
    pub fn push(&mut self, message: &MsgId) -> Result<(), AllocError>
        requires { IsAbove self.old.messages.items message.now }
        ensures { OnOk result (self.new.messages.items ≡ self.old.messages.items ++ (message.now ∷ [])) }
    {
        self.messages.push(*message)?;
        Ok(())
    }
}
