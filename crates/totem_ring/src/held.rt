//! The messages that a member holds.
ghost use Rattle.std.specs.Prelude.{◌≡◌, ◌+◌, ◌^◌, ◌<◌, [], false, filter, length, nat_le, All, IfOk, OnOk, OnErr};
ghost use Rattle.std.specs.List.{filter_map};
ghost use Rattle.std.specs.Option.{option_copied};
ghost use Rattle.totem_ring.specs.Rings.{aru_of, going_up, holds, is_agreed, may_go_up, message_at, up_to, with_message, with_messages, without};
ghost use Rattle.totem_ring.specs.Invariant.{RisesFrom};
ghost use Rattle.totem_ring.specs.Refusals.{holds_above};

use crate::walks::{add_all, cut_above, put, whole_to};
use std::alloc::{AllocError, Global};
use std::collections::BTreeMap;
use std::marker::Model;
use totem_names::Service;
use totem_packets::{Body, Message, Number};

/// The messages of a ring that were received or sent here, by number.
#[derive(Debug, Drop)]
pub struct Held {
    messages: BTreeMap<u32, Message>,
    /// All messages from 1 to this number are held.
    aru: u32,
}

impl Model for Held {
    ghost use Rattle.totem_ring.specs.Rings.{Held};
    ghost use Rattle.totem_ring.specs.Invariant.{KeepsAru};

    ghost Value = { Held };

    ghost view = { λ h. h.messages.entries };

    ghost invariant = { λ h. KeepsAru h.messages.entries h.aru };
}

/// Returns whether a message with this body is delivered to the node as soon as its turn has come. Any other is safe, and
/// waits until all members are known to hold it. `Old` counts as agreed, `Mark` as safe.
pub fn is_agreed(body: &Body) -> bool
    ensures { result ≡ is_agreed body.now }
{
    match body {
        Body::App { service, .. } => match service {
            Service::Agreed => true,
            Service::Safe => false,
        },
        Body::Old { .. } => true,
        Body::Mark => false,
    }
}

fn may_go_up(safe_to: u32, number: u32, message: &Message) -> bool
    ensures { result ≡ may_go_up safe_to (number, message.now) }
{
    is_agreed(&message.body) || number <= safe_to
}

impl Held {
    pub fn new(alloc: Global) -> Held
        ensures { result ≡ [] }
    {
        Held {
            messages: BTreeMap::new(alloc),
            aru: 0,
        }
    }

    pub fn as_map(&self) -> &BTreeMap<u32, Message>
        ensures value { result.now.entries ≡ self.now }
        ensures rises { RisesFrom 0 self.now }
    {
        &self.messages
    }

    /// Returns the greatest n such that messages 1 to n are held.
    pub fn aru(&self) -> u32
        ensures { result ≡ aru_of self.now }
    {
        self.aru
    }

    pub fn get(&self, number: u32) -> Option<&Message>
        ensures { option_copied result ≡ message_at self.now number }
    {
        self.messages.get(&number)
    }

    pub fn contains(&self, number: u32) -> bool
        ensures { result ≡ holds self.now number }
    {
        self.messages.contains_key(&number)
    }

    /// Returns whether a number above `seq` is held.
    pub fn holds_above(&self, seq: u32) -> bool
        ensures { result ≡ holds_above self.now seq }
    {
        match self.messages.last_key_value() {
            None => false,
            Some((number, _)) => *number > seq,
        }
    }

    /// Adds a copy of this message.
    #[tactic(auto, using(crate::proofs::Holding::one_more))]
    pub fn hold(&mut self, message: &Message) -> Result<(), AllocError>
        ensures ok { OnOk result (self.new ≡ with_message self.old message.now) }
        ensures err { OnErr result (self.new ≡ self.old) }
    {
        put(&mut self.messages, message.number.get(), message)?;
        self.aru = whole_to(&self.messages, self.aru);
        Ok(())
    }

    /// Adds copies of these messages, either all of them or none. Their numbers have to be above `seq`, and no held number
    /// may be above it.
    pub fn hold_all(&mut self, seq: u32, messages: &[Message]) -> Result<(), AllocError>
        requires above { All (λ m. seq < m.number) messages.now }
        requires none_above { holds_above self.old seq ≡ false }
        ensures ok { OnOk result (self.new ≡ with_messages self.old messages.now) }
        ensures err { OnErr result (self.new ≡ self.old) }
    {
        if let Err(e) = add_all(&mut self.messages, seq, messages) {
            cut_above(&mut self.messages, seq);
            return Err(e);
        }
        self.aru = whole_to(&self.messages, self.aru);
        Ok(())
    }

    /// Removes the message with this number.
    pub fn forget(&mut self, number: Number)
        ensures { self.new ≡ without self.old number }
    {
        let number = number.get();
        self.messages.remove(&number);
        self.aru = self.aru.min(number - 1);
    }

    /// Removes the messages with numbers above `seq`.
    pub fn forget_above(&mut self, seq: u32)
        ensures { self.new ≡ up_to seq self.old }
    {
        cut_above(&mut self.messages, seq);
        self.aru = self.aru.min(seq);
    }

    /// Returns copies of the messages to deliver to the node next, in order (docs/PROTOCOL.md, "The ring", "Hand up").
    #[tactic(auto, using(crate::proofs::UpSteps::steps))]
    pub fn going_up(
        &self,
        alloc: Global,
        handed: u32,
        safe_to: u32,
    ) -> Result<Vec<Message>, AllocError>
        ensures up { IfOk result (λ up. up.items ≡ going_up handed safe_to self.now) }
        ensures fits { IfOk result (λ up. handed + length up.items < 2 ^ 32) }
    {
        let messages = &self.messages;
        let mut up = Vec::new(alloc);
        for number in handed..u32::MAX {
            let Some(message) = messages.get(&(number + 1)) else {
                return Ok(up);
            };
            if !may_go_up(safe_to, number + 1, message) {
                return Ok(up);
            }
            up.push(message.try_clone()?)?;
        }
        Ok(up)
    }

    /// Returns copies of the held messages that have one of these numbers.
    #[tactic(auto, using(crate::proofs::HoldingMore::steps))]
    pub fn asked(&self, alloc: Global, numbers: &[Number]) -> Result<Vec<Message>, AllocError>
        ensures { IfOk result (λ found. found.items ≡ filter_map (message_at self.now) numbers.now) }
    {
        let mut found = Vec::new(alloc);
        for number in numbers {
            let Some(message) = self.get(number.get()) else {
                continue;
            };
            found.push(message.try_clone()?)?;
        }
        Ok(found)
    }

    #[tactic(auto, using(crate::proofs::HoldingMore::steps))]
    pub fn try_clone(&self, alloc: Global) -> Result<Held, AllocError>
        ensures { IfOk result (λ h. h ≡ self.now) }
    {
        let mut messages = BTreeMap::new(alloc);
        for (number, message) in &self.messages {
            put(&mut messages, *number, message)?;
        }
        Ok(Held {
            messages,
            aru: self.aru,
        })
    }
}
