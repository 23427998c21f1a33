//! The packets sent on a ring: one message for each number, and one token for each token_seq.
ghost use Rattle.std.specs.Prelude.{◌≡◌, ◌↔◌, IsTrue, OnOk, Some};
ghost use Rattle.std.specs.Ordering.{nat_cmp};
ghost use Rattle.std.specs.BTreeMap.{get, Updates};

use std::alloc::{AllocError, Global};
use std::collections::BTreeMap;
use totem_packets::{Message, Packet, Token};
use totem_ring::{Act, To};

/// The messages by number and the tokens by token_seq. On one ring no two with the same number or token_seq differ.
#[derive(Drop)]
pub struct Sent {
    messages: BTreeMap<u32, Message>,
    tokens: BTreeMap<u64, Token>,
}

fn put_message(messages: &mut BTreeMap<u32, Message>, message: Message) -> Result<(), AllocError>
    ensures { OnOk result (Updates nat_cmp messages.old messages.new message.number (Some message)) }
{
    let number = message.number.get();
    messages.insert(number, message)?;
    Ok(())
}

fn put_token(tokens: &mut BTreeMap<u64, Token>, token: Token) -> Result<(), AllocError>
    ensures { OnOk result (Updates nat_cmp tokens.old tokens.new token.token_seq (Some token)) }
{
    let token_seq = token.token_seq.get();
    tokens.insert(token_seq, token)?;
    Ok(())
}

impl Sent {
    ghost use Rattle.totem_weave.specs.Index.{IsComing, IsEmpty, Puts, AddsAll};

    pub fn new(alloc: Global) -> Sent
        ensures { IsEmpty result }
    {
        Sent {
            messages: BTreeMap::new(alloc),
            tokens: BTreeMap::new(alloc),
        }
    }

    fn has_message(&self, message: &Message) -> bool
        ensures { IsTrue result ↔ (get nat_cmp self.now.messages message.now.number ≡ Some message.now) }
    {
        match self.messages.get(&message.number.get()) {
            None => false,
            Some(sent) => sent.is(message),
        }
    }

    fn has_token(&self, token: &Token) -> bool
        ensures { IsTrue result ↔ (get nat_cmp self.now.tokens token.now.token_seq ≡ Some token.now) }
    {
        match self.tokens.get(&token.token_seq.get()) {
            None => false,
            Some(sent) => sent.is(token),
        }
    }

    /// Returns whether what is received in this act, if anything, was sent.
    pub fn is_coming(&self, act: &Act) -> bool
        ensures { IsTrue result ↔ IsComing self.now act.now }
    {
        match act {
            Act::Submit(_) => true,
            Act::Message(message) => self.has_message(message),
            Act::Token(token) => self.has_token(token),
            Act::Resend => true,
        }
    }

    /// Adds a packet of a ring.
    pub fn put(&mut self, packet: Packet) -> Result<(), AllocError>
        ensures { OnOk result (Puts self.old self.new packet) }
    {
        match packet {
            Packet::Message(message) => put_message(&mut self.messages, message),
            Packet::Token(token) => put_token(&mut self.tokens, token),
            Packet::Join(_) => Ok(()),
            Packet::Commit(_) => Ok(()),
        }
    }

    /// Adds the packets of a step, whoever receives them.
    pub fn add(&mut self, packets: Vec<(To, Packet)>) -> Result<(), AllocError>
        ensures { OnOk result (AddsAll self.old self.new packets.items) }
    {
        for (_, packet) in packets {
            self.put(packet)?;
        }
        Ok(())
    }
}
