//! The messages that a run sends, numbered in the order of their names.
use std::alloc::{AllocError, Global};
use totem_names::{MsgId, RingId};

/// How many names one after the other are in a block.
const SPAN: u32 = 64;

/// Names one after the other.
#[derive(Clone, Copy, PartialEq, Eq, PartialOrd, Ord)]
struct Names {
    ring: RingId,
    /// Their numbers, divided by 64.
    part: u32,
}

impl Names {
    /// Returns the names among which a message has its own.
    fn of(message: &MsgId) -> Names {
        Names {
            ring: message.ring,
            part: message.number / SPAN,
        }
    }
}

/// The messages that are sent, of those with these names.
#[derive(Clone, Copy)]
struct Block {
    names: Names,
    /// Bit i stands for the message whose number is i modulo 64.
    sent: u64,
    /// How many messages are in the blocks before it.
    before: usize,
}

impl Block {
    fn end(&self) -> usize {
        self.before.saturating_add(self.sent.count_ones() as usize)
    }
}

/// The messages that a run sends.
#[derive(Drop)]
pub struct Messages {
    blocks: Vec<Block>,
}

impl Messages {
    pub fn none(alloc: Global) -> Messages {
        Messages {
            blocks: Vec::new(alloc),
        }
    }

    /// Adds a message that is sent.
    pub fn add(&mut self, message: &MsgId) -> Result<(), AllocError> {
        let names = Names::of(message);
        let bit = 1u64 << (message.number % SPAN);
        match self.blocks.last_mut() {
            Some(block) if block.names == names => block.sent |= bit,
            _ => self.blocks.push(Block {
                names,
                sent: bit,
                before: 0,
            })?,
        }
        Ok(())
    }

    /// Numbers the messages, once all are added.
    pub fn number(&mut self) -> Result<(), AllocError> {
        self.blocks.sort_by_key(|block| block.names)?;
        self.blocks.dedup_by(|next, kept| {
            let is_same = next.names == kept.names;
            if is_same {
                kept.sent |= next.sent;
            }
            is_same
        });
        let mut count = 0;
        for block in self.blocks.iter_mut() {
            block.before = count;
            count = block.end();
        }
        Ok(())
    }

    /// Returns how many messages there are.
    pub fn len(&self) -> usize {
        self.blocks.last().map_or(0, |block| block.end())
    }

    /// Returns the message with this index, or `None` if there are not so many.
    pub fn message(&self, index: usize) -> Option<MsgId> {
        let at = self.blocks.partition_point(|block| block.end() <= index);
        let block = self.blocks.get(at)?;
        let mut sent = block.sent;
        for _ in block.before..index {
            sent &= sent.wrapping_sub(1);
        }
        let Names { ring, part } = block.names;
        let number = part
            .saturating_mul(SPAN)
            .saturating_add(sent.trailing_zeros());
        MsgId::new(ring, number)
    }

    /// Returns a finder that has not found any message yet.
    pub fn finder(&self) -> Finder<'_> {
        Finder {
            blocks: self.blocks.as_slice(),
            at: 0,
            block: self.blocks.first().copied(),
        }
    }
}

/// Finds one message after the other. In most logs the next one is in the block of the one before, or in the block after that.
#[derive(Drop)]
pub struct Finder<'a> {
    blocks: &'a [Block],
    at: usize,
    block: Option<Block>,
}

impl Finder<'_> {
    /// Returns the index of a message, or `None` if it is not sent.
    #[inline(always)]
    pub fn find(&mut self, message: &MsgId) -> Option<usize> {
        let names = Names::of(message);
        if !self.block.is_some_and(|block| block.names == names) {
            self.go_to(message);
        }
        let block = self.block?;
        let at = message.number % SPAN;
        if block.sent >> at & 1 == 0 {
            return None;
        }
        let below = block.sent & !(u64::MAX << at);
        Some(block.before.saturating_add(below.count_ones() as usize))
    }

    /// Goes to the block of a message, or to none if no message of that block is sent.
    #[inline(never)]
    fn go_to(&mut self, message: &MsgId) {
        let names = Names::of(message);
        self.at = self.at.saturating_add(1);
        self.block = self.blocks.get(self.at).copied();
        if !self.block.is_some_and(|block| block.names == names) {
            self.at = self.blocks.partition_point(|block| block.names < names);
            self.block = self.blocks.get(self.at).copied();
        }
        self.block = self.block.filter(|block| block.names == names);
    }
}
