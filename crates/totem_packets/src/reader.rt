//! Reading the fields of packets from left to right.
ghost use Rattle.std.specs.Prelude.{◌≡◌, ◌≢◌, ◌≤◌, ◌==◌, length, IfOk, IfErr};
ghost use Rattle.std.specs.Int.{w8, w16, w32, w64};
ghost use Rattle.totem_packets.specs.Parsing.{Reads};
ghost use Rattle.totem_packets.specs.Fields.{bytes_at, number_at, above_at, up_to_at, ring_at, payload_at, maybe_at};

use crate::fault::PacketFault;
use crate::life::Life;
use crate::number::Number;
use crate::payload::Payload;
use crate::token_seq::TokenSeq;
use bytes::Bytes;
use std::alloc::Global;
use std::marker::Model;
use totem_names::{ProcId, RingId};

/// The bytes of a packet that are still to be read. Which bytes are left after a fault is unspecified.
#[derive(Drop)]
pub struct Reader<'a> {
    rest: &'a [u8],
}

impl<'a> Model for Reader<'a> {
    ghost use Rattle.std.specs.Prelude.{ℕ, List};

    ghost Value = { List ℕ };

    ghost view = { λ r. r.rest.now };
}

impl<'a> Reader<'a> {
    pub fn new(bytes: &'a [u8]) -> Reader<'a>
        ensures { result ≡ bytes.now }
    {
        Reader { rest: bytes }
    }

    pub fn is_empty(&self) -> bool
        ensures { result ≡ (length self.now == 0) }
    {
        self.rest.is_empty()
    }

    /// Takes the next `count` bytes.
    #[tactic(auto, unfolding(crate::specs::Fields::bytes_at))]
    fn front(&mut self, count: usize) -> Result<&'a [u8], PacketFault>
        ensures reads { Reads (λ x. x.now) result self.new (bytes_at count self.old) }
        ensures len { IfOk result (λ x. length x.now ≡ count) }
        ensures memory { IfErr result (λ e. e ≢ PacketFault.Memory) }
    {
        let bytes = self.rest;
        if bytes.len() < count {
            return Err(PacketFault::Short);
        }
        let (front, rest) = bytes.split_at(count);
        self.rest = rest;
        Ok(front)
    }

    #[tactic(auto, using(crate::proofs::Falling::passes_on), unfolding(crate::specs::Fields::number_at))]
    pub fn u8(&mut self) -> Result<u8, PacketFault>
        ensures reads { Reads (λ x. x) result self.new (number_at w8 self.old) }
        ensures memory { IfErr result (λ e. e ≢ PacketFault.Memory) }
    {
        let front = self.front(1)?;
        Ok(front[0])
    }

    #[tactic(auto, using(crate::proofs::Falling::passes_on), unfolding(crate::specs::Fields::number_at))]
    fn u16(&mut self) -> Result<u16, PacketFault>
        ensures { Reads (λ x. x) result self.new (number_at w16 self.old) }
    {
        let front = self.front(2)?;
        Ok(u16::from_be_bytes([front[0], front[1]]))
    }

    #[tactic(auto, using(crate::proofs::Falling::passes_on), unfolding(crate::specs::Fields::number_at))]
    pub fn u32(&mut self) -> Result<u32, PacketFault>
        ensures { Reads (λ x. x) result self.new (number_at w32 self.old) }
    {
        let front = self.front(4)?;
        Ok(u32::from_be_bytes([front[0], front[1], front[2], front[3]]))
    }

    #[tactic(auto, using(crate::proofs::Falling::passes_on), unfolding(crate::specs::Fields::number_at))]
    fn u64(&mut self) -> Result<u64, PacketFault>
        ensures { Reads (λ x. x) result self.new (number_at w64 self.old) }
    {
        let front = self.front(8)?;
        Ok(u64::from_be_bytes([
            front[0], front[1], front[2], front[3], front[4], front[5], front[6], front[7],
        ]))
    }

    /// Reads a number that has to be above `least`.
    #[tactic(auto, using(crate::proofs::Falling::passes_on), unfolding(crate::specs::Fields::above_at))]
    pub fn number(&mut self, least: u32) -> Result<Number, PacketFault>
        ensures { Reads (λ x. x) result self.new (above_at w32 least self.old) }
    {
        let number = self.u32()?;
        if number <= least {
            return Err(PacketFault::Range);
        }
        Ok(Number::of(number))
    }

    #[tactic(auto, using(crate::proofs::Falling::passes_on), unfolding(crate::specs::Fields::above_at))]
    pub fn token_seq(&mut self) -> Result<TokenSeq, PacketFault>
        ensures { Reads (λ x. x) result self.new (above_at w64 0 self.old) }
    {
        let number = self.u64()?;
        if number == 0 {
            return Err(PacketFault::Range);
        }
        Ok(TokenSeq::of(number))
    }

    /// Reads a process whose number has to be above `least`.
    #[tactic(auto, using(crate::proofs::Falling::passes_on), unfolding(crate::specs::Fields::above_at))]
    pub fn process(&mut self, least: u16) -> Result<ProcId, PacketFault>
        ensures { Reads (λ x. x) result self.new (above_at w16 least self.old) }
    {
        let number = self.u16()?;
        if number <= least {
            return Err(PacketFault::Range);
        }
        Ok(ProcId::of(number))
    }

    /// Reads a process that may be missing: 0 stands for none.
    #[tactic(auto, using(crate::proofs::Falling::passes_on), unfolding(crate::specs::Fields::maybe_at))]
    pub fn maybe_process(&mut self) -> Result<Option<ProcId>, PacketFault>
        ensures { Reads (λ x. x) result self.new (maybe_at self.old) }
    {
        let number = self.u16()?;
        Ok(ProcId::new(number))
    }

    #[tactic(auto, using(crate::proofs::Falling::passes_on), unfolding(crate::specs::Fields::above_at))]
    pub fn life(&mut self) -> Result<Life, PacketFault>
        ensures { Reads (λ x. x) result self.new (above_at w16 0 self.old) }
    {
        let number = self.u16()?;
        if number == 0 {
            return Err(PacketFault::Range);
        }
        Ok(Life::of(number))
    }

    /// Reads a count that may be at most `most`.
    #[tactic(auto, using(crate::proofs::Falling::passes_on), unfolding(crate::specs::Fields::up_to_at))]
    pub fn count(&mut self, most: u8) -> Result<u8, PacketFault>
        ensures { Reads (λ x. x) result self.new (up_to_at w8 most self.old) }
    {
        let count = self.u8()?;
        if most < count {
            return Err(PacketFault::Range);
        }
        Ok(count)
    }

    #[tactic(auto, using(crate::proofs::Falling::passes_on), unfolding(crate::specs::Fields::ring_at))]
    pub fn ring(&mut self) -> Result<RingId, PacketFault>
        ensures { Reads (λ x. x) result self.new (ring_at self.old) }
    {
        let seq = self.number(0)?.get();
        let rep = self.process(0)?;
        Ok(RingId { seq, rep })
    }

    /// Reads the length of a payload.
    #[tactic(auto, using(crate::proofs::Falling::passes_on), unfolding(crate::specs::Fields::up_to_at))]
    fn length(&mut self) -> Result<u16, PacketFault>
        ensures reads { Reads (λ x. x) result self.new (up_to_at w16 1024 self.old) }
        ensures few { IfOk result (λ x. x ≤ 1024) }
    {
        let length = self.u16()?;
        if 1_024 < length {
            return Err(PacketFault::Range);
        }
        Ok(length)
    }

    #[tactic(auto, using(crate::proofs::Falling::passes_on), unfolding(crate::specs::Fields::payload_at))]
    pub fn payload(&mut self, alloc: Global) -> Result<Payload, PacketFault>
        ensures { Reads (λ x. x) result self.new (payload_at self.old) }
    {
        let length = self.length()?;
        let bytes = self.front(usize::from(length))?;
        let bytes = Bytes::copy_from_slice(alloc, bytes)?;
        Ok(Payload::of(bytes))
    }
}
