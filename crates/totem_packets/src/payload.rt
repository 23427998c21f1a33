ghost use Rattle.std.specs.Prelude.{◌≡◌, ◌↔◌, IsTrue, ◌≤◌, ◌<◌, length, IfOk, MatchResult};
ghost use Rattle.totem_names.specs.Lists.{Refuses, Anyhow};
ghost use Rattle.totem_packets.specs.Payload.{IsPayload};

use bytes::Bytes;
use std::alloc::AllocError;
use std::marker::Model;
use totem_names::{ListFault, Refused};

/// How many bytes a message may carry at most.
const MOST: usize = 1_024;

/// The bytes that a message carries, 0 to 1,024 of them. Copies share them.
#[derive(Debug, Drop)]
pub struct Payload {
    bytes: Bytes,
}

impl Model for Payload {
    ghost use Rattle.std.specs.Prelude.{ℕ, List};
    ghost use Rattle.totem_packets.specs.Payload.{IsPayload};

    ghost Value = { List ℕ };

    ghost view = { λ p. p.bytes };

    ghost invariant = { λ p. IsPayload p.bytes };
}

impl Payload {
    /// Makes the payload of these bytes. A refusal gives them back.
    pub fn new(bytes: Bytes) -> Result<Payload, Refused<Bytes>>
        ensures { MatchResult result (λ p. (p ≡ bytes) × IsPayload bytes)
            (λ r. (r.value ≡ bytes) × Refuses 0 1024 Anyhow bytes r.fault) }
    {
        if bytes.len() > MOST {
            return Err(Refused {
                fault: ListFault::TooMany(MOST),
                value: bytes,
            });
        }
        Ok(Payload { bytes })
    }

    /// Makes the payload of bytes that the caller knows are not too many.
    pub fn of(bytes: Bytes) -> Payload
        requires { IsPayload bytes }
        ensures { result ≡ bytes }
    {
        Payload { bytes }
    }

    pub fn as_slice(&self) -> &[u8]
        ensures value { result.now ≡ self.now }
        ensures payload { IsPayload self.now }
    {
        self.bytes.as_slice()
    }

    /// Returns the bytes, without taking memory.
    pub fn into_bytes(self) -> Bytes
        ensures { result ≡ self }
    {
        let Payload { bytes } = self;
        bytes
    }

    /// Returns whether the two are the same bytes: `==` in a form that contracts can use.
    pub fn is(&self, other: &Payload) -> bool
        ensures { IsTrue result ↔ (self.now ≡ other.now) }
    {
        self.as_slice() == other.as_slice()
    }

    /// Copies the payload without taking memory: the copies share the bytes. Fails only if the bytes can count no further
    /// owner.
    pub fn try_clone(&self) -> Result<Payload, AllocError>
        ensures { IfOk result (λ p. p ≡ self.now) }
    {
        Ok(Payload {
            bytes: self.bytes.clone()?,
        })
    }
}
