ghost use Rattle.std.specs.Prelude.{◌≡◌, ◌↔◌, IsTrue, IfOk};

use crate::number::Number;
use crate::payload::Payload;
use std::alloc::AllocError;
use totem_names::{ProcId, RingId, Service};

/// What a message carries.
#[derive(Debug, Drop)]
pub enum Body {
    /// A message of a client.
    App {
        service: Service,
        payload: Payload,
    },
    /// A message of an older ring that is sent again on this one.
    Old {
        ring: RingId,
        number: Number,
        sender: ProcId,
        service: Service,
        payload: Payload,
    },
    /// A mark: the sender has sent all its messages of older rings.
    Mark,
}

/// A message on a ring, with its number there.
#[derive(Debug, Drop)]
pub struct Message {
    pub ring: RingId,
    pub number: Number,
    pub sender: ProcId,
    pub body: Body,
}

impl Body {
    /// Returns whether the two are the same body: `==` in a form that contracts can use.
    pub fn is(&self, other: &Body) -> bool
        ensures { IsTrue result ↔ (self.now ≡ other.now) }
    {
        match (self, other) {
            (
                Body::App { service, payload },
                Body::App {
                    service: kind,
                    payload: bytes,
                },
            ) => *service == *kind && payload.is(bytes),
            (
                Body::Old {
                    ring,
                    number,
                    sender,
                    service,
                    payload,
                },
                Body::Old {
                    ring: on,
                    number: nth,
                    sender: by,
                    service: kind,
                    payload: bytes,
                },
            ) => {
                *ring == *on
                    && *number == *nth
                    && *sender == *by
                    && *service == *kind
                    && payload.is(bytes)
            }
            (Body::Mark, Body::Mark) => true,
            _ => false,
        }
    }

    /// Copies the body without taking memory: the copies share the payload. Fails only if the payload can count no further
    /// owner.
    pub fn try_clone(&self) -> Result<Body, AllocError>
        ensures { IfOk result (λ b. b ≡ self.now) }
    {
        Ok(match self {
            Body::App { service, payload } => Body::App {
                service: *service,
                payload: payload.try_clone()?,
            },
            Body::Old {
                ring,
                number,
                sender,
                service,
                payload,
            } => Body::Old {
                ring: *ring,
                number: *number,
                sender: *sender,
                service: *service,
                payload: payload.try_clone()?,
            },
            Body::Mark => Body::Mark,
        })
    }
}

impl Message {
    /// Returns whether the two are the same message: `==` in a form that contracts can use.
    pub fn is(&self, other: &Message) -> bool
        ensures { IsTrue result ↔ (self.now ≡ other.now) }
    {
        self.ring == other.ring
            && self.number == other.number
            && self.sender == other.sender
            && self.body.is(&other.body)
    }

    /// Copies the message without taking memory: the copies share the payload. Fails only if the payload can count no
    /// further owner.
    pub fn try_clone(&self) -> Result<Message, AllocError>
        ensures { IfOk result (λ m. m ≡ self.now) }
    {
        Ok(Message {
            ring: self.ring,
            number: self.number,
            sender: self.sender,
            body: self.body.try_clone()?,
        })
    }
}
