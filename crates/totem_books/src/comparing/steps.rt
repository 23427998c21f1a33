//! Compares the inputs of a node's step, and a node's steps on a ring.
use crate::comparing::Same;
use bytes::Bytes;
use totem_core::{Input, NodeFault, RingStep};
use totem_ring::Act;

impl Same for Act {
    fn same(&self, other: &Act) -> bool {
        match (self, other) {
            (Act::Submit(this), Act::Submit(that)) => this.is(that),
            (Act::Message(this), Act::Message(that)) => this.is(that),
            (Act::Token(this), Act::Token(that)) => this.is(that),
            (Act::Resend, Act::Resend) => true,
            _ => false,
        }
    }
}

impl Same for RingStep {
    fn same(&self, other: &RingStep) -> bool {
        self.ring == other.ring && self.act.same(&other.act)
    }
}

impl Same for NodeFault {
    fn same(&self, other: &NodeFault) -> bool {
        *self == *other
    }
}

impl Same for Bytes {
    fn same(&self, other: &Bytes) -> bool {
        self.as_slice() == other.as_slice()
    }
}

impl Same for Input {
    fn same(&self, other: &Input) -> bool {
        match (self, other) {
            (
                Input::Submit { service, payload },
                Input::Submit {
                    service: kind,
                    payload: bytes,
                },
            ) => *service == *kind && payload.same(bytes),
            (Input::Packet(this), Input::Packet(that)) => this.is(that),
            (Input::Timer, Input::Timer) => true,
            (Input::Crash, Input::Crash) => true,
            _ => false,
        }
    }
}
