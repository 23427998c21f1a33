//! Compares packets and their receivers.
use crate::comparing::Same;
use totem_packets::Packet;
use totem_ring::To;

impl Same for Packet {
    fn same(&self, other: &Packet) -> bool {
        self.is(other)
    }
}

impl Same for To {
    fn same(&self, other: &To) -> bool {
        match (self, other) {
            (To::All, To::All) => true,
            (To::One(this), To::One(that)) => *this == *that,
            _ => false,
        }
    }
}
