//! The channel messages of a run in threads.
use crate::address::Address;
use crate::progress::Logged;
use bytes::Bytes;
use totem_names::{ProcId, Service};

/// An encoded packet that a node sends.
#[derive(Debug, Drop)]
pub struct Sent {
    pub sender: ProcId,
    pub address: Address,
    pub packet: Bytes,
}

/// The channel messages that the switch receives, all through one channel.
#[derive(Debug, Drop)]
pub enum Inbound {
    /// A packet that a node sends.
    Packet(Sent),
    /// A tick of the pacing thread, which the switch answers with a `Pace`.
    Tick,
    /// A node has handled a channel message, has sent what resulted, and has logged this at it.
    Done(Logged),
    /// A thread of a node has ended at a fault, so there will be no run.
    Gone,
}

/// How the switch answers a tick.
#[derive(Clone, Copy, Debug, PartialEq, Eq)]
pub enum Pace {
    /// Another tick may come.
    On,
    /// The ticks are used up.
    Over,
}

/// The channel messages of a node's receiving thread.
#[derive(Debug, Drop)]
pub enum PacketWord {
    /// An encoded packet from the network.
    Packet(Bytes),
    Stop,
}

/// The channel messages of a node's timer thread.
#[derive(Clone, Copy, Debug, PartialEq, Eq)]
pub enum TimerWord {
    /// The node's timer has run out.
    Timer,
    Stop,
}

/// The channel messages of a node's client thread.
#[derive(Clone, Copy, Debug, PartialEq, Eq)]
pub enum ClientWord {
    /// Submit a message of this service.
    Submit(Service),
    Stop,
}
