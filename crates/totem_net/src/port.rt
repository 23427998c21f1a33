//! The switch's side of one node.
ghost use Rattle.std.specs.Prelude.{◌≡◌, IfOk};

use crate::ends::{NodeEnds, Outlet, ThreadEnd};
use crate::sending::give;
use crate::words::{ClientWord, Inbound, PacketWord, Sent, TimerWord};
use bytes::Bytes;
use crossbeam_channel::{Sender, unbounded};
use std::alloc::{AllocError, Global};
use std::collections::VecDeque;
use std::mem;
use std::sync::Wait;
use totem_names::{ProcId, Service};

/// The channels to a node's threads, and the packets that wait to be forwarded to the node.
#[derive(Drop)]
pub struct Port {
    packets: Sender<PacketWord>,
    timer: Sender<TimerWord>,
    client: Sender<ClientWord>,
    /// In the order in which they arrived.
    waiting: VecDeque<Bytes>,
    /// What the node has sent, in that order, until it has handled all that it was given.
    sent: Vec<Sent>,
}

impl Port {
    /// Makes the port of a node, and the ends for the node's threads.
    pub fn new(
        alloc: Global,
        node: ProcId,
        inbound: &Sender<Inbound>,
    ) -> Result<(Port, NodeEnds), AllocError>
        ensures { IfOk result (λ made. made.1.node ≡ node) }
    {
        let (packets, received) = unbounded(alloc)?;
        let (timer, timed) = unbounded(alloc)?;
        let (client, asked) = unbounded(alloc)?;
        let ends = NodeEnds {
            node,
            receiving: ThreadEnd {
                words: received,
                outlet: Outlet::new(node, inbound)?,
            },
            timer: ThreadEnd {
                words: timed,
                outlet: Outlet::new(node, inbound)?,
            },
            client: ThreadEnd {
                words: asked,
                outlet: Outlet::new(node, inbound)?,
            },
        };
        let port = Port {
            packets,
            timer,
            client,
            waiting: VecDeque::new(alloc),
            sent: Vec::new(alloc),
        };
        Ok((port, ends))
    }

    /// Keeps a packet that the node sends.
    pub fn keep(&mut self, sent: Sent) -> Result<(), AllocError> {
        self.sent.push(sent)?;
        Ok(())
    }

    /// Takes out what the node has sent.
    pub fn take_sent(&mut self, alloc: Global) -> Vec<Sent> {
        mem::replace(&mut self.sent, Vec::new(alloc))
    }

    /// Takes a packet that arrives for the node. It waits until `hand_on` forwards it.
    pub fn take(&mut self, packet: Bytes) -> Result<(), AllocError> {
        self.waiting.push_back(packet)?;
        Ok(())
    }

    /// Returns how many packets wait.
    pub fn waiting(&self) -> usize {
        self.waiting.len()
    }

    /// Forwards the packet that has waited longest, if there is one, to the receiving thread.
    pub fn hand_on<R: Wait>(&mut self, rt: &R) -> Result<(), AllocError> {
        match self.waiting.pop_front() {
            Some(packet) => give(rt, &self.packets, PacketWord::Packet(packet)),
            None => Ok(()),
        }
    }

    /// Lets the node's timer run out.
    pub fn time_out<R: Wait>(&mut self, rt: &R) -> Result<(), AllocError> {
        give(rt, &self.timer, TimerWord::Timer)
    }

    /// Lets the node's client submit a message of this service.
    pub fn submit<R: Wait>(&mut self, rt: &R, service: Service) -> Result<(), AllocError> {
        give(rt, &self.client, ClientWord::Submit(service))
    }

    /// Sends each thread a stop message. If memory for it is refused, the thread sees its channel end instead.
    pub fn stop<R: Wait>(self, rt: &R) {
        let _ = give(rt, &self.packets, PacketWord::Stop);
        let _ = give(rt, &self.timer, TimerWord::Stop);
        let _ = give(rt, &self.client, ClientWord::Stop);
    }
}
