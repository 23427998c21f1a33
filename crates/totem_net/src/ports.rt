//! The ports of all nodes, and what they still have to forward or to handle.
use crate::credit::Credit;
use crate::delivery::Delivery;
use crate::port::Port;
use crate::turn::Turn;
use crate::words::Sent;
use std::alloc::{AllocError, Global};
use std::sync::Wait;
use totem_names::ProcId;

/// The ports of all nodes. Packets wait at them until a tick forwards them.
#[derive(Drop)]
pub struct Ports {
    /// The ports of the nodes, in ascending order.
    ports: Vec<Port>,
    credit: Credit,
    /// How many packets wait.
    waiting: u64,
    /// How many packets were forwarded.
    forwarded: u64,
    /// How many channel messages nodes were given and still have to handle.
    unhandled: u64,
    /// The place of the port whose packets are forwarded first.
    next: usize,
}

impl Ports {
    /// Returns the ports of this many nodes, at which nothing waits.
    pub fn new(ports: Vec<Port>, nodes: u16) -> Ports {
        Ports {
            ports,
            credit: Credit::new(nodes),
            waiting: 0,
            forwarded: 0,
            unhandled: 0,
            next: 0,
        }
    }

    fn port(&mut self, node: ProcId) -> Option<&mut Port> {
        self.ports.get_mut(usize::from(node.number() - 1))
    }

    /// Keeps a packet that a node sends.
    pub fn keep(&mut self, sent: Sent) -> Result<(), AllocError> {
        match self.port(sent.sender) {
            Some(port) => port.keep(sent),
            None => Ok(()),
        }
    }

    /// Takes out what the node at this place has sent.
    pub fn take_sent(&mut self, alloc: Global, place: usize) -> Vec<Sent> {
        match self.ports.get_mut(place) {
            Some(port) => port.take_sent(alloc),
            None => Vec::new(alloc),
        }
    }

    /// Returns how many nodes there are.
    pub fn count(&self) -> usize {
        self.ports.len()
    }

    /// Takes a packet that arrives for a node. It waits until `hand_on` forwards it.
    pub fn take(&mut self, delivery: Delivery) -> Result<(), AllocError> {
        let Delivery { to, packet } = delivery;
        if let Some(port) = self.port(to) {
            port.take(packet)?;
            self.waiting = self.waiting.saturating_add(1);
        }
        Ok(())
    }

    /// Forwards the packets that wait, at one port after the other, in ascending order and round again, as far as the credit goes.
    pub fn hand_on<R: Wait>(&mut self, rt: &R) -> Result<(), AllocError> {
        for _ in 0..self.ports.len() {
            if self.waiting == 0 || self.credit.left == 0 {
                break;
            }
            self.hand_on_to_next(rt)?;
        }
        self.credit = self.credit.after_tick();
        Ok(())
    }

    /// Forwards the packets that wait at the next port, as far as the credit goes. If none is left there, the port after it is next.
    fn hand_on_to_next<R: Wait>(&mut self, rt: &R) -> Result<(), AllocError> {
        if self.next >= self.ports.len() {
            self.next = 0;
        }
        let Some(port) = self.ports.get_mut(self.next) else {
            return Ok(());
        };
        let waiting = port.waiting() as u64;
        let many = waiting.min(self.credit.left);
        for _ in 0..many {
            port.hand_on(rt)?;
        }
        if many == waiting {
            self.next = self.next.saturating_add(1);
        }
        self.credit = self.credit.less(many);
        self.waiting = self.waiting.saturating_sub(many);
        self.forwarded = self.forwarded.saturating_add(many);
        self.unhandled = self.unhandled.saturating_add(many);
        Ok(())
    }

    /// Lets the timer of the turn's node run out.
    pub fn time_out<R: Wait>(&mut self, rt: &R, turn: Turn) -> Result<(), AllocError> {
        let Some(port) = self.port(turn.node) else {
            return Ok(());
        };
        port.time_out(rt)?;
        self.unhandled = self.unhandled.saturating_add(1);
        Ok(())
    }

    /// Lets the client of the turn's node submit the turn's message.
    pub fn submit<R: Wait>(&mut self, rt: &R, turn: Turn) -> Result<(), AllocError> {
        let Some(port) = self.port(turn.node) else {
            return Ok(());
        };
        port.submit(rt, turn.service)?;
        self.unhandled = self.unhandled.saturating_add(1);
        Ok(())
    }

    /// Notes that a node has handled one channel message.
    pub fn note_done(&mut self) {
        self.unhandled = self.unhandled.saturating_sub(1);
    }

    /// Returns whether the nodes have handled all channel messages that they were given.
    pub fn have_handled_all(&self) -> bool {
        self.unhandled == 0
    }

    /// Returns how many packets wait.
    pub fn waiting(&self) -> u64 {
        self.waiting
    }

    /// Returns how many packets were forwarded.
    pub fn forwarded(&self) -> u64 {
        self.forwarded
    }

    /// Sends each thread of each node a stop message. Packets that wait are lost.
    pub fn stop<R: Wait>(self, rt: &R) {
        for port in self.ports {
            port.stop(rt);
        }
    }
}
