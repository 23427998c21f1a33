//! The pacing thread, which sends the ticks.
use crate::words::{Inbound, Pace};
use crossbeam_channel::{Receiver, Sender};
use std::sync::Wait;

/// What the pacing thread holds.
#[derive(Drop)]
pub struct Pacer {
    inbound: Sender<Inbound>,
    paces: Receiver<Pace>,
}

impl Pacer {
    pub(crate) fn new(inbound: Sender<Inbound>, paces: Receiver<Pace>) -> Pacer {
        Pacer { inbound, paces }
    }

    /// Sends a tick and waits for its answer before it sends the next, until the ticks are used up or the switch is gone. Ticks take
    /// no memory.
    pub fn run<R: Wait>(self, rt: &R) {
        for _ in rt.forever() {
            if self.inbound.send(rt, Inbound::Tick).is_err() {
                return;
            }
            if !matches!(self.paces.recv(rt), Ok(Pace::On)) {
                return;
            }
        }
    }
}
