//! The switch, through which all packets go.
use crate::delivery::Delivery;
use crate::ports::Ports;
use crate::progress::{Logged, Progress, Traffic};
use crate::sending::give;
use crate::turns::Turns;
use crate::ways::Ways;
use crate::words::{Inbound, Pace, Sent};
use bytes::Bytes;
use crossbeam_channel::{Receiver, Sender};
use std::alloc::{AllocError, Global};
use std::sync::Wait;
use totem_names::ProcId;

/// What a tick does next. A turn's timer runs out first, then its message is submitted, and then packets are forwarded, each once the
/// nodes have handled what they were given before.
#[derive(Clone, Copy, Debug, PartialEq, Eq)]
pub enum Stage {
    Tick,
    Submit,
    Forward,
}

/// The state of the switch's thread (docs/PROTOCOL.md, "The network"). If it is dropped without being run, each thread of
/// the network sees its channel end.
#[derive(Drop)]
pub struct Switch {
    pub(crate) inbound: Receiver<Inbound>,
    pub(crate) paces: Sender<Pace>,
    pub(crate) ports: Ports,
    pub(crate) ways: Ways,
    pub(crate) turns: Turns,
    /// Whether the pacing thread waits for an answer.
    pub(crate) asked: bool,
    pub(crate) stage: Stage,
    /// What the nodes have logged so far.
    pub(crate) logged: Logged,
    /// The last tick in which a node delivered a message.
    pub(crate) delivered_in: Option<u32>,
    /// The packet that is forwarded to the first node before anything else.
    pub(crate) first: Bytes,
}

impl Switch {
    /// Forwards packets and gives turns, until the ticks are used up and their packets handled, a node ends at a fault, or there is no sender any more. Then it
    /// sends each thread a stop message. If memory is refused, it stops the threads at once.
    ///
    /// Keeps pace with the nodes (docs/PROTOCOL.md, "The network"): the pacing thread's tick passes once they have handled all channel
    /// messages that they were given, and packets are forwarded at ticks alone. Each thread of a node has to report each channel
    /// message that it has handled, and that its node is gone if it ends at a fault.
    /// The progress of the run is reported at each tick, and the traffic at the end.
    pub fn run_in_pace<R: Wait, P: Progress>(
        mut self,
        rt: &R,
        alloc: Global,
        progress: &mut P,
    ) -> Result<(), AllocError> {
        let ended = self.serve(rt, alloc, progress);
        progress.carried(self.traffic(alloc));
        self.ports.stop(rt);
        ended
    }

    fn serve<R: Wait, P: Progress>(
        &mut self,
        rt: &R,
        alloc: Global,
        progress: &mut P,
    ) -> Result<(), AllocError> {
        self.begin()?;
        for _ in rt.forever() {
            if self.has_ended() {
                break;
            }
            let Ok(word) = self.inbound.recv(rt) else {
                break;
            };
            if !self.take(word)? {
                break;
            }
            if self.asked && self.ports.have_handled_all() {
                self.carry_sent(alloc)?;
                self.advance(rt)?;
                self.report(progress);
            }
        }
        Ok(())
    }

    /// Returns whether the ticks are used up, and the nodes have handled what they were given in the last one.
    fn has_ended(&self) -> bool {
        self.turns.are_over() && self.stage == Stage::Tick && self.ports.have_handled_all()
    }

    /// Reports the progress of the run at the end of a tick.
    fn report<P: Progress>(&self, progress: &mut P) {
        if self.stage == Stage::Tick {
            progress.ticked(self.turns.passed(), self.turns.ticks(), self.logged);
        }
    }

    /// Handles a channel message. Returns whether the run continues.
    fn take(&mut self, word: Inbound) -> Result<bool, AllocError> {
        match word {
            Inbound::Packet(sent) => self.ports.keep(sent)?,
            Inbound::Tick => self.asked = true,
            Inbound::Done(logged) => {
                self.ports.note_done();
                self.logged = self.logged.and(logged);
                if logged.deliveries > 0 {
                    self.delivered_in = Some(self.turns.passed());
                }
            }
            Inbound::Gone => return Ok(false),
        }
        Ok(true)
    }

    /// Takes the first packet, without a fate.
    fn begin(&mut self) -> Result<(), AllocError> {
        let packet = self.first.clone()?;
        let to = ProcId::of(1);
        self.ports.take(Delivery { to, packet })
    }

    /// Takes what the nodes have sent, one node after the other, and lets what the ways make of it wait for its receivers.
    fn carry_sent(&mut self, alloc: Global) -> Result<(), AllocError> {
        for place in 0..self.ports.count() {
            for sent in self.ports.take_sent(alloc, place) {
                self.carry(alloc, &sent)?;
            }
        }
        Ok(())
    }

    fn carry(&mut self, alloc: Global, sent: &Sent) -> Result<(), AllocError> {
        for delivery in self.ways.carry(alloc, &sent.address, &sent.packet)? {
            self.ports.take(delivery)?;
        }
        Ok(())
    }

    /// Gives the nodes what comes next.
    fn advance<R: Wait>(&mut self, rt: &R) -> Result<(), AllocError> {
        match self.stage {
            Stage::Tick => self.tick(rt),
            Stage::Submit => self.submit(rt),
            Stage::Forward => self.forward(rt),
        }
    }

    /// Lets a tick pass: if it brings a turn, the timer of the turn's node runs out.
    fn tick<R: Wait>(&mut self, rt: &R) -> Result<(), AllocError> {
        match self.turns.tick() {
            Some(turn) => {
                self.stage = Stage::Submit;
                self.ports.time_out(rt, turn)
            }
            None => self.forward(rt),
        }
    }

    /// Lets the client of the turn's node submit its message.
    fn submit<R: Wait>(&mut self, rt: &R) -> Result<(), AllocError> {
        self.stage = Stage::Forward;
        match self.turns.last() {
            Some(turn) => self.ports.submit(rt, turn),
            None => Ok(()),
        }
    }

    /// Forwards packets, and answers the pacing thread.
    fn forward<R: Wait>(&mut self, rt: &R) -> Result<(), AllocError> {
        self.stage = Stage::Tick;
        self.ports.hand_on(rt)?;
        self.answer(rt)
    }

    /// Answers the pacing thread, if it waits for an answer.
    fn answer<R: Wait>(&mut self, rt: &R) -> Result<(), AllocError> {
        if !self.asked {
            return Ok(());
        }
        self.asked = false;
        let pace = if self.turns.are_over() {
            Pace::Over
        } else {
            Pace::On
        };
        give(rt, &self.paces, pace)
    }

    /// Counts what the nodes have sent since packets were carried last.
    fn take_late(&mut self, alloc: Global) -> u64 {
        let mut late = 0u64;
        for place in 0..self.ports.count() {
            for sent in self.ports.take_sent(alloc, place) {
                late = late.saturating_add(self.ways.receivers_of(&sent.address));
            }
        }
        late
    }

    /// Returns what was done with packets. The first token has no fate.
    fn traffic(&mut self, alloc: Global) -> Traffic {
        let late = self.take_late(alloc);
        let drawn = self.ways.drawn();
        Traffic {
            sent: drawn.fates.saturating_add(1).saturating_add(late),
            lost: drawn.lost,
            repeated: drawn.repeated,
            forwarded: self.ports.forwarded(),
            held: self.ways.held(),
            waiting: self.ports.waiting(),
            late,
            delivered_in: self.delivered_in,
        }
    }
}
