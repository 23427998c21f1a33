//! What one side of a parting has and another one lacks (docs/SPECIFICATIONS.md, "Apart"). Sets of logs are bits, as in `sites`.
use crate::fate::Fate;
use crate::groups::{Group, add_to_group};
use crate::lookup::message_of;
use crate::messages::Messages;
use crate::partings::{Step, Stop, partings_at};
use crate::sites::{Sites, is_regular};
use crate::survey::Survey;
use std::alloc::{AllocError, Global};
use totem_evs::{Ending, Entry, Log, Run};
use totem_names::ConfId;

/// The logs that deliver a message, and those that lack it.
#[derive(Clone, Copy, Default)]
pub struct Held {
    pub have: u32,
    pub lack: u32,
    /// The number of the side for which it was counted last.
    side: u32,
}

/// How often the processes of a side send a message that others lack, and how many such messages they deliver.
#[derive(Clone, Copy, Default)]
pub struct Alone {
    pub sends: u32,
    pub deliveries: u32,
}

impl Held {
    /// Notes that a log of this side sends or delivers the message, apart from these.
    fn add(&mut self, is_send: bool, apart: u32, side: u32, alone: &mut Alone) {
        let lack = apart & !self.have;
        if lack == 0 {
            return;
        }
        if is_send {
            alone.sends = alone.sends.saturating_add(1);
            return;
        }
        self.lack |= lack;
        if self.side != side {
            self.side = side;
            alone.deliveries = alone.deliveries.saturating_add(1);
        }
    }
}

/// What comes of a configuration after which logs part.
#[derive(Drop)]
pub struct Parting {
    pub conf: ConfId,
    /// The processes that part there, by their steps.
    pub sides: Vec<Group<Step>>,
    /// As many.
    pub alone: Vec<Alone>,
    /// Where logs that part come together again.
    pub together: Vec<ConfId>,
    /// Whether some don't, of those that have not failed.
    pub is_never: bool,
}

impl Parting {
    /// Returns whether one side has what another lacks.
    pub fn has_apart(&self) -> bool {
        self.alone.iter().any(|alone| alone.deliveries > 0)
    }

    /// Returns whether two sides did not fail there, or one has what another lacks.
    fn is_told(&self) -> bool {
        let sides = self.sides.iter().filter(|side| {
            let fate = side.shared.fate;
            !matches!(fate, Fate::Ended(_, Ending::Failed))
        });
        sides.count() > 1 || self.has_apart()
    }
}

/// The partings of a run, and who has and who lacks its messages.
#[derive(Drop)]
pub struct Apart {
    /// In ascending order of their configurations.
    pub partings: Vec<Parting>,
    pub names: Messages,
    /// Of each message.
    pub held: Vec<Held>,
    /// The logs with a failure.
    failed: u32,
    /// How many sides are counted.
    sides: u32,
}

impl Apart {
    /// Finds the partings of a run, and who has and who lacks its messages; without a parting no messages are gathered.
    pub fn of(alloc: Global, run: &Run) -> Result<Apart, AllocError> {
        let sites = Survey::of(alloc, run)?.sites;
        let all = partings_at(alloc, run, &sites)?;
        let mut apart = Apart {
            partings: Vec::new(alloc),
            names: Messages::none(alloc),
            held: Vec::new(alloc),
            failed: 0,
            sides: 0,
        };
        if all.iter().any(|stops| !stops.is_empty()) {
            apart.gather(run.logs.as_slice())?;
        }
        for stops in &all {
            apart.add_parting(alloc, run, &sites, stops)?;
        }
        Ok(apart)
    }

    /// Finds who has each message.
    fn gather(&mut self, logs: &[Log]) -> Result<(), AllocError> {
        for log in logs {
            for message in log.entries.as_slice().iter().filter_map(message_of) {
                self.names.add(&message)?;
            }
        }
        self.names.number()?;
        self.held.resize(self.names.len(), Held::default())?;
        let mut bit = 1u32;
        for log in logs {
            let mut finder = self.names.finder();
            for entry in log.entries.as_slice() {
                match entry {
                    Entry::Deliver(message, _) => {
                        let index = finder.find(message);
                        if let Some(one) = index.and_then(|index| self.held.get_mut(index)) {
                            one.have |= bit;
                        }
                    }
                    Entry::Fail(_) => self.failed |= bit,
                    _ => {}
                }
            }
            bit <<= 1;
        }
        Ok(())
    }

    /// Adds what comes of a configuration that has these stops, if logs part there.
    fn add_parting(
        &mut self,
        alloc: Global,
        run: &Run,
        sites: &Sites,
        stops: &[Stop],
    ) -> Result<(), AllocError> {
        let Some(first) = stops.first() else {
            return Ok(());
        };
        let mut parting = Parting {
            conf: first.visit.conf,
            sides: Vec::new(alloc),
            alone: Vec::new(alloc),
            together: Vec::new(alloc),
            is_never: false,
        };
        for stop in stops {
            add_to_group(alloc, &mut parting.sides, stop.step, stop.visit.proc, None)?;
        }
        for side in &parting.sides {
            let mut alone = Alone::default();
            self.sides = self.sides.saturating_add(1);
            for stop in stops.iter().filter(|stop| stop.step == side.shared) {
                let is_left = self.follow(run, sites, stop, &mut alone, &mut parting.together)?;
                parting.is_never |= is_left;
            }
            parting.alone.push(alone)?;
        }
        parting.together.sort()?;
        if parting.is_told() {
            self.partings.push(parting)?;
        }
        Ok(())
    }

    /// Follows a log from a stop until it is together again with all from which it parts there. Returns whether at its end one is left;
    /// neither may have failed.
    fn follow(
        &mut self,
        run: &Run,
        sites: &Sites,
        stop: &Stop,
        alone: &mut Alone,
        together: &mut Vec<ConfId>,
    ) -> Result<bool, AllocError> {
        let mut left = stop.parted;
        let mut near = 0;
        let mut finder = self.names.finder();
        for entry in stop.entries_behind(run) {
            if let Entry::Conf(conf, _) = entry
                && is_regular(conf)
            {
                near = sites.find(conf, near);
                let there = sites.list.get(near).map_or(0, |site| site.logs);
                if left & there != 0 && !together.contains(conf) {
                    together.push(*conf)?;
                }
                left &= !there;
            }
            if left == 0 {
                break;
            }
            let index = message_of(entry).and_then(|message| finder.find(&message));
            if let Some(one) = index.and_then(|index| self.held.get_mut(index)) {
                let is_send = matches!(entry, Entry::Send(..));
                one.add(is_send, left & !self.failed, self.sides, alone);
            }
        }
        Ok(stop.log & self.failed == 0 && left & !self.failed != 0)
    }
}
