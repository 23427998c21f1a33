//! What is shown of a log.
use crate::absence::{Absence, Lacked};
use crate::lookup::entry_of;
use std::alloc::{AllocError, Global};
use totem_evs::{Ending, Entry, Log};
use totem_names::{ConfId, MsgId, Place, Proc};

/// Entries that are left out: how many, and to how many configurations they change.
#[derive(Clone, Copy, Debug, Default, PartialEq, Eq)]
pub struct Gap {
    pub entries: u32,
    pub changes: u32,
}

/// What a spot of a lane shows.
#[derive(Clone, Copy, Debug, PartialEq, Eq)]
pub enum What {
    Change,
    Send(MsgId),
    Delivery(MsgId),
    Failure,
    LeftOut(Gap),
    /// An event that the log lacks here.
    Lacking(Lacked),
}

impl What {
    fn of(entry: &Entry) -> What {
        match entry {
            Entry::Conf(..) => What::Change,
            Entry::Send(message, _, _) => What::Send(*message),
            Entry::Deliver(message, _) => What::Delivery(*message),
            Entry::Fail(_) => What::Failure,
        }
    }
}

/// A spot of a lane.
#[derive(Clone, Copy, Debug, PartialEq, Eq)]
pub struct Spot {
    pub what: What,
    /// How many entries of the log are before it; for entries that are left out, how many were read including them.
    pub before: u32,
    /// The configuration of the process after it.
    pub conf: Option<ConfId>,
    /// Its position among what is shown of all logs, which `lay_out` sets.
    pub slot: u32,
}

impl Spot {
    /// Returns the message that is sent at this spot.
    pub fn sends(&self) -> Option<MsgId> {
        match self.what {
            What::Send(message) => Some(message),
            _ => None,
        }
    }

    /// Returns the message that has to be sent before this spot, if any: the one that is delivered here, or should have been.
    pub fn needs(&self) -> Option<MsgId> {
        match self.what {
            What::Delivery(message) | What::Lacking(Lacked::Delivery(message)) => Some(message),
            _ => None,
        }
    }

    /// Returns the message that is delivered at this spot.
    pub fn delivers(&self) -> Option<MsgId> {
        match self.what {
            What::Delivery(message) => Some(message),
            _ => None,
        }
    }
}

/// The lane of a process: what is shown of its log, in order.
#[derive(Debug, Drop)]
pub struct Lane {
    pub proc: Proc,
    pub ending: Ending,
    pub spots: Vec<Spot>,
    /// How many of the spots have got their slots.
    pub placed: usize,
}

/// A log of which some entries have been read, and what is shown of them.
#[derive(Drop)]
struct Reading {
    spots: Vec<Spot>,
    read: u32,
    /// The configuration of the process.
    conf: Option<ConfId>,
    /// The entries that have been left out since the last one that is shown.
    left_out: Gap,
}

impl Reading {
    fn add(&mut self, what: What) -> Result<(), AllocError> {
        self.spots.push(Spot {
            what,
            before: self.read,
            conf: self.conf,
            slot: 0,
        })?;
        Ok(())
    }

    /// Adds a spot for the entries left out, if any were.
    fn end_gap(&mut self) -> Result<(), AllocError> {
        if self.left_out.entries == 0 {
            return Ok(());
        }
        self.add(What::LeftOut(self.left_out))?;
        self.left_out = Gap::default();
        Ok(())
    }

    /// Reads the entries up to this number of a log, and leaves them out.
    fn leave_out(&mut self, entries: &[Entry], to: u32) {
        let hidden = entries.get(self.read as usize..to as usize);
        for entry in hidden.unwrap_or(&[]) {
            if let Entry::Conf(conf, _) = entry {
                self.conf = Some(*conf);
                self.left_out.changes = self.left_out.changes.saturating_add(1);
            }
        }
        let count = to.saturating_sub(self.read);
        self.left_out.entries = self.left_out.entries.saturating_add(count);
        self.read = self.read.max(to);
    }

    /// Reads the next entry, and shows it.
    fn show(&mut self, entry: &Entry) -> Result<(), AllocError> {
        self.end_gap()?;
        if let Entry::Conf(to, _) = entry {
            self.conf = Some(*to);
        }
        self.add(What::of(entry))?;
        self.read = self.read.saturating_add(1);
        Ok(())
    }
}

/// A log of which some entries are shown, and some events that it lacks.
#[derive(Clone, Copy)]
pub struct Excerpt<'a> {
    pub log: &'a Log,
    /// The numbers of the entries that are shown, counted from 1, in ascending order. Those that the log does not have are left out.
    pub entries: &'a [u32],
    /// The events that logs lack. Shown are those of this log that were due before an entry that is shown, or at its end.
    pub absences: &'a [Absence],
}

impl Excerpt<'_> {
    /// Adds the events that were due before entry `at`.
    fn add_due(&self, reading: &mut Reading, at: u32) -> Result<(), AllocError> {
        let log = self.log;
        for absence in self.absences {
            if absence.due.proc == log.proc && absence.due.at == at {
                reading.end_gap()?;
                reading.add(What::Lacking(absence.event))?;
            }
        }
        Ok(())
    }
}

impl Lane {
    /// Returns the place of an entry that is shown at a spot.
    pub fn place_of(&self, spot: &Spot) -> Place {
        Place {
            proc: self.proc,
            at: spot.before.saturating_add(1),
        }
    }

    /// Returns the lane of what is shown of a log.
    pub fn of(alloc: Global, excerpt: Excerpt<'_>) -> Result<Lane, AllocError> {
        let mut reading = Reading {
            spots: Vec::new(alloc),
            read: 0,
            conf: None,
            left_out: Gap::default(),
        };
        let log = excerpt.log;
        let entries = log.entries.as_slice();
        for at in excerpt.entries {
            if let Some(entry) = entry_of(log, *at) {
                reading.leave_out(entries, at.saturating_sub(1));
                excerpt.add_due(&mut reading, *at)?;
                reading.show(entry)?;
            }
        }
        let end = u32::try_from(entries.len()).unwrap_or(u32::MAX);
        reading.leave_out(entries, end);
        excerpt.add_due(&mut reading, end.saturating_add(1))?;
        reading.end_gap()?;
        Ok(Lane {
            proc: log.proc,
            ending: log.ending,
            spots: reading.spots,
            placed: 0,
        })
    }
}
