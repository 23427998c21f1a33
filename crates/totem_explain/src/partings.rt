//! Where logs part (docs/SPECIFICATIONS.md, "Apart"). Sets of logs are bits, as in `sites`.
use crate::fate::Fate;
use crate::lookup::log_of;
use crate::sites::{Sites, is_regular};
use crate::visits::{Visit, Visits, visits_by};
use std::alloc::{AllocError, Global};
use totem_evs::{Ending, Entry, Run};
use totem_names::{ConfId, Proc};

/// What a log does after a change to a regular configuration.
#[derive(Clone, Copy, PartialEq, Eq)]
pub struct Step {
    /// The last transitional configuration.
    through: Option<ConfId>,
    /// The next regular configuration, or the end of the log.
    pub fate: Fate,
}

/// The first change of a log to a regular configuration, and the step after it.
#[derive(Clone, Copy)]
pub struct Stop {
    pub visit: Visit,
    pub step: Step,
    /// The bit of the log.
    pub log: u32,
    /// The logs from which it parts there.
    pub parted: u32,
}

impl Stop {
    /// Returns whether the log may still take the step of another one.
    fn may_take(&self, run: &Run, other: &Stop) -> bool {
        matches!(self.step.fate, Fate::Ended(_, Ending::Standing))
            && (self.step.through.is_none() || self.step.through == other.step.through)
            && lists(other.entries_behind(run), self.visit.proc)
    }

    fn parts_from(&self, run: &Run, other: &Stop) -> bool {
        let is_same = match (self.step.fate, other.step.fate) {
            (Fate::Ended(one, _), Fate::Ended(other, _)) => one.is(&other),
            _ => self.step == other.step,
        };
        !is_same && !self.may_take(run, other) && !other.may_take(run, self)
    }

    /// Returns the entries of the log after the change.
    pub fn entries_behind<'r>(&self, run: &'r Run) -> &'r [Entry] {
        let log = log_of(run, self.visit.proc);
        let behind = log.and_then(|log| log.entries.as_slice().get(self.visit.place.at as usize..));
        behind.unwrap_or(&[])
    }
}

/// Returns whether each change among these entries, up to the first one to a regular configuration, lists the process.
fn lists(entries: &[Entry], proc: Proc) -> bool {
    for entry in entries {
        if let Entry::Conf(conf, members) = entry {
            if !members.as_slice().contains(&proc) {
                return false;
            }
            if is_regular(conf) {
                return true;
            }
        }
    }
    true
}

/// Notes which of these logs, all of which change to one configuration, part there.
fn part(run: &Run, stops: &mut [Stop]) {
    for index in 1..stops.len() {
        let (before, rest) = stops.split_at_mut(index);
        let Some(one) = rest.first_mut() else {
            return;
        };
        for other in before.iter_mut() {
            if one.parts_from(run, other) {
                one.parted |= other.log;
                other.parted |= one.log;
            }
        }
    }
}

/// Returns for each of the sites the stops of the logs that part there.
pub fn partings_at(alloc: Global, run: &Run, sites: &Sites) -> Result<Vec<Vec<Stop>>, AllocError> {
    let mut all: Vec<Vec<Stop>> = Vec::new(alloc);
    for _ in &sites.list {
        all.push(Vec::new(alloc))?;
    }
    let list = Visits::of(alloc, run)?.list;
    let mut bit = 1u32;
    for log in run.logs.as_slice() {
        let visits = visits_by(list.as_slice(), log.proc);
        let mut near = 0;
        for (index, visit) in visits.iter().enumerate() {
            let next = visits.get(index.saturating_add(1));
            let end = Fate::Ended(visit.ends_in.unwrap_or(visit.conf), log.ending);
            near = sites.find(&visit.conf, near);
            if let Some(stops) = all.get_mut(near)
                && !stops.last().is_some_and(|stop| stop.log == bit)
            {
                stops.push(Stop {
                    visit: *visit,
                    step: Step {
                        through: next.map_or(visit.ends_in, |next| next.through),
                        fate: next.map_or(end, |next| Fate::WentOn(next.conf)),
                    },
                    log: bit,
                    parted: 0,
                })?;
            }
        }
        bit <<= 1;
    }
    for stops in all.iter_mut() {
        part(run, stops.as_mut_slice());
        stops.retain(|stop| stop.parted != 0);
    }
    Ok(all)
}
