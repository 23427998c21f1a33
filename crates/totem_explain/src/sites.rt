//! The configurations of a run: which logs share them, and how logs part and come together. Sets of logs are bits: bit i stands for the
//! log at index i.
use std::alloc::{AllocError, Global};
use totem_evs::{Ending, Run};
use totem_names::{ConfId, Proc, ProcId, RingId};

/// The transitional configurations that logs change to just before a regular one, or just after it.
#[derive(Clone, Copy, PartialEq, Eq)]
enum Beside {
    None,
    One(u32),
    Several,
}

impl Beside {
    /// Returns these and one more.
    fn with(self, site: u32) -> Beside {
        match self {
            Beside::None => Beside::One(site),
            Beside::One(known) if known == site => self,
            _ => Beside::Several,
        }
    }
}

/// A configuration, and what logs do there.
#[derive(Clone, Copy)]
pub struct Site {
    pub conf: ConfId,
    /// The logs of its members.
    pub members: u32,
    /// The logs that change to it.
    pub logs: u32,
    /// The logs that change to another one after it.
    pub left: u32,
    /// The logs that end in it, or in what follows it, with a failure.
    pub failed: u32,
    /// The logs that are open in it, or in what follows it.
    pub open: u32,
    /// The quiet logs that end in it, or in what follows it.
    pub quiet: u32,
    /// Of a regular one: the logs that deliver a message that was sent there and that another one lacks.
    pub past: u32,
    before: Beside,
    behind: Beside,
}

/// The position of a configuration among all. Where nothing is wrong, it rises along each log.
#[derive(Clone, Copy, PartialEq, Eq, PartialOrd, Ord)]
struct Rank {
    ring: RingId,
    is_regular: bool,
    least: Option<ProcId>,
}

impl Site {
    fn of(run: &Run, conf: ConfId, members: &[Proc]) -> Site {
        Site {
            conf,
            members: logs_of(run, members),
            logs: 0,
            left: 0,
            failed: 0,
            open: 0,
            quiet: 0,
            past: 0,
            before: Beside::None,
            behind: Beside::None,
        }
    }

    /// Returns the members for each of which one of these logs is that of another process.
    pub fn members_but(&self, logs: u32) -> u32 {
        match logs.count_ones() {
            0 => 0,
            1 => self.members & !logs,
            _ => self.members,
        }
    }

    /// Notes the logs that deliver a message that was sent there. Returns whether another one lacks it.
    pub fn add_past(&mut self, delivered: u32) -> bool {
        let is_lacked = delivered != 0 && self.logs & !delivered != 0;
        if is_lacked {
            self.past |= delivered;
        }
        is_lacked
    }

    /// Returns whether logs came to it from several transitional configurations.
    pub fn is_merge(&self) -> bool {
        self.before == Beside::Several
    }

    /// Returns whether logs went on from it to several transitional configurations.
    pub fn is_partition(&self) -> bool {
        self.behind == Beside::Several
    }
}

/// A change of a log.
#[derive(Clone, Copy)]
struct Change {
    conf: ConfId,
    log: u32,
    /// The index of the configuration's site.
    site: u32,
}

/// The configurations of a run, and the changes to them.
#[derive(Drop)]
pub struct Sites {
    /// In ascending order of their ranks, but for those that are new in the log that is read.
    pub list: Vec<Site>,
    /// Log by log.
    changes: Vec<Change>,
    /// How many of the list are not new.
    known: usize,
    /// The index of the site that was found last.
    near: usize,
}

/// Where a log is between two of its changes.
#[derive(Clone, Copy)]
pub struct Stay {
    pub log: u32,
    pub is_regular: bool,
    /// The index of the site of the regular configuration, `NOWHERE` before the first one.
    pub site: u32,
    /// The logs of the other members.
    pub others: u32,
    /// The logs that go on to the same next configuration, if there are several.
    pub group: u32,
}

/// No site has this index.
const NOWHERE: u32 = u32::MAX;

impl Stay {
    /// The log has not changed to any configuration.
    pub fn before(log: u32) -> Stay {
        Stay {
            log,
            is_regular: false,
            site: NOWHERE,
            others: 0,
            group: 0,
        }
    }

    /// Returns whether no log of the group is before this one.
    pub fn is_first(&self) -> bool {
        self.group.trailing_zeros() == self.log.trailing_zeros()
    }
}

impl Sites {
    pub fn none(alloc: Global) -> Sites {
        Sites {
            list: Vec::new(alloc),
            changes: Vec::new(alloc),
            known: 0,
            near: 0,
        }
    }

    /// Adds a change of a log. `log` is its bit.
    pub fn add(
        &mut self,
        run: &Run,
        log: u32,
        conf: &ConfId,
        members: &[Proc],
    ) -> Result<(), AllocError> {
        self.near = site_near(self.list.get(..self.known).unwrap_or(&[]), conf, self.near);
        let site = self.list.get(self.near);
        if self.near >= self.known || !site.is_some_and(|site| site.conf.is(conf)) {
            self.list.push(Site::of(run, *conf, members))?;
        }
        self.changes.push(Change {
            conf: *conf,
            log,
            site: NOWHERE,
        })?;
        Ok(())
    }

    /// Puts the configurations of a log, all of whose changes are added, among the others.
    pub fn end_log(&mut self) -> Result<(), AllocError> {
        if self.list.len() > self.known {
            self.list.sort_by_key(|site| rank_of(&site.conf))?;
            self.list.dedup_by(|next, kept| next.conf.is(&kept.conf));
        }
        self.known = self.list.len();
        self.near = 0;
        Ok(())
    }

    /// Notes at each site which logs come and go, once all changes are added.
    pub fn link(&mut self) {
        let mut last: Option<Change> = None;
        let mut near = 0;
        for change in self.changes.iter_mut() {
            near = site_near(self.list.as_slice(), &change.conf, near);
            change.site = u32::try_from(near).unwrap_or(NOWHERE);
            if let Some(site) = self.list.get_mut(near) {
                site.logs |= change.log;
            }
            match last {
                Some(last) if last.log == change.log => connect(&mut self.list, &last, change),
                _ => {}
            }
            last = Some(*change);
        }
    }

    /// Returns where a log is after the change at this index, and before which it was there.
    pub fn stay(&self, index: usize, before: &Stay) -> Stay {
        let Some(change) = self.changes.get(index) else {
            return *before;
        };
        let Some(site) = self.list.get(change.site as usize) else {
            return *before;
        };
        let is_regular = is_regular(&site.conf);
        let next = self.changes.get(index.saturating_add(1));
        let next = next.filter(|next| next.log == change.log);
        let next = next.and_then(|next| self.list.get(next.site as usize));
        let group = next.map_or(0, |next| site.left & next.logs);
        Stay {
            log: change.log,
            is_regular,
            site: if is_regular { change.site } else { before.site },
            others: site.members & !change.log,
            group: if group.count_ones() < 2 { 0 } else { group },
        }
    }

    /// Notes how a log ends.
    pub fn end(&mut self, stay: &Stay, ending: Ending) {
        if let Some(site) = self.list.get_mut(stay.site as usize) {
            match ending {
                Ending::Failed => site.failed |= stay.log,
                Ending::Standing => site.open |= stay.log,
                Ending::Quiet => site.quiet |= stay.log,
            }
        }
    }

    /// Returns the index of a configuration, which is most often that of the one found before it, or the next.
    pub fn find(&self, conf: &ConfId, before: usize) -> usize {
        site_near(self.list.as_slice(), conf, before)
    }

    /// Returns the logs that change to a configuration.
    pub fn logs_at(&self, conf: &ConfId) -> u32 {
        let site = self.list.get(self.find(conf, 0));
        site.map_or(0, |site| site.logs)
    }

    /// Returns how often a change follows another one in its log.
    pub fn moves(&self) -> u32 {
        let changes = self.changes.iter();
        let next = self.changes.iter().skip(1);
        let count = changes
            .zip(next)
            .filter(|(one, next)| one.log == next.log)
            .count();
        u32::try_from(count).unwrap_or(u32::MAX)
    }
}

/// Notes that a log goes from one site to another.
fn connect(list: &mut Vec<Site>, from: &Change, to: &Change) {
    let is_to_regular = is_regular(&to.conf);
    if let Some(site) = list.get_mut(from.site as usize) {
        site.left |= from.log;
        if is_regular(&site.conf) && !is_to_regular {
            site.behind = site.behind.with(to.site);
        }
    }
    if let Some(site) = list.get_mut(to.site as usize) {
        if is_to_regular && !is_regular(&from.conf) {
            site.before = site.before.with(from.site);
        }
    }
}

fn rank_of(conf: &ConfId) -> Rank {
    match conf {
        ConfId::Regular(ring) => Rank {
            ring: *ring,
            is_regular: true,
            least: None,
        },
        ConfId::Transitional { least, next } => Rank {
            ring: *next,
            is_regular: false,
            least: Some(*least),
        },
    }
}

/// Returns where a configuration is in the list, or would be. In most logs that is behind the one found before it.
fn site_near(list: &[Site], conf: &ConfId, before: usize) -> usize {
    let next = before.saturating_add(1);
    let is_at = |at: usize| list.get(at).is_some_and(|site| site.conf.is(conf));
    if is_at(next) {
        return next;
    }
    if is_at(before) {
        return before;
    }
    let rank = rank_of(conf);
    list.partition_point(|site| rank_of(&site.conf) < rank)
}

/// Returns the logs of these processes.
pub fn logs_of(run: &Run, procs: &[Proc]) -> u32 {
    let mut all = 0u32;
    let mut bit = 1u32;
    for log in run.logs.as_slice() {
        if procs.binary_search(&log.proc).is_ok() {
            all |= bit;
        }
        bit <<= 1;
    }
    all
}

/// Returns whether a configuration is regular.
pub fn is_regular(conf: &ConfId) -> bool {
    matches!(conf, ConfId::Regular(_))
}
