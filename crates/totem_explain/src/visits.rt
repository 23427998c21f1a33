//! The stays of processes in regular configurations, and an order of the configurations that fits all logs.
use crate::lookup::place_of;
use std::alloc::{AllocError, Global};
use totem_evs::{Ending, Entry, Log, Run};
use totem_names::{ConfId, Place, Proc};

/// What a process did in a regular configuration and in the transitional one after it.
#[derive(Clone, Copy)]
pub struct Visit {
    pub proc: Proc,
    /// The regular configuration.
    pub conf: ConfId,
    /// The change to it.
    pub place: Place,
    /// The regular configuration before it in the log.
    pub from: Option<ConfId>,
    /// The transitional configuration on the way to it.
    pub through: Option<ConfId>,
    pub sends: u32,
    pub deliveries: u32,
    /// How many of the deliveries were in the transitional configuration after it.
    pub later: u32,
    /// How the log ends, if it ends there, and the transitional configuration in which it does.
    pub ending: Option<Ending>,
    pub ends_in: Option<ConfId>,
}

impl Visit {
    /// Returns whether the process failed there.
    pub fn has_failed(&self) -> bool {
        self.ending == Some(Ending::Failed)
    }
}

/// A log that is read change by change.
#[derive(Drop)]
struct Stays {
    list: Vec<Visit>,
    /// The index of the first visit of this log.
    first: usize,
    /// The transitional configuration of the process.
    through: Option<ConfId>,
}

impl Stays {
    /// Returns the visit of this log that was begun last.
    fn last(&mut self) -> Option<&mut Visit> {
        if self.list.len() == self.first {
            return None;
        }
        self.list.last_mut()
    }

    fn add_change(&mut self, place: Place, conf: &ConfId) -> Result<(), AllocError> {
        if let ConfId::Transitional { .. } = conf {
            self.through = Some(*conf);
            return Ok(());
        }
        let from = self.last().map(|visit| visit.conf);
        let through = self.through;
        self.list.push(Visit {
            proc: place.proc,
            conf: *conf,
            place,
            from,
            through,
            sends: 0,
            deliveries: 0,
            later: 0,
            ending: None,
            ends_in: None,
        })?;
        self.through = None;
        Ok(())
    }

    fn add_send(&mut self) {
        if let Some(visit) = self.last() {
            visit.sends = visit.sends.saturating_add(1);
        }
    }

    fn add_delivery(&mut self) {
        let is_later = self.through.is_some();
        if let Some(visit) = self.last() {
            visit.deliveries = visit.deliveries.saturating_add(1);
            visit.later = visit.later.saturating_add(u32::from(is_later));
        }
    }

    fn add_log(&mut self, log: &Log) -> Result<(), AllocError> {
        self.first = self.list.len();
        self.through = None;
        for (at, entry) in log.entries.as_slice().iter().enumerate() {
            match entry {
                Entry::Conf(conf, _) => self.add_change(place_of(log, at), conf)?,
                Entry::Send(_, _, _) => self.add_send(),
                Entry::Deliver(_, _) => self.add_delivery(),
                Entry::Fail(_) => {}
            }
        }
        let ends_in = self.through;
        if let Some(visit) = self.last() {
            visit.ending = Some(log.ending);
            visit.ends_in = ends_in;
        }
        Ok(())
    }
}

/// A regular configuration that logs change to.
#[derive(Clone, Copy)]
struct Goal {
    conf: ConfId,
    /// How many of its visits are not next in their logs yet.
    waiting: u32,
    /// Whether it is in the order.
    is_placed: bool,
}

/// Returns the regular configurations of these visits, in ascending order.
fn goals_of(alloc: Global, list: &[Visit]) -> Result<Vec<Goal>, AllocError> {
    let mut goals = Vec::with_capacity(alloc, list.len())?;
    for visit in list {
        goals.push(Goal {
            conf: visit.conf,
            waiting: 1,
            is_placed: false,
        })?;
    }
    goals.sort_by_key(|goal| goal.conf)?;
    goals.dedup_by(|next, kept| {
        let is_same = next.conf.is(&kept.conf);
        if is_same {
            kept.waiting = kept.waiting.saturating_add(1);
        }
        is_same
    });
    Ok(goals)
}

/// Returns the index of a configuration among these.
fn goal_at(goals: &[Goal], conf: &ConfId) -> usize {
    goals.partition_point(|goal| goal.conf.is_below(conf))
}

/// Returns the visits after those whose configurations are in the order.
fn after_placed<'v>(goals: &[Goal], visits: &'v [Visit]) -> &'v [Visit] {
    let next = visits.iter().position(|visit| {
        let goal = goals.get(goal_at(goals, &visit.conf));
        !goal.is_some_and(|goal| goal.is_placed)
    });
    visits.get(next.unwrap_or(visits.len())..).unwrap_or(&[])
}

/// Counts the first of these visits as the next one of its log.
fn arrive(goals: &mut [Goal], visits: &[Visit]) {
    if let Some(visit) = visits.first() {
        let at = goal_at(goals, &visit.conf);
        if let Some(goal) = goals.get_mut(at) {
            goal.waiting = goal.waiting.saturating_sub(1);
        }
    }
}

/// How far the order of the configurations is.
#[derive(Drop)]
struct Order<'v> {
    goals: Vec<Goal>,
    /// The visits of each log that are not in the order yet.
    heads: Vec<&'v [Visit]>,
}

impl Order<'_> {
    /// Returns the least configuration that is next in all logs that come to it; if there is none, the least that is next in some log.
    fn choice(&self) -> Option<ConfId> {
        let goals = self.goals.as_slice();
        let next = self.heads.iter().filter_map(|head| head.first());
        let goals = next.filter_map(|visit| goals.get(goal_at(goals, &visit.conf)));
        let least = goals.min_by_key(|goal| (goal.waiting > 0, goal.conf))?;
        Some(least.conf)
    }

    /// Puts a configuration into the order, so that the logs in which it is next go on.
    fn place(&mut self, conf: &ConfId) {
        let at = goal_at(self.goals.as_slice(), conf);
        if let Some(goal) = self.goals.get_mut(at) {
            goal.is_placed = true;
        }
        for head in self.heads.iter_mut() {
            let rest = after_placed(self.goals.as_slice(), *head);
            if rest.len() < head.len() {
                *head = rest;
                arrive(self.goals.as_mut_slice(), rest);
            }
        }
    }
}

/// Returns the visits of a process, of those of all logs, which stand log by log.
pub fn visits_by<'v>(list: &'v [Visit], proc: Proc) -> &'v [Visit] {
    let from = list.iter().position(|visit| visit.proc == proc);
    let rest = list.get(from.unwrap_or(list.len())..).unwrap_or(&[]);
    let count = rest.iter().position(|visit| visit.proc != proc);
    rest.get(..count.unwrap_or(rest.len())).unwrap_or(rest)
}

/// Returns the configurations of these visits in an order that fits all logs.
fn order_of(alloc: Global, list: &[Visit]) -> Result<Vec<ConfId>, AllocError> {
    let mut goals = goals_of(alloc, list)?;
    let mut heads = Vec::new(alloc);
    let mut last = None;
    for visit in list {
        if last != Some(visit.proc) {
            let visits = visits_by(list, visit.proc);
            arrive(goals.as_mut_slice(), visits);
            heads.push(visits)?;
        }
        last = Some(visit.proc);
    }
    let mut order = Vec::new(alloc);
    let count = goals.len();
    let mut known = Order { goals, heads };
    for _ in 0..count {
        let Some(conf) = known.choice() else {
            break;
        };
        order.push(conf)?;
        known.place(&conf);
    }
    Ok(order)
}

/// The visits of all processes of a run.
#[derive(Drop)]
pub struct Visits {
    /// Log by log.
    pub list: Vec<Visit>,
}

impl Visits {
    /// Gathers the visits of a run.
    pub fn of(alloc: Global, run: &Run) -> Result<Visits, AllocError> {
        let mut stays = Stays {
            list: Vec::new(alloc),
            first: 0,
            through: None,
        };
        for log in run.logs.as_slice() {
            stays.add_log(log)?;
        }
        Ok(Visits { list: stays.list })
    }

    /// Returns the regular configurations in an order that fits all logs. Where there is none, since events come before themselves, a
    /// configuration is as early as in one of the logs.
    pub fn order(&mut self, alloc: Global) -> Result<Vec<ConfId>, AllocError> {
        order_of(alloc, self.list.as_slice())
    }
}
