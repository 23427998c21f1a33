//! The messages of a run, each with the logs that deliver it. Sets of logs are bits, as in `sites`.
use crate::messages::Messages;
use crate::sites::{Site, Sites, Stay, is_regular};
use std::alloc::{AllocError, Global};
use totem_evs::{Entry, Log, Run};
use totem_names::{MsgId, Service};

/// A message that was sent. There are many, so it is small.
#[derive(Clone, Copy)]
pub struct Sent {
    /// The logs that deliver it.
    pub delivered: u32,
    /// The index of the configuration's site.
    pub site: u32,
    /// The index of the log that sends it, `NOBODY` if none does.
    sender: u8,
    pub is_safe: bool,
    /// Whether its sender had sent or delivered a message in the same configuration before.
    pub is_later: bool,
}

const NOBODY: u8 = 32;

/// The deliveries of a message in transitional configurations.
#[derive(Clone, Copy, Default)]
pub struct Late {
    pub logs: u32,
    /// The other members there.
    pub others: u32,
}

impl Late {
    /// Notes a delivery. Returns the logs of those before it.
    fn deliver(&mut self, stay: &Stay) -> u32 {
        let before = self.logs;
        self.logs |= stay.log;
        self.others |= stay.others;
        before
    }
}

impl Sent {
    fn none() -> Sent {
        Sent {
            delivered: 0,
            site: 0,
            sender: NOBODY,
            is_safe: false,
            is_later: false,
        }
    }

    /// Returns the bit of the log that sends it.
    pub fn sender(&self) -> u32 {
        1u32.checked_shl(u32::from(self.sender)).unwrap_or(0)
    }

    /// Returns the quiet logs that end at the site where it was sent, and lack it though another process delivers it. The sender and
    /// those that have to deliver it, since it is safe, are not among them.
    pub fn missing_at(&self, site: &Site) -> u32 {
        if self.is_safe || self.delivered == 0 {
            return 0;
        }
        site.quiet & !self.delivered & !self.sender()
    }

    fn send(&mut self, stay: &Stay, is_later: bool, service: Service) {
        self.is_safe |= service == Service::Safe;
        if self.sender == NOBODY {
            self.sender = u8::try_from(stay.log.trailing_zeros()).unwrap_or(NOBODY);
            self.site = stay.site;
            self.is_later = is_later;
        }
    }

    /// Notes a delivery. Returns whether it is the first one in a group of processes that go on together.
    #[inline(always)]
    fn deliver(&mut self, stay: &Stay, late: Option<&mut Late>) -> bool {
        let before = self.delivered;
        self.delivered |= stay.log;
        let there = match late {
            None => before,
            Some(late) if stay.is_regular => before & !late.logs,
            Some(late) => late.deliver(stay),
        };
        (stay.group != 0) & (there & stay.group == 0)
    }
}

/// The messages of a run.
#[derive(Drop)]
pub struct Traffic {
    pub sent: Vec<Sent>,
    /// As many, or none if the run has no deliveries in transitional configurations.
    pub late: Vec<Late>,
    /// The logs that have a failure.
    pub failed: u32,
    /// The groups of two processes that go on together from one configuration to the next, and the larger ones.
    pub pairs: u32,
    pub larger: u32,
    /// The messages that such groups deliver in the configuration before.
    pub agreed: u32,
    /// How many deliveries are past a message that another process lacks.
    pub past: u32,
    /// How many deliveries are by a process that lacks a message that another delivers before.
    pub lacking: u32,
}

impl Traffic {
    /// Gathers the messages of a run.
    pub fn of(
        alloc: Global,
        run: &Run,
        sites: &mut Sites,
        names: &Messages,
        is_late: bool,
    ) -> Result<Traffic, AllocError> {
        let count = names.len();
        let mut traffic = Traffic {
            sent: vec![in alloc; Sent::none(); count]?,
            late: vec![in alloc; Late::default(); if is_late { count } else { 0 }]?,
            failed: 0,
            pairs: 0,
            larger: 0,
            agreed: 0,
            past: 0,
            lacking: 0,
        };
        let mut bit = 1u32;
        let mut changes = 0;
        for log in run.logs.as_slice() {
            changes = traffic.add_log(bit, log, sites, names, changes);
            bit <<= 1;
        }
        Ok(traffic)
    }

    /// Adds what a log does, and notes how it ends. Returns how many changes this log and those before it have.
    fn add_log(
        &mut self,
        bit: u32,
        log: &Log,
        sites: &mut Sites,
        names: &Messages,
        before: usize,
    ) -> usize {
        let mut stay = Stay::before(bit);
        let mut is_later = false;
        let mut agreed = 0u32;
        let mut changes = before;
        let mut sends = names.finder();
        let mut deliveries = names.finder();
        for entry in log.entries.as_slice() {
            match entry {
                Entry::Conf(_, _) => {
                    stay = sites.stay(changes, &stay);
                    is_later &= !stay.is_regular;
                    self.add_group(&stay);
                    changes = changes.saturating_add(1);
                }
                Entry::Send(message, _, service) => {
                    let index = sends.find(message);
                    if let Some(one) = index.and_then(|index| self.sent.get_mut(index)) {
                        one.send(&stay, is_later, *service);
                    }
                    is_later = true;
                }
                Entry::Deliver(message, _) => {
                    if let Some(index) = deliveries.find(message)
                        && let Some(one) = self.sent.get_mut(index)
                    {
                        let is_first = one.deliver(&stay, self.late.get_mut(index));
                        agreed = agreed.saturating_add(u32::from(is_first));
                    }
                    is_later |= stay.is_regular;
                }
                Entry::Fail(_) => self.failed |= bit,
            }
        }
        self.agreed = self.agreed.saturating_add(agreed);
        sites.end(&stay, log.ending);
        changes
    }

    /// Counts the group of a stay, at its first log.
    fn add_group(&mut self, stay: &Stay) {
        if !stay.is_first() {
            return;
        }
        if stay.group.count_ones() == 2 {
            self.pairs = self.pairs.saturating_add(1);
        } else {
            self.larger = self.larger.saturating_add(1);
        }
    }

    /// Finds the deliveries past a message that another process lacks, once the sites know which logs deliver such a message. `first` is
    /// the first such message in the order of names.
    pub fn find_gaps(
        &mut self,
        alloc: Global,
        run: &Run,
        sites: &Sites,
        names: &Messages,
        first: &MsgId,
    ) -> Result<(), AllocError> {
        let mut past = 0u32;
        for site in &sites.list {
            past |= site.past;
        }
        // For each message, the logs that deliver it and lack one that a log delivers before it; empty if there are none.
        let mut lacking = Vec::new(alloc);
        let mut bit = 1u32;
        for log in run.logs.as_slice() {
            if past & bit != 0 {
                self.find_gaps_of(
                    bit,
                    log.entries.as_slice(),
                    sites,
                    names,
                    first,
                    &mut lacking,
                )?;
            }
            bit <<= 1;
        }
        for logs in &lacking {
            self.lacking = self.lacking.saturating_add(logs.count_ones());
        }
        Ok(())
    }

    fn find_gaps_of(
        &mut self,
        bit: u32,
        entries: &[Entry],
        sites: &Sites,
        names: &Messages,
        first: &MsgId,
        lacking: &mut Vec<u32>,
    ) -> Result<(), AllocError> {
        let mut lacked = 0u32;
        let mut logs = 0u32;
        let mut near = 0;
        let mut finder = names.finder();
        for entry in entries {
            match entry {
                Entry::Conf(conf, _) if is_regular(conf) => {
                    lacked = 0;
                    near = sites.find(conf, near);
                    let site = sites.list.get(near).filter(|site| site.past & bit != 0);
                    logs = site.map_or(0, |site| site.logs);
                }
                Entry::Deliver(message, _) if logs != 0 => {
                    if lacked == 0 && message.is_below(first) {
                        continue;
                    }
                    let Some(index) = finder.find(message) else {
                        continue;
                    };
                    let Some(one) = self.sent.get(index) else {
                        continue;
                    };
                    if lacked != 0 {
                        self.past = self.past.saturating_add(1);
                        add_logs(lacking, self.sent.len(), index, one.delivered & lacked)?;
                    }
                    lacked |= logs & !one.delivered;
                }
                _ => {}
            }
        }
        Ok(())
    }
}

/// Adds these logs to those of an element, in a list that gets this length with the first ones.
fn add_logs(list: &mut Vec<u32>, len: usize, index: usize, logs: u32) -> Result<(), AllocError> {
    if logs == 0 {
        return Ok(());
    }
    if list.is_empty() {
        list.resize(len, 0)?;
    }
    if let Some(all) = list.get_mut(index) {
        *all |= logs;
    }
    Ok(())
}
