//! What a run put to the test (docs/SPECIFICATIONS.md, "Counts"): its shape, how often the premise of each specification was met, and how
//! often an excuse kept that from being a fault.
ghost use Rattle.std.specs.Prelude.{IfOk};
ghost use Rattle.totem_explain.specs.Sizes.{IsSizeOf, all_entries};

use crate::lookup::last_change;
use crate::sites::{Site, Sites, is_regular, logs_of};
use crate::size::Size;
use crate::survey::Survey;
use crate::traffic::{Late, Sent, Traffic};
use std::alloc::{AllocError, Global};
use totem_evs::{Ending, Log, Run};

/// How often something happened in a run.
#[derive(Clone, Copy, Default)]
pub struct Counts {
    pub size: Size,
    pub regular: u32,
    pub shared: u32,
    pub partitions: u32,
    pub merges: u32,
    /// Lives of which an earlier life of the same process has a log.
    pub returned: u32,
    pub safe_delivered: u32,
    /// 1.1: deliveries of what another process sent.
    pub received: u32,
    /// 2.1: quiet logs, and members that may still come where one ends.
    pub quiet: u32,
    pub awaited: u32,
    /// 2.3: configurations of both kinds that two or more logs change to.
    pub twins: u32,
    /// 2.4: neighbouring changes.
    pub moves: u32,
    /// 3: sends that their sender delivers, and those that are excused.
    pub own: u32,
    pub own_failed: u32,
    pub own_open: u32,
    /// 4: messages in which groups had to agree, and the groups by their size.
    pub agreed: u32,
    pub pairs: u32,
    pub larger: u32,
    /// 5: deliveries of messages that have a cause, and these messages.
    pub effects: u32,
    pub effects_sent: u32,
    /// 6.1: messages that two or more processes deliver.
    pub common: u32,
    /// 6.3: deliveries past a message that another process lacks, and those by a process that lacks one.
    pub past: u32,
    pub past_no_member: u32,
    /// 7.1: members that had to deliver a safe message, and those that are excused.
    pub obliged: u32,
    pub obliged_failed: u32,
    pub obliged_open: u32,
    /// 7.2: deliveries of safe messages in regular configurations.
    pub installed: u32,
    /// Quiet logs that lack no agreed message of where they end, and the deliveries that the others lack.
    pub complete: u32,
    pub missing: u32,
}

impl Counts {
    /// Counts what a run put to the test.
    pub fn of(alloc: Global, run: &Run) -> Result<Counts, AllocError>
        ensures { IfOk result (λ counts. IsSizeOf (all_entries run.now.logs) counts.size) }
    {
        let Survey {
            size,
            mut sites,
            messages,
        } = Survey::of(alloc, run)?;
        let is_late = size.transitional_deliveries > 0;
        let mut traffic = Traffic::of(alloc, run, &mut sites, &messages, is_late)?;
        let mut counts = Counts::default();
        let mut lacked = None;
        let mut incomplete = 0u32;
        for (index, one) in traffic.sent.iter().enumerate() {
            counts.add_message(one);
            if let Some(site) = sites.list.get_mut(one.site as usize) {
                let late = traffic.late.get(index);
                counts.add_at(one, late.copied().unwrap_or_default(), site);
                let missing = one.missing_at(site);
                incomplete |= missing;
                counts.missing = counts.missing.saturating_add(missing.count_ones());
                if site.add_past(one.delivered) {
                    lacked = lacked.or(Some(index));
                }
            }
        }
        if let Some(first) = lacked.and_then(|index| messages.message(index)) {
            traffic.find_gaps(alloc, run, &sites, &messages, &first)?;
        }
        counts.add_sites(&sites);
        counts.add_logs(run, &sites, &traffic);
        Ok(Counts {
            size,
            moves: sites.moves(),
            agreed: traffic.agreed,
            pairs: traffic.pairs,
            larger: traffic.larger,
            past: traffic.past,
            past_no_member: traffic.lacking,
            complete: counts.quiet.saturating_sub(incomplete.count_ones()),
            ..counts
        })
    }

    fn add_sites(&mut self, sites: &Sites) {
        for site in &sites.list {
            let is_shared = u32::from(site.logs.count_ones() >= 2);
            self.twins = self.twins.saturating_add(is_shared);
            if is_regular(&site.conf) {
                self.regular = self.regular.saturating_add(1);
                self.shared = self.shared.saturating_add(is_shared);
                self.partitions = self
                    .partitions
                    .saturating_add(u32::from(site.is_partition()));
                self.merges = self.merges.saturating_add(u32::from(site.is_merge()));
            }
        }
    }

    fn add_logs(&mut self, run: &Run, sites: &Sites, traffic: &Traffic) {
        let mut last = None;
        for log in run.logs.as_slice() {
            let number = log.proc.id().number();
            let is_returned = last == Some(number);
            last = Some(number);
            self.returned = self.returned.saturating_add(u32::from(is_returned));
            if log.ending == Ending::Quiet {
                let awaited = missing_at(run, log, sites) & !traffic.failed;
                self.quiet = self.quiet.saturating_add(1);
                self.awaited = self.awaited.saturating_add(awaited.count_ones());
            }
        }
    }

    fn add_message(&mut self, one: &Sent) {
        let count = one.delivered.count_ones();
        let own = u32::from(one.delivered & one.sender() != 0);
        self.received = self.received.saturating_add(count.saturating_sub(own));
        self.own = self.own.saturating_add(own);
        self.common = self.common.saturating_add(u32::from(count >= 2));
        if one.is_safe {
            self.safe_delivered = self.safe_delivered.saturating_add(u32::from(count > 0));
        }
        if one.is_later {
            self.effects = self.effects.saturating_add(count);
            self.effects_sent = self.effects_sent.saturating_add(1);
        }
    }

    /// Adds who had to deliver a message, if it is safe, that was sent at this site, and the processes that need not deliver it, since they
    /// ended where they could have done so.
    fn add_at(&mut self, one: &Sent, late: Late, site: &Site) {
        let own = one.sender() & !one.delivered;
        let mut lacking = 0;
        if one.is_safe {
            let regular = one.delivered & !late.logs;
            let obliged = late.others | site.members_but(regular);
            self.installed = self.installed.saturating_add(regular.count_ones());
            self.obliged = self.obliged.saturating_add(obliged.count_ones());
            lacking = obliged & !one.delivered;
        }
        if own | lacking == 0 {
            return;
        }
        let own_failed = (own & site.failed).count_ones();
        let own_open = (own & site.open).count_ones();
        let failed = (lacking & site.failed).count_ones();
        let open = (lacking & site.open).count_ones();
        self.own_failed = self.own_failed.saturating_add(own_failed);
        self.own_open = self.own_open.saturating_add(own_open);
        self.obliged_failed = self.obliged_failed.saturating_add(failed);
        self.obliged_open = self.obliged_open.saturating_add(open);
    }
}

/// Returns the members that have not come to the configuration in which a log ends, and are not quiet.
fn missing_at(run: &Run, log: &Log, sites: &Sites) -> u32 {
    let Some((conf, members)) = last_change(log) else {
        return 0;
    };
    let mut missing = logs_of(run, members) & !sites.logs_at(&conf);
    let mut bit = 1u32;
    for log in run.logs.as_slice() {
        if log.ending == Ending::Quiet {
            missing &= !bit;
        }
        bit <<= 1;
    }
    missing
}
