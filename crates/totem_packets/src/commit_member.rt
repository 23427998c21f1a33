ghost use Rattle.std.specs.Prelude.{◌≡◌, ◌↔◌, IsTrue};
ghost use Rattle.totem_packets.specs.CommitMembers.{IsReport, IsCommitMember};
ghost use Rattle.totem_packets.specs.Lives.{reported_life, member_rank};

use crate::life::Life;
use crate::processes::Processes;
use totem_names::{Proc, ProcId, RingId, ring_fits};

/// What a member reports of the ring that it comes from (docs/PROTOCOL.md, "The commit token").
#[derive(Clone, Copy, Debug)]
pub struct Report {
    /// The life in which the member reports.
    pub life: Life,
    pub ring: RingId,
    /// The member holds all messages up to this number; 0 means none.
    pub aru: u32,
    /// The member has delivered all messages up to this number to its node; 0 means none.
    pub delivered: u32,
    pub obligation: Processes,
}

/// A member of the ring that a commit token forms, with its report once that is filled in.
#[derive(Clone, Copy, Debug)]
pub struct CommitMember {
    pub proc: ProcId,
    pub report: Option<Report>,
}

impl Report {
    /// Proves that each value of a report is in its range, as the types of its parts ensure.
    pub fn keeps_its_rule(&self)
        ensures { IsReport self.now }
    {
        let _life = self.life.get();
        ring_fits(&self.ring);
        let _aru = self.aru;
        let _delivered = self.delivered;
        let _ = self.obligation.as_slice();
    }

    /// Returns whether the two are the same report: `==` in a form that contracts can use.
    pub fn is(&self, other: &Report) -> bool
        ensures { IsTrue result ↔ (self.now ≡ other.now) }
    {
        self.life == other.life
            && self.ring == other.ring
            && self.aru == other.aru
            && self.delivered == other.delivered
            && self.obligation.is(&other.obligation)
    }
}

impl CommitMember {
    /// Proves that each value of a member is in its range, as the types of its parts ensure.
    pub fn keeps_its_rule(&self)
        ensures { IsCommitMember self.now }
    {
        let _proc = self.proc.number();
        if let Some(report) = &self.report {
            report.keeps_its_rule();
        }
    }

    /// Returns the life that the member reports from, or the first if it has not reported.
    pub fn life(&self) -> Life
        ensures { result ≡ reported_life self.now.report }
    {
        match &self.report {
            None => Life::first(),
            Some(report) => report.life,
        }
    }

    /// Returns the member as a process of a run: its identifier in the life that it reports from.
    pub fn process(&self) -> Proc
        ensures { result ≡ member_rank self.now }
    {
        Proc::of(self.proc, self.life().get())
    }

    /// Returns whether the two are the same member: `==` in a form that contracts can use.
    pub fn is(&self, other: &CommitMember) -> bool
        ensures { IsTrue result ↔ (self.now ≡ other.now) }
    {
        self.proc == other.proc
            && match (&self.report, &other.report) {
                (Some(report), Some(same)) => report.is(same),
                (None, None) => true,
                _ => false,
            }
    }
}
