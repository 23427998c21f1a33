//! What the reports of a commit token say about an old ring (docs/PROTOCOL.md, "Recovery").
ghost use Rattle.std.specs.Prelude.{◌≡◌, map, IfOk};
ghost use Rattle.totem_names.specs.Ranks.{id_of};
ghost use Rattle.totem_packets.specs.Lives.{member_ranks, transitional_ranks};
ghost use Rattle.totem_packets.specs.Sets.{has, same_processes, Makes};
ghost use Rattle.totem_packets.specs.OldRings.{processes_of, is_filled, reports_ring, transitional_set, least_aru, greatest_delivered, obligation_union};

use crate::commit_member::CommitMember;
use crate::commit_members::CommitMembers;
use crate::processes::Processes;
use crate::short_list::ShortList;
use crate::too_many::TooMany;
use std::alloc::{AllocError, Global};
use totem_names::{Proc, ProcId, RingId};

impl CommitMember {
    /// Returns whether this member has reported `old` as the ring that it comes from.
    pub fn reports_ring(&self, old: &RingId) -> bool
        ensures { result ≡ reports_ring old.now self.now.report }
    {
        match &self.report {
            None => false,
            Some(report) => report.ring.seq == old.seq && report.ring.rep == old.rep,
        }
    }
}

impl CommitMembers {
    /// Returns the members' processes.
    #[tactic(auto, using(crate::proofs::OldRingFacts::all_are, std::proofs::lemmas::List::take_all))]
    pub fn processes(&self) -> Processes
        ensures { result ≡ processes_of self.now }
    {
        let mut list = ShortList::new();
        for member in self.as_slice() {
            list.push(member.proc);
        }
        Processes::of(list)
    }

    /// Returns the members, each in the life that it reports from. A member that has not reported counts as being in its first life.
    #[tactic(auto, using(crate::proofs::RankFacts::ids_of_members, std::proofs::lemmas::List::take_all))]
    pub fn lives(&self, alloc: Global) -> Result<Vec<Proc>, AllocError>
        ensures value { IfOk result (λ p. p.items ≡ member_ranks self.now) }
        ensures ids { IfOk result (λ p. map id_of p.items ≡ processes_of self.now) }
    {
        let mut list = Vec::new(alloc);
        for member in self.as_slice() {
            list.push(member.process())?;
        }
        Ok(list)
    }

    /// Returns whether the members are exactly these processes.
    pub fn are(&self, processes: &Processes) -> bool
        ensures { result ≡ same_processes (processes_of self.now) processes.now }
    {
        let members = self.as_slice();
        let list = processes.as_slice();
        if members.len() != list.len() {
            return false;
        }
        for (at, proc) in list.iter().enumerate() {
            if members[at].proc != *proc {
                return false;
            }
        }
        true
    }

    /// Returns whether every member has reported.
    pub fn is_filled(&self) -> bool
        ensures { result ≡ is_filled self.now }
    {
        self.as_slice().iter().all(|member| member.report.is_some())
    }

    /// Returns whether the process is a member and has reported `old` as the ring that it comes from.
    pub fn is_from(&self, old: &RingId, proc: ProcId) -> bool
        ensures { result ≡ has (transitional_set old.now self.now) proc }
    {
        for member in self.as_slice() {
            if member.reports_ring(old) && member.proc == proc {
                return true;
            }
        }
        false
    }

    /// Returns the transitional set: the members that come from the ring `old`.
    #[tactic(auto, using(crate::proofs::OldRingFacts::members_are, std::proofs::lemmas::List::take_all))]
    pub fn transitional_set(&self, old: &RingId) -> Processes
        ensures { result ≡ transitional_set old.now self.now }
    {
        let mut list = ShortList::new();
        for member in self.as_slice() {
            if member.reports_ring(old) {
                list.push(member.proc);
            }
        }
        Processes::of(list)
    }

    /// Returns the transitional set, each member in the life that it reports from.
    #[tactic(auto, using(crate::proofs::RankFacts::ids_of_transitional, std::proofs::lemmas::List::take_all))]
    pub fn transitional_lives(&self, alloc: Global, old: &RingId) -> Result<Vec<Proc>, AllocError>
        ensures value { IfOk result (λ p. p.items ≡ transitional_ranks old.now self.now) }
        ensures ids { IfOk result (λ p. map id_of p.items ≡ transitional_set old.now self.now) }
    {
        let mut list = Vec::new(alloc);
        for member in self.as_slice() {
            if member.reports_ring(old) {
                list.push(member.process())?;
            }
        }
        Ok(list)
    }

    /// Returns the least aru that the members from the ring `old` reported, or 0 if none comes from it.
    pub fn least_aru(&self, old: &RingId) -> u32
        ensures { result ≡ least_aru old.now self.now }
    {
        let mut least = None;
        for member in self.as_slice() {
            if let Some(report) = &member.report {
                if member.reports_ring(old) {
                    least = Some(match least {
                        None => report.aru,
                        Some(other) => report.aru.min(other),
                    });
                }
            }
        }
        least.unwrap_or(0)
    }

    /// Returns the greatest number that the members from the ring `old` reported as delivered to their nodes, or 0 if none comes from it.
    pub fn greatest_delivered(&self, old: &RingId) -> u32
        ensures { result ≡ greatest_delivered old.now self.now }
    {
        let mut greatest = 0u32;
        for member in self.as_slice() {
            if let Some(report) = &member.report {
                if member.reports_ring(old) {
                    greatest = greatest.max(report.delivered);
                }
            }
        }
        greatest
    }

    /// Returns the obligation union: the transitional set of the ring `old` and all obligation sets that its members
    /// reported, unless that would be more than 32 processes.
    #[tactic(auto, using(crate::proofs::Longer::obligations))]
    pub fn obligation_union(&self, old: &RingId) -> Result<Processes, TooMany>
        ensures { Makes result (obligation_union old.now self.now) }
    {
        let mut all = self.transitional_set(old);
        let _rule = all.as_slice();
        for member in self.as_slice() {
            if let Some(report) = &member.report {
                if member.reports_ring(old) {
                    all = all.union(&report.obligation)?;
                }
            }
        }
        Ok(all)
    }
}
