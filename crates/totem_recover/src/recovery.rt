ghost use Rattle.std.specs.Prelude.{◌≡◌, IfOk};

use crate::beginning::{members_of, obliged_of, reported_obligation, transitional_of};
use crate::finishing::{write_regular, write_rest};
use crate::marks::{is_reached, last_mark};
use crate::sending::{MOST_AT_A_VISIT, copies_of, count_anew, list_to_send};
use std::alloc::{AllocError, Global};
use std::marker::Model;
use totem_evs::{Entry, Members};
use totem_names::{ConfId, ProcId, RingId};
use totem_packets::{Body, CommitToken, Processes};
use totem_ring::{RingOut, RingState};

/// A member on its way from its old ring to a new one. The caller keeps the states of both rings.
#[derive(Debug, Drop)]
pub struct Recovery {
    me: ProcId,
    ring: RingId,
    members: Members,
    /// The members of the new ring that come from this process's old ring.
    transitional: Members,
    /// The greatest number that one of these members reported as delivered to its node on the old ring.
    high: u32,
    /// The processes whose messages this one owes to deliver once all marks are held.
    obliged: Processes,
    /// The processes whose messages it owes to deliver until then.
    obliged_before: Processes,
    holds_all_marks: bool,
    list: Vec<Body>,
    /// How many bodies of the list have been numbered by visits.
    numbered: usize,
    /// The greatest number of this process on the new ring that was noted.
    sent: u32,
}

impl Model for Recovery {
    ghost use Rattle.std.specs.Prelude.{◌≤◌, length, drop, if◌then◌else◌};
    ghost use Rattle.totem_recover.specs.Exchange.{Leaving};

    ghost Value = { Leaving };

    ghost view = { λ r. record {
      me = r.me;
      ring = r.ring;
      members = r.members;
      transitional = r.transitional;
      high = r.high;
      obliged = r.obliged;
      list = drop r.numbered r.list.items;
      sent = r.sent;
      obligation = if r.holds_all_marks then r.obliged else r.obliged_before;
    } };

    ghost invariant = { λ r. r.numbered ≤ length r.list.items };
}

impl Recovery {
    ghost use Rattle.totem_recover.specs.Exchange.{IsReady, new_recovery, next_bodies, on_ring, obligation_after, last_mark, is_done};
    ghost use Rattle.totem_recover.specs.Finish.{finish};

    /// Begins the recovery for this commit token, from the ring of `prev` to the ring of the token.
    /// `is_ready` tests whether it may begin.
    pub fn new(
        alloc: Global,
        me: ProcId,
        prev: &RingState,
        token: &CommitToken,
    ) -> Result<Recovery, AllocError>
        requires { IsReady me prev.now token.now }
        ensures { IfOk result (λ r. r ≡ new_recovery me prev.now token.now) }
    {
        let old = prev.ring();
        let low = token.members.least_aru(&old);
        Ok(Recovery {
            me,
            ring: token.ring,
            members: members_of(alloc, &token.members)?,
            transitional: transitional_of(alloc, &old, &token.members, me)?,
            high: token.members.greatest_delivered(&old),
            obliged: obliged_of(&old, &token.members),
            obliged_before: reported_obligation(&token.members, me),
            holds_all_marks: false,
            list: list_to_send(alloc, low, prev.held())?,
            numbered: 0,
            sent: 0,
        })
    }

    /// Returns the next bodies of the list, at most 16, which are to wait on the new ring for its next visit.
    pub fn coming_bodies(&self) -> &[Body]
        ensures { result.now ≡ next_bodies self.now }
    {
        let left = &self.list[self.numbered..];
        if left.len() <= MOST_AT_A_VISIT {
            return left;
        }
        &left[..MOST_AT_A_VISIT]
    }

    /// Returns copies of the next bodies of the list (`coming_bodies`).
    pub fn next_bodies(&self, alloc: Global) -> Result<Vec<Body>, AllocError>
        ensures { IfOk result (λ bodies. bodies.items ≡ next_bodies self.now) }
    {
        copies_of(alloc, self.coming_bodies())
    }

    /// Notes a visit of the new ring's token: the bodies that it numbered, and the obligation set after it.
    /// Returns whether the recovery is done. Takes no memory.
    pub fn on_ring(&mut self, ring: &RingState, out: &RingOut) -> bool
        ensures after { self.new ≡ on_ring self.old ring.now out.now.packets.items }
        ensures done { result ≡ is_done self.new ring.now }
    {
        let (count, sent) = count_anew(self.me, self.sent, &out.packets);
        let left = self.list.len() - self.numbered;
        self.numbered += count.min(MOST_AT_A_VISIT).min(left);
        self.sent = sent;
        let last = self.last_mark(ring);
        self.holds_all_marks = self.holds_all_marks || is_reached(last, ring.my_aru());
        is_reached(last, ring.handed())
    }

    /// Returns the obligation set: the processes whose messages this one owes to deliver.
    pub fn obligation(&self) -> &Processes
        ensures { result.now ≡ self.now.obligation }
    {
        if self.holds_all_marks {
            &self.obliged
        } else {
            &self.obliged_before
        }
    }

    /// Returns the obligation set after a visit that left the new ring in this state.
    pub fn obligation_after(&self, ring: &RingState) -> &Processes
        ensures { result.now ≡ obligation_after self.now ring.now }
    {
        if self.holds_all_marks || is_reached(self.last_mark(ring), ring.my_aru()) {
            &self.obliged
        } else {
            &self.obliged_before
        }
    }

    /// Returns the number of the last of the members' marks on the new ring, or `None` unless every member's mark is held.
    pub fn last_mark(&self, ring: &RingState) -> Option<u32>
        ensures { result ≡ last_mark self.now ring.now }
    {
        last_mark(self.members.as_slice(), ring.held())
    }

    /// Returns whether every member's mark was delivered to the node, so that the old ring can be left.
    pub fn is_done(&self, ring: &RingState) -> bool
        ensures { result ≡ is_done self.now ring.now }
    {
        is_reached(self.last_mark(ring), ring.handed())
    }

    /// Returns the entries that the member writes when it leaves the old ring (docs/PROTOCOL.md, "The finish").
    pub fn finish(&self, alloc: Global, prev: &RingState) -> Result<Vec<Entry>, AllocError>
        ensures { IfOk result (λ entries. entries.items ≡ finish self.now prev.now) }
    {
        let between = ConfId::Transitional {
            next: self.ring,
            least: self.transitional.as_slice()[0].id(),
        };
        let mut entries = Vec::new(alloc);
        let old = ConfId::Regular(prev.ring());
        let last = write_regular(&mut entries, &old, prev.held(), prev.handed(), self.high)?;
        entries.push(Entry::Conf(between, self.transitional.try_clone()?))?;
        write_rest(&mut entries, &between, prev.held(), last, &self.obliged)?;
        let new = ConfId::Regular(self.ring);
        entries.push(Entry::Conf(new, self.members.try_clone()?))?;
        Ok(entries)
    }

    pub fn try_clone(&self, alloc: Global) -> Result<Recovery, AllocError>
        ensures { IfOk result (λ r. r ≡ self.now) }
    {
        Ok(Recovery {
            me: self.me,
            ring: self.ring,
            members: self.members.try_clone()?,
            transitional: self.transitional.try_clone()?,
            high: self.high,
            obliged: self.obliged,
            obliged_before: self.obliged_before,
            holds_all_marks: self.holds_all_marks,
            list: copies_of(alloc, &self.list[self.numbered..])?,
            numbered: 0,
            sent: self.sent,
        })
    }
}
