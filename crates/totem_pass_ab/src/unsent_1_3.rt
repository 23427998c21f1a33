//! 1.3: a message that is delivered was sent for its configuration (docs/SPECIFICATIONS.md, "1 Basic delivery"). This is the search, which
//! names what breaks it. The rule, which is tried first, is totem_judge `replay` and `sends`.
ghost use Rattle.std.specs.Prelude.{Contains, IfOk};
ghost use Rattle.std.specs.Bool.{OnTrue};
ghost use Rattle.totem_evs.specs.Events.{log_of};
ghost use Rattle.totem_evs.specs.Answers.{Finds};
ghost use Rattle.totem_table.specs.Changes.{AreChanges};
ghost use Rattle.totem_judge_run.specs.Sent.{WasSentTo};
ghost use Rattle.totem_search.specs.Unsent.{IsUnsentDelivery};
ghost use Rattle.totem_pass_ab.specs.Noted.{sending, WereSent, KnowsRegularChange, AreFollowed};

use std::alloc::{AllocError, Global};
use std::collections::{BTreeMap, BTreeSet};
use totem_evs::{Entry, Run, SpecNo};
use totem_names::{ConfId, MsgId, Proc, RingId};
use totem_search::{FoundPlaces, QuickTests, find_unsent, is_transitional, succession_at};
use totem_table::{Change, ChangeRegister, Changes, Register, enter_changes, enter_run};

/// A message, and the ring in whose regular configuration it is sent.
#[derive(Clone, Copy, PartialEq, Eq, PartialOrd, Ord)]
pub struct Sending {
    pub message: MsgId,
    pub ring: RingId,
}

/// The sends in regular configurations: each message, with the ring of the configuration.
#[derive(Drop)]
pub struct Sent {
    pub sends: Vec<Sending>,
}

impl Register for Sent {
    ghost sound = { λ s. WereSent s.sends.items };

    ghost knows = { λ s p log i. Unit {0} };

    fn enter(
        &mut self,
        _alloc: Global,
        _proc: Proc,
        log: &[Entry],
        at: usize,
    ) -> Result<(), AllocError> {
        let Entry::Send(message, conf, _) = &log[at] else {
            return Ok(());
        };
        let ConfId::Regular(ring) = conf else {
            return Ok(());
        };
        let (message, ring) = (*message, *ring);
        self.sends.push(Sending { message, ring })?;
        Ok(())
    }
}

/// The changes of each process to regular configurations, and for each process and transitional configuration the ring
/// of the regular one that it follows there.
#[derive(Drop)]
pub struct Followed {
    pub changes: BTreeSet<Change>,
    pub rings: BTreeMap<Change, RingId>,
}

impl ChangeRegister for Followed {
    ghost sound = { λ s. AreFollowed ⟦<Change as Ord>⟧.cmp s.rings };

    ghost knows = { λ s. KnowsRegularChange ⟦<Change as Ord>⟧.cmp s.changes };

    #[tactic(auto, using(crate::proofs::Sent::spares_regular_change))]
    fn spares(&self) {}

    fn enter_change(
        &mut self,
        _alloc: Global,
        proc: Proc,
        log: &[Entry],
        at: usize,
        _next: usize,
    ) -> Result<(), AllocError> {
        let Entry::Conf(conf, _) = &log[at] else {
            return Ok(());
        };
        let ConfId::Regular(ring) = conf else {
            return Ok(());
        };
        let conf = ConfId::Regular(*ring);
        if !self.changes.insert(Change { proc, conf })? {
            return Ok(());
        }
        let Some(succession) = succession_at(log, at) else {
            return Ok(());
        };
        if is_transitional(succession.next) {
            let conf = *succession.next;
            self.rings.insert(Change { proc, conf }, *ring)?;
        }
        Ok(())
    }
}

/// Returns whether one of these, which are in ascending order, is the send of this message on this ring. Looks first where it is if all
/// messages up to it are sent on one ring.
fn has(sends: &[Sending], message: MsgId, ring: RingId) -> bool
    ensures { OnTrue result (Contains sends.now (sending message ring)) }
{
    let send = Sending { message, ring };
    let index = (message.number as usize).saturating_sub(1);
    matches!(sends.get(index), Some(other) if *other == send) || sends.binary_search(&send).is_ok()
}

/// What is noted of the sends of a run, and of what follows regular configurations.
#[derive(Drop)]
struct NotedSends<'r> {
    run: &'r Run,
    /// In ascending order.
    sends: Vec<Sending>,
    followed: Followed,
    ghost sent: { ∥ WereSent sends.items run.now.logs ∥₁ },
    ghost follow: { ∥ AreFollowed ⟦<Change as Ord>⟧.cmp followed.rings run.now.logs ∥₁ },
}

impl NotedSends<'_> {
    /// Returns `true` only if what this process delivers in `conf` was sent for it.
    fn has_send(&self, proc: Proc, message: MsgId, conf: &ConfId) -> bool
        ensures { OnTrue result (WasSentTo self.now.run.now.logs (log_of self.now.run.now.logs proc) message conf.now) }
    {
        let sends = self.sends.as_slice();
        match conf {
            ConfId::Regular(ring) => has(sends, message, *ring),
            ConfId::Transitional { .. } => match self
                .followed
                .rings
                .get(&Change { proc, conf: *conf })
            {
                Some(ring) => has(sends, message, *ring),
                None => false,
            },
        }
    }
}

impl QuickTests for NotedSends<'_> {
    ghost of = { λ s. s.run.now.logs };

    fn run(&self) -> &Run {
        self.run
    }

    fn is_sent(&self, proc: Proc, entry: &Entry) -> bool {
        match entry {
            Entry::Deliver(message, conf) => self.has_send(proc, *message, conf),
            _ => true,
        }
    }
}

/// Finds the least events that break 1.3.
pub fn find(alloc: Global, run: &Run, changes: &Changes) -> FoundPlaces
    requires { AreChanges run.now.logs changes.now.rows.items }
    ensures { IfOk result (Finds run.now.logs SpecNo.Unsent) }
{
    let mut sent = Sent {
        sends: Vec::new(alloc),
    };
    enter_run(&mut sent, alloc, run)?;
    let mut sends = sent.sends;
    sends.sort()?;
    let mut followed = Followed {
        changes: BTreeSet::new(alloc),
        rings: BTreeMap::new(alloc),
    };
    enter_changes(&mut followed, alloc, run, changes)?;
    find_unsent(
        &NotedSends {
            run,
            sends,
            followed,
        },
        alloc,
    )
}
