//! 1.4: each message is sent and delivered once (docs/SPECIFICATIONS.md, "1 Basic delivery"). This is the search, which names what breaks
//! it. The rule, which is tried first, is totem_judge_run `once_1_4`.
ghost use Rattle.std.specs.Prelude.{◌≡◌, ◌↔◌, ℕ, ◌<◌, List, Contains, IsTrue, IfOk};
ghost use Rattle.std.specs.Bool.{OnTrue};
ghost use Rattle.totem_evs.specs.Answers.{Finds};
ghost use Rattle.totem_search.specs.Bad.{AreTwice};
ghost use Rattle.totem_table.specs.Registers.{KnowsRun};
ghost use Rattle.totem_pass_ab.specs.Noted.{DeliverOnceBut, AreOnceBut, KnowsAct};

use crate::met::{Met, Same};
use std::alloc::{AllocError, Global};
use totem_evs::{Entry, Run, SpecNo};
use totem_judge_run::{deliveries_are_once, sends_are_once};
use totem_names::{MsgId, Place, Proc};
use totem_search::{FoundPlaces, QuickTests, Standing, find_twice};
use totem_table::{Register, enter_run};

/// A message, and a process that delivers it.
#[derive(Clone, Copy, PartialEq, Eq, PartialOrd, Ord)]
pub struct Delivery {
    pub proc: Proc,
    pub message: MsgId,
}

impl Same for Place {
    fn is_same(&self, other: &Place) -> bool {
        *self == *other
    }
}

/// The place of each message's send, and of each process's delivery of it. If there are several, only that
/// fact is kept.
#[derive(Drop)]
pub struct Repeats {
    pub sends: Met<MsgId, Place>,
    /// Whether a message may be sent twice. Otherwise the sends are left out.
    pub may_repeat_sends: bool,
    pub deliveries: Met<Delivery, Place>,
    /// The processes that may deliver a message twice. The deliveries of the others are left out.
    pub doubtful: Vec<Proc>,
}

impl Repeats {
    pub fn is_doubtful(&self, proc: Proc) -> bool
        ensures { IsTrue result ↔ Contains self.now.doubtful.items proc }
    {
        self.doubtful.contains(&proc)
    }
}

impl Register for Repeats {
    ghost sound = { λ s. AreOnceBut s.may_repeat_sends s.doubtful.items };

    ghost knows = { λ s. KnowsAct ⟦<MsgId as Ord>⟧.cmp ⟦<Delivery as Ord>⟧.cmp s.sends.values s.may_repeat_sends s.deliveries.values s.doubtful.items };

    fn enter(
        &mut self,
        _alloc: Global,
        proc: Proc,
        log: &[Entry],
        at: usize,
    ) -> Result<(), AllocError> {
        let place = Place {
            proc,
            at: (at + 1) as u32,
        };
        match &log[at] {
            Entry::Send(message, _, _) => {
                if !self.may_repeat_sends {
                    return Ok(());
                }
                self.sends.meet(*message, place)
            }
            Entry::Deliver(message, _) => {
                if !self.is_doubtful(proc) {
                    return Ok(());
                }
                let message = *message;
                self.deliveries.meet(Delivery { proc, message }, place)
            }
            _ => Ok(()),
        }
    }
}

/// What is noted of the sends and deliveries of a run.
#[derive(Drop)]
struct NotedRepeats<'r> {
    run: &'r Run,
    repeats: Repeats,
    ghost known: { ∥ KnowsRun (KnowsAct ⟦<MsgId as Ord>⟧.cmp ⟦<Delivery as Ord>⟧.cmp repeats.sends.values repeats.may_repeat_sends repeats.deliveries.values repeats.doubtful.items) run.now.logs ∥₁ },
    ghost once: { ∥ AreOnceBut repeats.may_repeat_sends repeats.doubtful.items run.now.logs ∥₁ },
}

impl QuickTests for NotedRepeats<'_> {
    ghost of = { λ t. t.run.now.logs };

    fn run(&self) -> &Run {
        self.run
    }

    fn may_be_twice(&self, first: &Standing) -> bool {
        let proc = first.proc;
        let place = Place {
            proc,
            at: (first.at + 1) as u32,
        };
        match first.entry {
            Entry::Send(message, _, _) => {
                self.repeats.may_repeat_sends && !self.repeats.sends.is_only(message, &place)
            }
            Entry::Deliver(message, _) => {
                let message = *message;
                let delivery = Delivery { proc, message };
                self.repeats.is_doubtful(proc)
                    && !self.repeats.deliveries.is_only(&delivery, &place)
            }
            _ => false,
        }
    }
}

/// Returns the processes that may deliver a message twice: the others don't.
fn doubtful(alloc: Global, run: &Run) -> Result<Vec<Proc>, AllocError>
    ensures { IfOk result (λ list. DeliverOnceBut list.items run.now.logs) }
{
    let logs = run.logs.as_slice();
    let mut list = Vec::new(alloc);
    for k in 0..logs.len() {
        let log = &logs[k];
        if !deliveries_are_once(alloc, &logs[k..k + 1])? {
            list.push(log.proc)?;
        }
    }
    Ok(list)
}

/// Finds the least events that break 1.4.
pub fn find(alloc: Global, run: &Run) -> FoundPlaces
    ensures { IfOk result (Finds run.now.logs SpecNo.Twice) }
{
    let doubtful = doubtful(alloc, run)?;
    let may_repeat_sends = !sends_are_once(alloc, run.logs.as_slice())?;
    if doubtful.is_empty() && !may_repeat_sends {
        return Ok(None);
    }
    let mut repeats = Repeats {
        sends: Met::new(alloc),
        may_repeat_sends,
        deliveries: Met::new(alloc),
        doubtful,
    };
    enter_run(&mut repeats, alloc, run)?;
    find_twice(&NotedRepeats { run, repeats }, alloc)
}
