//! 2.4: regular and transitional configurations alternate (docs/SPECIFICATIONS.md, "2 Changes of configuration"). This is the search, which
//! names what breaks it. The rule, which is tried first, is totem_judge_run `succession_2_4` and `changes_2_3`.
ghost use Rattle.std.specs.Prelude.{IfSome, IfOk};
ghost use Rattle.std.specs.Bool.{OnFalse};
ghost use Rattle.std.specs.Option.{option_copied};
ghost use Rattle.totem_evs.specs.Answers.{Finds};
ghost use Rattle.totem_table.specs.Changes.{AreChanges};
ghost use Rattle.totem_table.specs.Registers.{KnowsRun};
ghost use Rattle.totem_search.specs.Search.{HoldsOfNone};
ghost use Rattle.totem_search.specs.Turns.{IsOtherOrigin};
ghost use Rattle.totem_pass_ab.specs.Noted.{IsWithin, Widens, KnowsOrigin};

use std::alloc::{AllocError, Global};
use std::collections::BTreeMap;
use totem_evs::{Entry, Run, SpecNo};
use totem_names::{ConfId, Proc, RingId};
use totem_search::{FoundPlaces, QuickTests, find_turns, succession_at};
use totem_table::{ChangeRegister, Changes, enter_changes};

/// What is noted of the logs that come to a configuration from regular ones: the ranks of their processes are at most `rank`, and at
/// most `other` for those that come from another ring than `ring`. Logs are entered in ascending order, so `ring` is that of the last.
#[derive(Clone, Copy)]
pub struct Latest {
    pub rank: u32,
    pub ring: RingId,
    pub other: u32,
}

/// Returns what is noted when this process comes from this ring, too.
fn noted_with(noted: Option<&Latest>, proc: Proc, ring: RingId) -> Latest
    ensures kept { IfSome (option_copied noted.entry) (λ old. Widens old result) }
    ensures entered { IsWithin result proc ring }
{
    let (last, other) = match noted {
        None => (0, 0),
        Some(old) if old.ring == ring => (old.rank, old.other),
        Some(old) => (old.rank, old.rank),
    };
    let rank = proc.rank().max(last);
    Latest { rank, ring, other }
}

/// What is noted of each configuration to which logs come from regular ones.
#[derive(Drop)]
pub struct NotedRings {
    pub latest: BTreeMap<ConfId, Latest>,
}

impl ChangeRegister for NotedRings {
    ghost sound = { λ s run. Unit {0} };

    ghost knows = { λ s. KnowsOrigin ⟦<ConfId as Ord>⟧.cmp s.latest };

    #[tactic(auto, using(crate::proofs::Origins::spares_origin))]
    fn spares(&self) {}

    fn enter_change(
        &mut self,
        _alloc: Global,
        proc: Proc,
        log: &[Entry],
        at: usize,
        _next: usize,
    ) -> Result<(), AllocError> {
        let Some(succession) = succession_at(log, at) else {
            return Ok(());
        };
        if let ConfId::Regular(ring) = succession.conf {
            let latest = noted_with(self.latest.get(succession.next), proc, *ring);
            self.latest.insert(*succession.next, latest)?;
        }
        Ok(())
    }
}

/// What is noted of the origins of a run.
#[derive(Drop)]
struct NotedOrigins<'r> {
    run: &'r Run,
    origins: NotedRings,
    ghost known: { ∥ KnowsRun (KnowsOrigin ⟦<ConfId as Ord>⟧.cmp origins.latest) run.now.logs ∥₁ },
}

impl QuickTests for NotedOrigins<'_> {
    ghost of = { λ s. s.run.now.logs };

    fn run(&self) -> &Run {
        self.run
    }

    fn may_differ(&self, proc: Proc, ring: &RingId, conf: &ConfId) -> bool {
        match self.origins.latest.get(conf) {
            None => false,
            Some(latest) if latest.ring == *ring => proc.rank() < latest.other,
            Some(latest) => proc.rank() < latest.rank,
        }
    }
}

/// Finds the least events that break 2.4.
pub fn find(alloc: Global, run: &Run, changes: &Changes) -> FoundPlaces
    requires { AreChanges run.now.logs changes.now.rows.items }
    ensures { IfOk result (Finds run.now.logs SpecNo.Turns) }
{
    let mut origins = NotedRings {
        latest: BTreeMap::new(alloc),
    };
    enter_changes(&mut origins, alloc, run, changes)?;
    find_turns(&NotedOrigins { run, origins }, alloc)
}
