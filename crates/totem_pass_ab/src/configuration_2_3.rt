//! 2.3: each configuration has one form (docs/SPECIFICATIONS.md, "2 Changes of configuration"). This is the search, which names what breaks
//! it. The rule, which is tried first, is totem_judge_run `changes_2_3`.
ghost use Rattle.std.specs.Prelude.{◌≡◌, ◌↔◌, ℕ, ◌<◌, List, IsTrue, IfOk, MatchOption};
ghost use Rattle.totem_evs.specs.Answers.{Finds};
ghost use Rattle.totem_table.specs.Changes.{AreChanges};
ghost use Rattle.totem_search.specs.Bad.{AreTwoForms};
ghost use Rattle.totem_table.specs.Registers.{KnowsRun};
ghost use Rattle.totem_pass_ab.specs.Noted.{KnowsChange};

use crate::met::{Met, Same};
use std::alloc::{AllocError, Global};
use totem_evs::{Entry, Members, Run, SpecNo};
use totem_names::{ConfId, Place, Proc};
use totem_search::{FoundPlaces, QuickTests, Standing, find_two_forms};
use totem_table::{Change, ChangeRegister, Changes, enter_changes};

impl Same for Members {
    fn is_same(&self, other: &Members) -> bool {
        self.is(other)
    }
}

/// The place of each process's change to each configuration, and the members of each configuration. If there are
/// several, only that fact is kept.
#[derive(Drop)]
pub struct Forms {
    pub changes: Met<Change, Place>,
    pub members: Met<ConfId, Members>,
}

impl ChangeRegister for Forms {
    ghost sound = { λ s run. Unit {0} };

    ghost knows = { λ s. KnowsChange ⟦<Change as Ord>⟧.cmp ⟦<ConfId as Ord>⟧.cmp s.changes.values s.members.values };

    #[tactic(auto, using(crate::proofs::Forming::spares_change))]
    fn spares(&self) {}

    fn enter_change(
        &mut self,
        alloc: Global,
        proc: Proc,
        log: &[Entry],
        at: usize,
        _next: usize,
    ) -> Result<(), AllocError> {
        let place = Place {
            proc,
            at: (at + 1) as u32,
        };
        let Entry::Conf(conf, members) = &log[at] else {
            return Ok(());
        };
        let conf = *conf;
        self.changes.meet(Change { proc, conf }, place)?;
        self.members.meet(conf, members.try_clone()?)?;
        Ok(())
    }
}

/// What is noted of the changes of a run.
#[derive(Drop)]
struct NotedForms<'r> {
    run: &'r Run,
    forms: Forms,
    ghost known: { ∥ KnowsRun (KnowsChange ⟦<Change as Ord>⟧.cmp ⟦<ConfId as Ord>⟧.cmp forms.changes.values forms.members.values) run.now.logs ∥₁ },
}

impl QuickTests for NotedForms<'_> {
    ghost of = { λ t. t.run.now.logs };

    fn run(&self) -> &Run {
        self.run
    }

    fn may_have_two_forms(&self, first: &Standing) -> bool {
        let Entry::Conf(conf, members) = first.entry else {
            return false;
        };
        let proc = first.proc;
        let place = Place {
            proc,
            at: (first.at + 1) as u32,
        };
        let change = Change { proc, conf: *conf };
        !self.forms.changes.is_only(&change, &place) || !self.forms.members.is_only(conf, members)
    }
}

/// Finds the least events that break 2.3.
pub fn find(alloc: Global, run: &Run, changes: &Changes) -> FoundPlaces
    requires { AreChanges run.now.logs changes.now.rows.items }
    ensures { IfOk result (Finds run.now.logs SpecNo.Configuration) }
{
    let mut forms = Forms {
        changes: Met::new(alloc),
        members: Met::new(alloc),
    };
    enter_changes(&mut forms, alloc, run, changes)?;
    find_two_forms(&NotedForms { run, forms }, alloc)
}
