//! 2.2: each entry is where it is allowed (docs/SPECIFICATIONS.md, "2 Changes of configuration"). This is the search, which names what
//! breaks it. The rule, which is tried first, is totem_judge_run `misplaced_2_2`.
ghost use Rattle.std.specs.Prelude.{IfOk};
ghost use Rattle.totem_evs.specs.Answers.{Finds};

use std::alloc::Global;
use totem_evs::{Places, Run, SpecNo};
use totem_judge_run::first_misplaced;
use totem_search::{FoundPlaces, begin_at};

/// Finds the least event that breaks 2.2.
pub fn find(alloc: Global, run: &Run) -> FoundPlaces
    ensures { IfOk result (Finds run.now.logs SpecNo.Misplaced) }
{
    for log in run.logs.as_slice() {
        if let Some(at) = first_misplaced(log.entries.as_slice()) {
            return Ok(Some(Places::new(begin_at(log.proc, at, Vec::new(alloc))?)));
        }
    }
    Ok(None)
}
