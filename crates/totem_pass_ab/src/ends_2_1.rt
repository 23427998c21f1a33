//! 2.1: where a quiet log ends, each member ends too or may still arrive (docs/SPECIFICATIONS.md, "2 Changes of configuration"). This is
//! the search, which names what breaks it. The rule, which is tried first, is totem_judge_run `ends_2_1`.
ghost use Rattle.std.specs.Prelude.{IfOk};
ghost use Rattle.totem_evs.specs.Answers.{Finds};

use std::alloc::Global;
use totem_evs::{Places, Run, SpecNo};
use totem_judge_run::first_end_alone;
use totem_search::FoundPlaces;

/// Finds the least event that breaks 2.1.
pub fn find(alloc: Global, run: &Run) -> FoundPlaces
    ensures { IfOk result (Finds run.now.logs SpecNo.End) }
{
    match first_end_alone(alloc, run)? {
        None => Ok(None),
        Some(place) => Ok(Some(Places::new(vec![in alloc; place]?))),
    }
}
