//! The plan of the run in threads that the arguments ask for.
ghost use Rattle.std.specs.Prelude.{◌≡◌, ◌+◌, ◌≤◌, IfSome, IfNone};
ghost use Rattle.totem_threads.specs.Starts.{IsInRange};
ghost use Rattle.totem_cluster.specs.RunWords.{plan_of};

use totem_net::Plan;
use totem_threads::RunPlan;
use totem_verdicts::RunWords;

/// Returns the plan with these numbers, or `None` if one is out of range or `lose` and `repeat` together are above 100.
pub fn plan_of(words: &RunWords) -> Option<RunPlan>
    ensures range { IfSome result IsInRange }
    ensures numbers { IfSome result (λ plan. plan ≡ plan_of words.now) }
    ensures none { IfNone result (words.now.lose + words.now.repeat ≤ 100 → IsInRange (plan_of words.now) → ⊥) }
{
    let plan = Plan::new(words.lose, words.repeat, words.hold)?;
    RunPlan::new(words.nodes, words.ticks, words.seed, plan)
}
