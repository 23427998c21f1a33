//! The plan of a run in threads.
ghost use Rattle.std.specs.Prelude.{◌≡◌, MatchOption};
ghost use Rattle.totem_threads.specs.Starts.{IsInRange, run_plan};

use totem_net::Plan;

/// The plan of a run in threads: how many nodes and ticks it has, and what the network does to packets, determined by the
/// random words from this seed (docs/PROTOCOL.md, "A run in threads").
#[derive(Clone, Copy, Debug, PartialEq, Eq)]
pub struct RunPlan {
    /// The number of nodes, 1 to 32. They are the processes from 1 on.
    pub nodes: u16,
    /// The number of ticks, 1 to 1,000,000.
    pub ticks: u32,
    pub seed: u64,
    pub plan: Plan,
}

impl RunPlan {
    /// Returns the plan with these numbers, or `None` if one of them is out of range.
    pub fn new(nodes: u16, ticks: u32, seed: u64, plan: Plan) -> Option<RunPlan>
        ensures { MatchOption result (IsInRange (run_plan nodes ticks seed plan) → ⊥)
            (λ made. IsInRange made × (made ≡ run_plan nodes ticks seed plan)) }
    {
        if (1..=32).contains(&nodes) && (1..=1_000_000).contains(&ticks) {
            return Some(RunPlan {
                nodes,
                ticks,
                seed,
                plan,
            });
        }
        None
    }
}
