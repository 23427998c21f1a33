//! A law of lives: the contract of a function that does nothing.
ghost use Rattle.std.specs.Prelude.{◌≡◌, ℕ, List, IfOk};
ghost use Rattle.totem_names.specs.Names.{RingName};
ghost use Rattle.totem_names.specs.Ranks.{life_of};
ghost use Rattle.totem_core.specs.FirstLives.{IsFirstInput, IsFirstNode, IsFirstStep};
ghost use Rattle.totem_core.specs.Nodes.{Node, new_node};
ghost use Rattle.totem_core.specs.Table.{step};
ghost use Rattle.totem_core.specs.declared.input.Input.{Input};

/// A node that begins in its first life, and to which no report of a later life comes, stays a node to which only first lives are
/// known. It neither sends nor writes anything of a later life.
#[tactic(auto, using(crate::proofs::FirstLives::step_stays))]
pub fn first_lives_stay()
    ensures begins { (me : ℕ) (ring : RingName) (members : List ℕ) → life_of me ≡ 1 → IsFirstNode (new_node me ring members) }
    ensures stays { (n : Node) (i : Input) → IsFirstNode n → IsFirstInput i → IfOk (step n i) IsFirstStep }
{}
