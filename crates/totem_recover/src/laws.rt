//! Laws of the finish. Each is the contract of an empty function.
ghost use Rattle.totem_recover.specs.Owed.{OwedAreDelivered, OwesItself};
ghost use Rattle.totem_recover.specs.Together.{LeavesAlike};

/// Members of one transitional set that hold the same messages leave the old ring with the same deliveries: the one that
/// has delivered less to its node catches up in the old configuration, and then both write the same.
#[tactic(auto, using(crate::proofs::Together::leaves_alike))]
pub fn members_leave_alike()
    ensures { LeavesAlike }
{}

/// A message of the old ring that is held, was sent by a process in O and was not delivered to the node before is delivered when
/// the ring is left.
#[tactic(auto, using(crate::proofs::OwedOnes::owed_are_delivered))]
pub fn owed_are_delivered()
    ensures { OwedAreDelivered }
{}

/// A process that begins a recovery is in its own O, and so delivers all messages that it sent.
#[tactic(auto, using(crate::proofs::OwedOnes::owes_itself))]
pub fn a_member_owes_itself()
    ensures { OwesItself }
{}
