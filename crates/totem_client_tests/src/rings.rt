//! Rings, gatherings and recoveries: totem_ring, totem_member and totem_recover.
use std::alloc::{AllocError, Global};
pub use totem_member::{
    Act, CommitOut, CommitView, Gather, GatherOut, MemberFault, Phase, Report, first_commit,
    on_commit,
};
pub use totem_recover::{
    Recovery, a_member_owes_itself, is_ready, members_leave_alike, owed_are_delivered,
};
pub use totem_ring::{RingFault, RingOut, RingState, To, first_token, one_order};

pub fn order() {
    one_order();
}

pub fn copy(alloc: Global, state: &RingState) -> Result<RingState, AllocError> {
    state.try_clone(alloc)
}

pub fn copy_out(alloc: Global, out: &RingOut) -> Result<RingOut, AllocError> {
    out.try_clone(alloc)
}

pub fn copy_gather(alloc: Global, gather: &Gather) -> Result<Gather, AllocError> {
    gather.try_clone(alloc)
}

pub fn copy_of_taken(alloc: Global, taken: &CommitOut) -> Result<CommitOut, AllocError> {
    taken.try_clone(alloc)
}

pub fn copy_recovery(alloc: Global, recovery: &Recovery) -> Result<Recovery, AllocError> {
    recovery.try_clone(alloc)
}

pub fn of_recoveries() {
    members_leave_alike();
    owed_are_delivered();
    a_member_owes_itself();
}
