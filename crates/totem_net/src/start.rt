//! Notification that the nodes of a run start.
use totem_names::ProcId;

/// Notified when a node starts, by the node's receiving thread before it receives anything.
pub trait Start: Sync {
    fn begun(&self, node: ProcId);
}

/// A `Start` that does nothing when a node starts.
#[derive(Clone, Copy, Debug, PartialEq, Eq)]
pub struct Quiet;

impl Start for Quiet {
    fn begun(&self, _node: ProcId) {}
}
