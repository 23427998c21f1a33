//! The turn of a node, which a tick brings.
use totem_names::{ProcId, Service};

/// A node's turn: its timer runs out, and its client submits a message of this service.
#[derive(Clone, Copy, Debug, PartialEq, Eq)]
pub struct Turn {
    pub node: ProcId,
    pub service: Service,
}
