//! The tasks of a node's threads.
use totem_core::Input;

/// What a channel message asks of its thread.
#[derive(Drop)]
pub enum Task {
    /// To give its node this input.
    Input(Input),
    /// To do nothing.
    Nothing,
    /// To stop.
    Stop,
}
