//! What is needed to take a step back.

use totem_packets::{Body, Number, Token};

/// What a step changed. With it `RingState::undo` takes the step back, for a caller that is refused memory later.
#[derive(Debug, Drop)]
pub enum RingUndo {
    /// Bodies were submitted.
    Submit {
        /// How many bodies were waiting before.
        waited: usize,
    },
    /// A message was received or adopted.
    Message {
        /// The number under which it is now held.
        number: Number,
        handed: u32,
        /// The token that was kept until the message was taken.
        forgotten: Option<Token>,
    },
    /// A token was taken.
    Visit {
        /// The greatest number given before.
        seq: u32,
        handed: u32,
        safe_to: u32,
        sent_aru: u32,
        last: u64,
        waiting: Vec<Body>,
        kept: Option<Token>,
    },
}

/// What a visit changed for which bodies were given to the ring. With it `RingState::undo_visit` takes the visit back, and
/// the bodies too.
#[derive(Debug, Drop)]
pub struct VisitUndo {
    pub(crate) undo: RingUndo,
    /// How many bodies were waiting before the others were given.
    pub(crate) waited: usize,
}
