//! Sending to a channel whose receiver may be gone.
use crossbeam_channel::{SendError, Sender};
use std::alloc::AllocError;
use std::sync::Wait;

/// Sends a channel message. If the receiver is gone, the message is dropped, which is no error.
pub fn give<T: Drop, R: Wait>(rt: &R, to: &Sender<T>, word: T) -> Result<(), AllocError> {
    match to.send(rt, word) {
        Err(SendError::OutOfMemory(_)) => Err(AllocError),
        _ => Ok(()),
    }
}
