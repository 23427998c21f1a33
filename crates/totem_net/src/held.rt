//! A copy that is held back.
ghost use Rattle.std.specs.Prelude.{◌≡◌, IfOk};

use bytes::Bytes;
use std::alloc::AllocError;

/// A copy of a packet that is held back, and how many further packets it still lets pass.
#[derive(Debug, Drop)]
pub struct HeldCopy {
    pub left: u8,
    pub packet: Bytes,
}

impl HeldCopy {
    /// Makes a copy of this packet that lets `left` further packets pass.
    pub fn new(left: u8, packet: &Bytes) -> Result<HeldCopy, AllocError>
        ensures { IfOk result (λ copy. copy ≡ record { left = left; packet = packet.now }) }
    {
        Ok(HeldCopy {
            left,
            packet: packet.clone()?,
        })
    }
}
