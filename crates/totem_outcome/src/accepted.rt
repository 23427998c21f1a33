ghost use Rattle.std.specs.Prelude.{◌≡◌, IfOk};

use std::alloc::{AllocError, Global};
use totem_evs::{Pending, Waiting};

/// What the checker accepts: the certificate certifies the run, the run meets the specifications, and these ascending lists
/// have what is pending and which processes wait.
#[derive(Debug, Drop)]
pub struct Accepted {
    pub pending: Vec<Pending>,
    pub waiting: Vec<Waiting>,
}

impl Accepted {
    pub fn try_clone(&self, alloc: Global) -> Result<Accepted, AllocError>
        ensures pending { IfOk result (λ a. a.pending.items ≡ self.now.pending.items) }
        ensures waiting { IfOk result (λ a. a.waiting.items ≡ self.now.waiting.items) }
    {
        Ok(Accepted {
            pending: self.pending.to_vec(alloc)?,
            waiting: self.waiting.to_vec(alloc)?,
        })
    }
}
