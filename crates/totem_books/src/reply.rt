//! What a node answered to an input.
ghost use Rattle.std.specs.Prelude.{◌≡◌, ◌↔◌, IsTrue, IfOk};

use crate::comparing::{Same, same_items};
use std::alloc::{AllocError, Global};
use totem_core::{NodeFault, StepOut};
use totem_evs::Entry;
use totem_names::{are_same, copied};

/// A node's answer to an input: the result of its step, or why the step was refused.
#[derive(Debug, Drop)]
pub enum Reply {
    Done(StepOut),
    Refused(NodeFault),
}

impl Reply {
    ghost use Rattle.totem_books.specs.Replies.{answer_of, entries_of};

    pub fn try_clone(&self, alloc: Global) -> Result<Reply, AllocError>
        ensures { IfOk result (λ reply. answer_of reply ≡ answer_of self.now) }
    {
        Ok(match self {
            Reply::Done(out) => Reply::Done(out.try_clone(alloc)?),
            Reply::Refused(fault) => Reply::Refused(*fault),
        })
    }

    /// Returns whether the two replies are equal.
    pub fn is(&self, other: &Reply) -> bool
        ensures { IsTrue result ↔ (answer_of self.now ≡ answer_of other.now) }
    {
        match (self, other) {
            (Reply::Done(this), Reply::Done(that)) => {
                same_items(&this.packets, &that.packets)
                    && are_same(&this.entries, &that.entries)
                    && same_items(&this.ring_steps, &that.ring_steps)
            }
            (Reply::Refused(this), Reply::Refused(that)) => this.same(that),
            _ => false,
        }
    }

    /// Returns a copy of the entries that the reply adds to the log.
    pub(crate) fn entries(&self, alloc: Global) -> Result<Vec<Entry>, AllocError>
        ensures { IfOk result (λ entries. entries.items ≡ entries_of (answer_of self.now)) }
    {
        match self {
            Reply::Done(out) => copied(alloc, &out.entries),
            Reply::Refused(_) => Ok(Vec::new(alloc)),
        }
    }
}
