//! What a node shows when it takes a commit token.
ghost use Rattle.std.specs.Prelude.{◌≡◌, max};
ghost use Rattle.totem_core.specs.Nodes.{report, commit_view};

use crate::node_core::NodeCore;
use totem_member::{CommitView, Gather, Phase};
use totem_packets::{Number, Report};

/// Returns the greater of two numbers.
pub(crate) fn greater(a: Number, b: Number) -> Number
    ensures { result ≡ max a b }
{
    if a.get() < b.get() { b } else { a }
}

impl NodeCore {
    /// Returns the node's report of its life and of its installed ring.
    pub(crate) fn report(&self) -> Report
        ensures { result ≡ report self.now }
    {
        Report {
            life: self.life,
            ring: self.installed.ring(),
            aru: self.installed.my_aru(),
            delivered: self.installed.handed(),
            obligation: self.obligation,
        }
    }

    /// Returns what the node shows when it takes a commit token.
    pub(crate) fn commit_view(&self, phase: Phase, gather: &Gather, started: bool) -> CommitView
        ensures { result ≡ commit_view self.now phase gather.now started }
    {
        CommitView {
            me: self.me,
            members: gather.gathered(),
            seq: greater(self.seq, gather.seq()),
            filled: self.filled,
            phase,
            started,
        }
    }
}
