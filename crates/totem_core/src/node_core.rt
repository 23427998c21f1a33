//! The state of a node.
ghost use Rattle.std.specs.Prelude.{◌≡◌, IfOk};

use crate::state::State;
use std::alloc::{AllocError, Global};
use std::marker::Model;
use std::sync::Arc;
use totem_evs::{Entry, Members};
use totem_names::{ConfId, Proc, ProcId, RingId};
use totem_packets::{Body, Life, Number, Processes};
use totem_recover::{copies_of, ids_of};
use totem_ring::RingState;

/// A node: a state machine over inputs, without clock, network or threads (docs/PROTOCOL.md, "The node"). A step that is
/// refused leaves it unchanged.
#[derive(Debug, Drop)]
pub struct NodeCore {
    pub(crate) me: ProcId,
    pub(crate) life: Life,
    pub(crate) state: State,
    pub(crate) installed: RingState,
    /// The messages of clients that wait for the next visit in Operational.
    pub(crate) waiting: Vec<Body>,
    /// The number of timers that were counted since the last visit, or since the node last began to gather, gave up
    /// those that don't agree, or reached consensus.
    pub(crate) quiet: u8,
    /// The greatest ring number that the node made, filled or installed.
    pub(crate) seq: Number,
    /// The obligation set: the processes to which the node owes the delivery of their messages.
    pub(crate) obligation: Processes,
    /// The ring of the commit token that the node made or filled last since it installed a ring.
    pub(crate) filled: Option<RingId>,
    pub(crate) crashed: bool,
}

impl Model for NodeCore {
    ghost use Rattle.totem_core.specs.Nodes.{Node};

    ghost Value = { Node };

    ghost view = { λ n. record {
      me = n.me;
      life = n.life;
      state = n.state;
      installed = n.installed;
      waiting = n.waiting.items;
      quiet = n.quiet;
      seq = n.seq;
      obligation = n.obligation;
      filled = n.filled;
      crashed = n.crashed;
    } };
}

impl NodeCore {
    ghost use Rattle.totem_core.specs.Nodes.{new_node};
    ghost use Rattle.totem_core.specs.Replay.{first_change};
    ghost use Rattle.totem_evs.specs.Members.{IsMembers};

    /// Returns a node that starts on this ring, and the change with which its log begins. The members are
    /// 1 to 32 processes, strictly ascending by identifier, and are expected to have `me` among them.
    pub fn new(
        alloc: Global,
        me: Proc,
        ring: RingId,
        members: &[Proc],
    ) -> Result<(NodeCore, Entry), AllocError>
        requires { IsMembers members.now }
        ensures node { IfOk result (λ made. made.0 ≡ new_node me ring members.now) }
        ensures entry { IfOk result (λ made. made.1 ≡ first_change ring members.now) }
    {
        let ids = ids_of(alloc, members)?;
        let members = Members::of(Arc::new(alloc, members.to_vec(alloc)?)?);
        let change = Entry::Conf(ConfId::Regular(ring), members);
        let node = NodeCore {
            me: me.id(),
            life: Life::of(me.life()),
            state: State::Operational,
            installed: RingState::new(alloc, me.id(), ring, &ids)?,
            waiting: Vec::new(alloc),
            quiet: 0,
            seq: Number::of(ring.seq),
            obligation: Processes::none(),
            filled: None,
            crashed: false,
        };
        Ok((node, change))
    }

    /// Returns the greatest ring number that the node made, filled or installed.
    pub fn seq(&self) -> u32
        ensures { result ≡ self.now.seq }
    {
        self.seq.get()
    }

    /// Returns copies of the node's state and of its installed ring.
    fn rings(&self, alloc: Global) -> Result<(State, RingState), AllocError>
        ensures { IfOk result (λ r. (r.0 ≡ self.now.state) × (r.1 ≡ self.now.installed)) }
    {
        let state = self.state.try_clone(alloc)?;
        let installed = self.installed.try_clone(alloc)?;
        Ok((state, installed))
    }

    pub fn try_clone(&self, alloc: Global) -> Result<NodeCore, AllocError>
        ensures { IfOk result (λ n. n ≡ self.now) }
    {
        let waiting = copies_of(alloc, &self.waiting)?;
        let (state, installed) = self.rings(alloc)?;
        Ok(NodeCore {
            me: self.me,
            life: self.life,
            state,
            installed,
            waiting,
            quiet: self.quiet,
            seq: self.seq,
            obligation: self.obligation,
            filled: self.filled,
            crashed: self.crashed,
        })
    }
}
