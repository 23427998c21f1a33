//! A node with a copy that takes each input first.
ghost use Rattle.std.specs.Prelude.{◌≡◌, IfOk, IfSome};
ghost use Rattle.totem_core.specs.Table.{step};
ghost use Rattle.totem_books.specs.Replay.{node_behind};

use crate::stepping::stepped;
use std::alloc::{AllocError, Global};
use std::marker::Model;
use std::mem;
use totem_core::{Input, NodeCore};

/// A node with a copy that takes each input first. The copy then takes the node's place, and the node catches up by
/// taking the same input. So an input takes two steps, and the node is copied only the first time, and again after
/// memory was refused while it caught up. Contracts see the node.
#[derive(Debug, Drop)]
pub struct Level {
    node: NodeCore,
    copy: Option<NodeCore>,
}

impl Model for Level {
    ghost use Rattle.std.specs.Prelude.{◌≡◌, IfSome};
    ghost use Rattle.totem_core.specs.Nodes.{Node};

    ghost Value = { Node };

    ghost view = { λ l. l.node };

    ghost invariant = { λ l. IfSome l.copy (λ c. c ≡ l.node) };
}

impl Level {
    pub fn new(node: NodeCore) -> Level
        ensures { result ≡ node }
    {
        Level { node, copy: None }
    }

    /// Takes the copy out, and makes a new one if there is none.
    pub fn copy(&mut self, alloc: Global) -> Result<NodeCore, AllocError>
        ensures copy { IfOk result (λ copy. copy ≡ self.old) }
        ensures kept { self.new ≡ self.old }
    {
        match self.copy.take() {
            Some(copy) => Ok(copy),
            None => self.node.try_clone(alloc),
        }
    }

    /// Puts the copy, which has taken the input, in the node's place. The node then catches up, unless it runs out of memory.
    #[tactic(auto, using(crate::proofs::Steps::comes_level))]
    pub fn follow(&mut self, alloc: Global, copy: NodeCore, input: Input)
        requires { copy ≡ node_behind self.old (step self.old input) }
        ensures { self.new ≡ copy }
    {
        let node = mem::replace(&mut self.node, copy);
        self.copy = caught_up(alloc, node, input);
    }
}

fn caught_up(alloc: Global, node: NodeCore, input: Input) -> Option<NodeCore>
    ensures { IfSome result (λ n. n ≡ node_behind node (step node input)) }
{
    let mut node = node;
    match stepped(alloc, &mut node, input) {
        Ok(_reply) => Some(node),
        Err(_) => None,
    }
}
