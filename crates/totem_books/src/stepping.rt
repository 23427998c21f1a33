//! Steps of a node as replies.
ghost use Rattle.std.specs.Prelude.{◌≡◌, IfOk, OnOk};
ghost use Rattle.totem_core.specs.Table.{step};
ghost use Rattle.totem_books.specs.Replies.{answer_of};
ghost use Rattle.totem_books.specs.Replay.{answer_to, node_behind};

use crate::reply::Reply;
use std::alloc::{AllocError, Global};
use totem_core::{Input, NodeCore, NodeFault};

/// Gives the node one more input and returns its reply. A refusal is a reply too, but out of memory is returned as `Err`.
pub fn stepped(alloc: Global, node: &mut NodeCore, input: Input) -> Result<Reply, AllocError>
    ensures node { OnOk result (node.new ≡ node_behind node.old (step node.old input)) }
    ensures reply { IfOk result (λ reply. answer_of reply ≡ answer_to (step node.old input)) }
{
    match node.step(alloc, input) {
        Ok(out) => Ok(Reply::Done(out)),
        Err(NodeFault::Memory) => Err(AllocError),
        Err(fault) => Ok(Reply::Refused(fault)),
    }
}
