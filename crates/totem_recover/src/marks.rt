//! Marks: each says that its sender has sent all its messages of older rings (docs/PROTOCOL.md, "Recovery").
ghost use Rattle.std.specs.Prelude.{◌≡◌, map};
ghost use Rattle.totem_names.specs.Ranks.{id_of};
ghost use Rattle.totem_recover.specs.Exchange.{is_mark, mark_of, greatest_of_all, is_reached};

use std::collections::BTreeMap;
use totem_names::{Proc, ProcId};
use totem_packets::{Body, Message};

fn is_mark(body: &Body) -> bool
    ensures { result ≡ is_mark body.now }
{
    match body {
        Body::App { .. } => false,
        Body::Old { .. } => false,
        Body::Mark => true,
    }
}

/// Returns the least number of a mark that this process sent.
fn mark_of(held: &BTreeMap<u32, Message>, proc: ProcId) -> Option<u32>
    ensures { result ≡ mark_of held.now.entries proc }
{
    for (number, message) in held {
        if message.sender == proc && is_mark(&message.body) {
            return Some(*number);
        }
    }
    None
}

/// Returns the number of the last of the members' marks, or `None` unless a mark of every member is held.
pub(crate) fn last_mark(members: &[Proc], held: &BTreeMap<u32, Message>) -> Option<u32>
    ensures { result ≡ greatest_of_all (map (λ p. mark_of held.now.entries (id_of p)) members.now) }
{
    let mut last = 0;
    for proc in members {
        last = mark_of(held, proc.id())?.max(last);
    }
    Some(last)
}

/// Returns whether the mark exists and its number is at most `top`.
pub(crate) fn is_reached(mark: Option<u32>, top: u32) -> bool
    ensures { result ≡ is_reached mark top }
{
    match mark {
        None => false,
        Some(number) => number <= top,
    }
}
