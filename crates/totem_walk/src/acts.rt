//! What an entry sends and delivers in a configuration.
ghost use Rattle.std.specs.Prelude.{◌↔◌, IsTrue, IfSome, IfNone};
ghost use Rattle.totem_walk.specs.Acts.{IsThere, SendsIn, SendsNothing, HandlesIn, HandlesNothing, DeliversThere, DeliversNothing};

use totem_evs::Entry;
use totem_names::{ConfId, MsgId};

/// Returns the message that the entry sends in this configuration, or `None` if it sends none there.
pub fn sent_in(entry: &Entry, conf: &ConfId) -> Option<MsgId>
    ensures found { IfSome result (SendsIn entry.now conf.now) }
    ensures none { IfNone result (SendsNothing entry.now conf.now) }
{
    match entry {
        Entry::Send(message, other, _) => {
            if other.is(conf) {
                return Some(*message);
            }
            None
        }
        _ => None,
    }
}

/// Returns the message that the entry sends or delivers in this configuration, or `None` if it does neither there.
pub fn handled_in(entry: &Entry, conf: &ConfId) -> Option<MsgId>
    ensures found { IfSome result (HandlesIn entry.now conf.now) }
    ensures none { IfNone result (HandlesNothing entry.now conf.now) }
{
    match entry {
        Entry::Send(message, other, _) | Entry::Deliver(message, other) => {
            if other.is(conf) {
                return Some(*message);
            }
            None
        }
        _ => None,
    }
}

/// Returns whether this configuration is the regular one, or the one that follows it, if any.
fn is_there(other: &ConfId, conf: &ConfId, follower: &Option<ConfId>) -> bool
    ensures { IsTrue result ↔ IsThere conf.now follower.now other.now }
{
    if other.is(conf) {
        return true;
    }
    match follower {
        Some(follower) => other.is(follower),
        None => false,
    }
}

/// Returns the message that the entry delivers in this configuration or in the one that follows it, if any.
pub fn delivered_in(entry: &Entry, conf: &ConfId, follower: &Option<ConfId>) -> Option<MsgId>
    ensures found { IfSome result (DeliversThere entry.now conf.now follower.now) }
    ensures none { IfNone result (DeliversNothing entry.now conf.now follower.now) }
{
    match entry {
        Entry::Deliver(message, other) => {
            if is_there(other, conf, follower) {
                return Some(*message);
            }
            None
        }
        _ => None,
    }
}
