//! The entries that a member writes when it leaves the old ring (docs/PROTOCOL.md, "The finish").
ghost use Rattle.std.specs.Prelude.{◌≡◌, ◌+◌, ◌++◌, ◌∷◌, [], IfOk, OnOk, length};
ghost use Rattle.totem_ring.specs.Rings.{going_up};
ghost use Rattle.totem_recover.specs.Exchange.{held_above};
ghost use Rattle.totem_recover.specs.Finish.{delivery, deliveries, rest_from};

use std::alloc::AllocError;
use std::collections::BTreeMap;
use totem_evs::Entry;
use totem_names::{ConfId, MsgId};
use totem_packets::{Body, Message, Processes};
use totem_ring::is_agreed;

/// Returns the delivery of a client's message. Any other message has none.
fn delivery(conf: &ConfId, message: &Message) -> Option<Entry>
    ensures { result ≡ delivery conf.now message.now }
{
    match &message.body {
        Body::App { .. } => Some(Entry::Deliver(
            MsgId {
                ring: message.ring,
                number: message.number.get(),
            },
            *conf,
        )),
        Body::Old { .. } => None,
        Body::Mark => None,
    }
}

/// Appends the delivery of a message, if it has one.
pub fn deliver(entries: &mut Vec<Entry>, conf: &ConfId, message: &Message) -> Result<(), AllocError>
    ensures { OnOk result (entries.new.items ≡ entries.old.items ++ deliveries conf.now (message.now ∷ [])) }
{
    if let Some(entry) = delivery(conf, message) {
        entries.push(entry)?;
    }
    Ok(())
}

/// Appends the deliveries of the regular part, and returns the last number that belongs to it.
pub(crate) fn write_regular(
    entries: &mut Vec<Entry>,
    conf: &ConfId,
    held: &BTreeMap<u32, Message>,
    handed: u32,
    high: u32,
) -> Result<u32, AllocError>
    ensures written { OnOk result (entries.new.items ≡ entries.old.items ++ deliveries conf.now (going_up handed high held.now.entries)) }
    ensures last { IfOk result (λ last. last ≡ handed + length (going_up handed high held.now.entries)) }
{
    let mut last = handed;
    for (number, message) in held {
        if *number <= last {
            continue;
        }
        if *number - 1 != last || (!is_agreed(&message.body) && high < *number) {
            break;
        }
        deliver(entries, conf, message)?;
        last = *number;
    }
    Ok(last)
}

/// Appends the deliveries of the rest: all before the first gap, and after it only messages that processes in O sent.
pub(crate) fn write_rest(
    entries: &mut Vec<Entry>,
    conf: &ConfId,
    held: &BTreeMap<u32, Message>,
    last: u32,
    obliged: &Processes,
) -> Result<(), AllocError>
    ensures { OnOk result (entries.new.items ≡ entries.old.items ++ deliveries conf.now (rest_from obliged.now last (held_above last held.now.entries))) }
{
    let mut at = last;
    let mut has_gap = false;
    for (number, message) in held {
        if *number <= last {
            continue;
        }
        has_gap = has_gap || at == u32::MAX || *number != at + 1;
        if !has_gap || obliged.contains(message.sender) {
            deliver(entries, conf, message)?;
        }
        at = *number;
    }
    Ok(())
}
