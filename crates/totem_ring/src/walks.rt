//! Walks over the messages of a ring by number.
ghost use Rattle.std.specs.Prelude.{◌≡◌, ◌<◌, OnOk, OnErr, All, filter, nat_le};
ghost use Rattle.std.specs.BTreeMap.{insert_entry};
ghost use Rattle.std.specs.Ordering.{nat_cmp};
ghost use Rattle.totem_ring.specs.Rings.{with_messages};
ghost use Rattle.totem_ring.specs.Invariant.{RisesFrom, IsWholeTo};

use std::alloc::AllocError;
use std::collections::BTreeMap;
use totem_packets::Message;

/// Returns the greatest n such that the map has all messages above `low` and up to n.
pub fn whole_to(messages: &BTreeMap<u32, Message>, low: u32) -> u32
    requires { RisesFrom 0 messages.now.entries }
    ensures { IsWholeTo messages.now.entries low result }
{
    for number in low..u32::MAX {
        if !messages.contains_key(&(number + 1)) {
            return number;
        }
    }
    u32::MAX
}

/// Inserts a copy of this message under the given number.
pub fn put(
    messages: &mut BTreeMap<u32, Message>,
    number: u32,
    message: &Message,
) -> Result<(), AllocError>
    ensures ok { OnOk result (messages.new.entries ≡ insert_entry nat_cmp messages.old.entries number message.now) }
    ensures err { OnErr result (messages.new.entries ≡ messages.old.entries) }
{
    messages.insert(number, message.try_clone()?)?;
    Ok(())
}

/// Adds copies of these messages, whose numbers have to be above `seq`. At `Err` some of them may have been added.
#[tactic(auto, using(crate::proofs::HoldingMore::steps))]
pub fn add_all(
    messages: &mut BTreeMap<u32, Message>,
    seq: u32,
    new: &[Message],
) -> Result<(), AllocError>
    requires above { All (λ m. seq < m.number) new.now }
    requires rises { RisesFrom 0 messages.old.entries }
    ensures ok { OnOk result (messages.new.entries ≡ with_messages messages.old.entries new.now) }
    ensures rises { RisesFrom 0 messages.new.entries }
    ensures below { filter (λ e. nat_le e.0 seq) messages.new.entries ≡ filter (λ e. nat_le e.0 seq) messages.old.entries }
{
    for message in new {
        put(messages, message.number.get(), message)?;
    }
    Ok(())
}

/// Removes the messages with numbers above `seq`.
pub fn cut_above(messages: &mut BTreeMap<u32, Message>, seq: u32)
    ensures { messages.new.entries ≡ filter (λ e. nat_le e.0 seq) messages.old.entries }
{
    messages.retain(move |number, _| *number <= seq);
}
