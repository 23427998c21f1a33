//! Whether a receiver keeps the order of what a sender sent and delivered.
ghost use Rattle.std.specs.Prelude.{◌≡◌, ◌+◌, ◌<◌, ◌≤◌, ◌^◌, length};
ghost use Rattle.std.specs.Bool.{OnTrue, OnFalse};
ghost use Rattle.totem_walk.specs.Order.{KeepsOrder, BreaksOrder};

use crate::deliveries::Deliveries;
use crate::pace::Pace;
use crate::reading::read;
use totem_evs::Entry;
use totem_names::ConfId;

/// Returns whether these deliveries of a receiver keep the order of a sender's log: whether the receiver delivers what the sender sends
/// in this configuration after all that the sender sent and delivered there before. Reads each entry of the sender's log once,
/// up to the first send that breaks the order.
pub fn keeps_order(deliveries: &Deliveries, log: &[Entry], conf: &ConfId, looks: &mut u64) -> bool
    requires room { looks.old + length log.now < 2 ^ 64 }
    ensures kept { OnTrue result (KeepsOrder log.now conf.now deliveries.now) }
    ensures broken { OnFalse result (BreaksOrder log.now conf.now deliveries.now) }
    ensures all { OnTrue result (looks.new ≡ looks.old + length log.now) }
    ensures most { looks.new ≤ looks.old + length log.now }
    ensures rises { looks.old ≤ looks.new }
{
    let mut pace = Pace::Anywhere;
    for at in 0..log.len() {
        let entry = read(log, at, looks);
        if pace.is_broken_by(deliveries, conf, entry) {
            return false;
        }
        pace = pace.behind(deliveries, conf, entry);
    }
    true
}
