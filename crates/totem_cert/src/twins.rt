ghost use Rattle.std.specs.Prelude.{◌≡◌, ◌↔◌, ◌<◌, IsTrue, IfSome, IfNone, length};
ghost use Rattle.totem_evs.specs.Steps.{DeliversAt};
ghost use Rattle.totem_evs.specs.ClosedLists.{AreTwinDeliveries, HasTwinDeliveries};
ghost use Rattle.totem_cert.specs.Progress.{NeverDelivers, StandsNext, BothAre, message_of};

use crate::step::entry_at;
use totem_evs::{Entry, Run};
use totem_names::{MsgId, Place};

fn message_of(entry: &Entry) -> Option<MsgId>
    ensures { result ≡ message_of entry.now }
{
    match entry {
        Entry::Deliver(m, _) => Some(*m),
        _ => None,
    }
}

/// Returns the message that an event delivers, if it delivers one.
fn delivered(run: &Run, e: &Place) -> Option<MsgId>
    ensures found { IfSome result (λ m. DeliversAt run.now.logs e.now m) }
    ensures none { IfNone result (NeverDelivers run.now.logs e.now) }
{
    let at = e.at as usize;
    match entry_at(run, e.proc, at - 1) {
        Some(entry) => message_of(entry),
        None => None,
    }
}

fn both_are(m: Option<MsgId>, n: Option<MsgId>) -> bool
    ensures { IsTrue result ↔ BothAre m n }
{
    match (m, n) {
        (Some(m), Some(n)) => m == n,
        _ => false,
    }
}

fn is_same(e: &Place, f: &Place) -> bool
    ensures { IsTrue result ↔ (e.now ≡ f.now) }
{
    *e == *f
}

/// Returns whether two events are different deliveries of one message.
fn are_twins(run: &Run, e: &Place, f: &Place) -> bool
    ensures { IsTrue result ↔ AreTwinDeliveries run.now.logs e.now f.now }
{
    if is_same(e, f) {
        return false;
    }
    let m = delivered(run, e);
    let n = delivered(run, f);
    both_are(m, n)
}

/// Returns the place that follows the i-th in a closed list. The first follows the last.
fn next_of(places: &[Place], i: usize) -> Place
    requires { i < length places.now }
    ensures { StandsNext places.now i result }
{
    if i + 1 < places.len() {
        places[i + 1]
    } else {
        places[0]
    }
}

/// Returns whether two neighbours of a closed list are different deliveries of one message.
pub fn has_twins(run: &Run, places: &[Place]) -> bool
    ensures { IsTrue result ↔ HasTwinDeliveries run.now.logs places.now }
{
    for (i, place) in places.iter().enumerate() {
        if are_twins(run, place, &next_of(places, i)) {
            return true;
        }
    }
    false
}
