//! What came of a run in threads, counted for people.
use std::alloc::{AllocError, Global};
use totem_evs::{Entry, Run};
use totem_names::{ConfId, MsgId, RingId};
use totem_net::Tally;

/// What the entries of a run name, in their order.
#[derive(Drop)]
struct Events {
    sent: u64,
    delivered: Vec<MsgId>,
    installed: Vec<RingId>,
}

impl Events {
    /// Takes what an entry names.
    fn take(&mut self, entry: &Entry) -> Result<(), AllocError> {
        match entry {
            Entry::Send(..) => self.sent = self.sent.saturating_add(1),
            Entry::Deliver(message, _) => self.delivered.push(*message)?,
            Entry::Conf(ConfId::Regular(ring), _) => self.installed.push(*ring)?,
            _ => {}
        }
        Ok(())
    }
}

/// Returns what the entries of a run name.
fn events_of(alloc: Global, run: &Run) -> Result<Events, AllocError> {
    let mut events = Events {
        sent: 0,
        delivered: Vec::new(alloc),
        installed: Vec::new(alloc),
    };
    for log in run.logs.as_slice() {
        for entry in log.entries.as_slice() {
            events.take(entry)?;
        }
    }
    Ok(events)
}

/// Returns how many messages stand `times` times in a sorted list. None stands more often.
fn standing(times: usize, sorted: &[MsgId]) -> u64 {
    let Some(more) = times.checked_sub(1) else {
        return 0;
    };
    let mut count = 0u64;
    for (place, message) in sorted.iter().enumerate() {
        if sorted.get(place.saturating_add(more)) == Some(message) {
            count = count.saturating_add(1);
        }
    }
    count
}

/// Counts what came of a run in threads. No log of such a run delivers a message twice.
pub fn tally_of(alloc: Global, run: &Run) -> Result<Tally, AllocError> {
    let mut events = events_of(alloc, run)?;
    events.delivered.sort_unstable();
    events.installed.sort_unstable();
    events.installed.dedup();
    let nodes = run.logs.as_slice().len();
    Ok(Tally {
        sent: events.sent,
        delivered_by_all: standing(nodes, &events.delivered),
        rings: events.installed.len().saturating_sub(1) as u64,
    })
}
