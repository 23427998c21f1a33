//! Searches in a run.
use totem_evs::{Entry, Log, Run};
use totem_names::{ConfId, MsgId, Place, Proc};

/// Returns the log of a process, or `None` if it has none.
pub fn log_of<'r>(run: &'r Run, proc: Proc) -> Option<&'r Log> {
    run.logs.as_slice().iter().find(|log| log.proc == proc)
}

/// Returns entry `at`, counted from 1, of a log, or `None` if the log has no such entry.
pub fn entry_of<'r>(log: &'r Log, at: u32) -> Option<&'r Entry> {
    let index = at.checked_sub(1)?;
    log.entries.as_slice().get(index as usize)
}

/// Returns the entry at a place of the run, or `None` if there is none.
pub fn entry_at<'r>(run: &'r Run, place: Place) -> Option<&'r Entry> {
    entry_of(log_of(run, place.proc)?, place.at)
}

/// Returns the message that an entry sends or delivers, or `None` if it does neither.
pub fn message_of(entry: &Entry) -> Option<MsgId> {
    match entry {
        Entry::Send(message, _, _) | Entry::Deliver(message, _) => Some(*message),
        Entry::Conf(..) | Entry::Fail(_) => None,
    }
}

/// Returns the message that the entry at a place sends or delivers, or `None` if it does neither.
pub fn message_at(run: &Run, place: Place) -> Option<MsgId> {
    entry_at(run, place).and_then(message_of)
}

/// Returns the place of the log's entry at this index, counted from 0.
pub fn place_of(log: &Log, index: usize) -> Place {
    let before = u32::try_from(index).unwrap_or(u32::MAX);
    Place {
        proc: log.proc,
        at: before.saturating_add(1),
    }
}

/// Returns the place at which a log first delivers a message, or `None` if it does not.
pub fn delivery_in(log: &Log, message: MsgId) -> Option<Place> {
    let mut entries = log.entries.as_slice().iter().enumerate();
    entries.find_map(|(index, entry)| match entry {
        Entry::Deliver(delivered, _) if *delivered == message => Some(place_of(log, index)),
        _ => None,
    })
}

/// Returns the place at which a log first sends a message, with the configuration, or `None` if it does not.
pub fn send_in(log: &Log, message: MsgId) -> Option<(Place, ConfId)> {
    let mut entries = log.entries.as_slice().iter().enumerate();
    entries.find_map(|(index, entry)| match entry {
        Entry::Send(sent, conf, _) if *sent == message => Some((place_of(log, index), *conf)),
        _ => None,
    })
}

/// Returns the configuration in which a message was sent; if no log sends it, the regular one of the ring after which it is named.
pub fn origin_of(run: &Run, message: MsgId) -> ConfId {
    let mut logs = run.logs.as_slice().iter();
    let send = logs.find_map(|log| send_in(log, message));
    send.map_or(ConfId::Regular(message.ring), |(_, conf)| conf)
}

/// Returns the place at which a log first changes to a configuration, or `None` if it does not.
pub fn change_in(log: &Log, conf: &ConfId) -> Option<Place> {
    let mut entries = log.entries.as_slice().iter().enumerate();
    entries.find_map(|(index, entry)| match entry {
        Entry::Conf(to, _) if to.is(conf) => Some(place_of(log, index)),
        _ => None,
    })
}

/// Returns the last change of a log before entry `at`, with its members.
pub fn change_before<'r>(log: &'r Log, at: u32) -> Option<(ConfId, &'r [Proc])> {
    let entries = log.entries.as_slice();
    let count = entries.len().min(at.saturating_sub(1) as usize);
    let mut before = entries.get(..count)?.iter().rev();
    before.find_map(|entry| match entry {
        Entry::Conf(to, members) => Some((*to, members.as_slice())),
        _ => None,
    })
}

/// Returns the last change of a log, with its members.
pub fn last_change<'r>(log: &'r Log) -> Option<(ConfId, &'r [Proc])> {
    change_before(log, u32::MAX)
}

/// Returns the first change of a log after entry `at`, and its place.
pub fn change_behind(log: &Log, at: u32) -> Option<(Place, ConfId)> {
    let mut behind = log.entries.as_slice().iter().enumerate().skip(at as usize);
    behind.find_map(|(index, entry)| match entry {
        Entry::Conf(to, _) => Some((place_of(log, index), *to)),
        _ => None,
    })
}
