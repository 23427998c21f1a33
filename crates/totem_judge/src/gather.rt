//! Gathers the traffic of all regular configurations in one walk along the numbers of a certificate.
//!
//! Nothing is proved about what is gathered: its user has to verify it.
ghost use Rattle.std.specs.Prelude.{◌≡◌, ◌≤◌, ◌<◌, length};

use crate::gathered::{Gathered, Origin, Stay};
use std::alloc::{AllocError, Global};
use std::collections::BTreeMap;
use totem_certificate::Line;
use totem_evs::{Entry, Log};
use totem_judge_traffic::{Got, LogSet, Sent};
use totem_names::{ConfId, MsgId, RingId, Service};

/// Where a sent message is listed: in which configuration, and at which index.
#[derive(Clone, Copy)]
struct Spot {
    configuration: usize,
    index: u32,
}

/// Where the sent messages are listed, but for the first `FEW` of each configuration, which are looked through.
#[derive(Drop)]
struct Spots {
    /// For each configuration, the indices of the messages named by its ring, by their numbers; `ABSENT` for a number that is not entered.
    numbered: Vec<Vec<u32>>,
    /// Messages named by other rings, and those whose numbers are too high for a list by number.
    others: BTreeMap<MsgId, Spot>,
}

const ABSENT: u32 = u32::MAX;

/// How many messages of a configuration are looked through.
const FEW: usize = 4;

/// How high a message's number may be for a list by number: `LEFT_OUT`, and `LEFT_OUT_EACH` more for each message sent before.
const LEFT_OUT: usize = 16;

const LEFT_OUT_EACH: usize = 3;

/// How many numbers of the certificate are looked at together.
const WINDOW: usize = 256;

/// The events that share a number: bit i of `bits` stands for the log at index i, and `at` is the index of the event in the first log.
#[derive(Clone, Copy)]
struct Shared {
    bits: u32,
    at: usize,
}

const NOTHING: Shared = Shared { bits: 0, at: 0 };

/// The events that share a number, in `count` logs; in the first of these, `log`, the index of the event is `at`.
#[derive(Clone, Copy)]
struct Next {
    number: u32,
    logs: LogSet,
    count: u32,
    log: u32,
    at: usize,
}

/// Where a log stands: the index of the configuration, that of its stay there, and that of the entry after its last change.
#[derive(Clone, Copy)]
struct Standing {
    configuration: usize,
    stay: usize,
    at: usize,
}

/// What has been gathered so far.
#[derive(Drop)]
struct Gatherer {
    list: Vec<Gathered>,
    spots: Spots,
    /// For each log, where it stands.
    standing: Vec<Standing>,
    /// The logs that are in a transitional configuration.
    behind: LogSet,
}

/// Where the walk is in a log: the entries from `from` to `to` have the numbers of the window.
#[derive(Clone, Copy)]
struct Cursor<'a> {
    entries: &'a [Entry],
    numbers: &'a [u32],
    from: usize,
    to: usize,
}

/// The walk along the numbers of a certificate.
#[derive(Drop)]
struct Walk<'a> {
    cursors: Vec<Cursor<'a>>,
    /// The events with the numbers from `first` on.
    window: Vec<Shared>,
    first: u32,
}

/// Enters the entries of a log whose numbers are in the window. Returns where the others begin.
fn enter_log(window: &mut [Shared], first: u32, bit: u32, numbers: &[u32], from: usize) -> usize {
    for at in from..numbers.len() {
        let slot = numbers[at].wrapping_sub(first) as usize;
        if slot >= window.len() {
            return at;
        }
        if window[slot].bits == 0 {
            window[slot].at = at;
        }
        window[slot].bits |= bit;
    }
    numbers.len()
}

impl<'a> Cursor<'a> {
    /// Returns the index of the entry with this number of the window, if it is not before the entry at `at`.
    fn index_of(&self, number: u32, at: usize) -> Option<usize> {
        let from = self.from.max(at);
        let numbers = self.numbers.get(from..self.to)?;
        let index = numbers.iter().position(|other| *other >= number)?;
        if numbers[index] == number {
            Some(from.saturating_add(index))
        } else {
            None
        }
    }
}

impl<'a> Walk<'a> {
    fn new(alloc: Global, logs: &'a [Log], lines: &'a [Line]) -> Result<Walk<'a>, AllocError> {
        let mut cursors = Vec::with_capacity(alloc, lines.len())?;
        for (log, line) in logs.iter().zip(lines) {
            cursors.push(Cursor {
                entries: log.entries.as_slice(),
                numbers: line.numbers.as_slice(),
                from: 0,
                to: 0,
            })?;
        }
        Ok(Walk {
            cursors,
            window: vec![in alloc; NOTHING; WINDOW]?,
            first: 0,
        })
    }

    /// Returns the least number behind the window, or `None` if there is none.
    fn least(&self) -> Option<u32> {
        let mut least: Option<u32> = None;
        for cursor in self.cursors.iter() {
            if let Some(number) = cursor.numbers.get(cursor.to).copied() {
                least = Some(least.unwrap_or(u32::MAX).min(number));
            }
        }
        least
    }

    /// Moves the window on to this number.
    fn go_on(&mut self, first: u32) {
        self.first = first;
        for shared in &mut self.window {
            *shared = NOTHING;
        }
        let mut bit = 1u32;
        for cursor in &mut self.cursors {
            cursor.from = cursor.to;
            cursor.to = enter_log(&mut self.window, first, bit, cursor.numbers, cursor.to);
            bit = bit.wrapping_shl(1);
        }
    }

    /// Returns the events at this index of the window, or `None` if there are none.
    fn next_at(&self, slot: usize, shared: Shared) -> Option<Next> {
        let logs = LogSet::from_bits(shared.bits);
        Some(Next {
            number: self.first.saturating_add(index_of(slot)),
            logs,
            count: shared.bits.count_ones(),
            log: logs.least()?,
            at: shared.at,
        })
    }
}

fn index_of(at: usize) -> u32 {
    u32::try_from(at).unwrap_or(u32::MAX)
}

impl Spots {
    /// Enters a message that was sent, in the configuration of this ring.
    fn insert(&mut self, message: MsgId, ring: RingId, spot: Spot) -> Result<(), AllocError> {
        let number = message.number as usize;
        let index = spot.index as usize;
        if index < FEW {
            return Ok(());
        }
        let most = LEFT_OUT_EACH.saturating_mul(index).saturating_add(LEFT_OUT);
        if message.ring != ring || number > most || spot.configuration >= self.numbered.len() {
            self.others.insert(message, spot)?;
            return Ok(());
        }
        let indices = &mut self.numbered[spot.configuration];
        for _ in indices.len()..=number {
            indices.push(ABSENT)?;
        }
        if number < indices.len() {
            indices[number] = spot.index;
        }
        Ok(())
    }

    /// Returns the index at which a message is listed in this configuration, in which these are sent, and which is that of the ring.
    fn get(
        &self,
        message: &MsgId,
        sent: &[Sent],
        ring: RingId,
        configuration: usize,
    ) -> Option<u32> {
        if message.ring == ring
            && let Some(indices) = self.numbered.get(configuration)
            && let Some(index) = indices.get(message.number as usize).copied()
            && index != ABSENT
        {
            return Some(index);
        }
        let few = sent.get(..FEW).unwrap_or(sent);
        if let Some(index) = few.iter().position(|sent| sent.message == *message) {
            return Some(index_of(index));
        }
        let spot = self.others.get(message).copied()?;
        if spot.configuration == configuration {
            Some(spot.index)
        } else {
            None
        }
    }
}

impl Gatherer {
    fn new(alloc: Global) -> Result<Gatherer, AllocError> {
        let nowhere = Standing {
            configuration: usize::MAX,
            stay: 0,
            at: 0,
        };
        Ok(Gatherer {
            list: Vec::new(alloc),
            spots: Spots {
                numbered: Vec::new(alloc),
                others: BTreeMap::new(alloc),
            },
            standing: vec![in alloc; nowhere; 32]?,
            behind: LogSet::none(),
        })
    }

    /// Enters the change of this log that has this number in the stay that the log is in. Returns its index, or `None` if there is none.
    fn turn(&mut self, log: u32, cursor: &Cursor<'_>, next: &Next) -> Option<usize> {
        if log >= 32 || !next.logs.contains(log) {
            return None;
        }
        let standing = self.standing.get_mut(log as usize)?;
        let at = cursor.index_of(next.number, standing.at)?;
        standing.at = at.saturating_add(1);
        if let Some(gathered) = self.list.get_mut(standing.configuration)
            && let Some(stay) = gathered.stays.get_mut(standing.stay)
        {
            if stay.turn == stay.end {
                stay.turn = at;
            } else {
                stay.end = at;
            }
        }
        Some(at)
    }

    /// Enters the changes that have this number, in the stays that their logs are in.
    fn turn_all(&mut self, next: &Next, walk: &Walk<'_>) {
        for (log, cursor) in walk.cursors.iter().enumerate() {
            let _ = self.turn(index_of(log), cursor, next);
        }
    }

    /// Enters the changes that have this number, all to one regular configuration, in which about this many messages are sent.
    fn change(
        &mut self,
        alloc: Global,
        ring: RingId,
        messages: usize,
        next: &Next,
        walk: &Walk<'_>,
    ) -> Result<(), AllocError> {
        let mut gathered = Gathered::new(alloc, ring, next.number, next.count as usize, messages)?;
        for (index, cursor) in walk.cursors.iter().enumerate() {
            let log = index_of(index);
            if log < 32
                && let Some(from) = self.turn(log, cursor, next)
            {
                if let Some(standing) = self.standing.get_mut(index) {
                    standing.configuration = self.list.len();
                    standing.stay = gathered.stays.len();
                }
                let end = cursor.entries.len();
                gathered.stays.push(Stay {
                    log,
                    from,
                    turn: end,
                    end,
                })?;
            }
        }
        self.behind = self.behind.minus(next.logs);
        let numbers = if messages <= FEW { 0 } else { messages };
        self.spots
            .numbered
            .push(Vec::with_capacity(alloc, numbers)?)?;
        self.list.push(gathered)?;
        Ok(())
    }

    /// Returns the index of the configuration that this log is in, or `usize::MAX` if there is none.
    fn configuration_of(&self, log: u32) -> usize {
        match self.standing.get(log as usize) {
            Some(standing) => standing.configuration,
            None => usize::MAX,
        }
    }

    fn send(&mut self, message: MsgId, service: Service, next: &Next) -> Result<(), AllocError> {
        let sender = next.log;
        let configuration = self.configuration_of(sender);
        let Some(gathered) = self.list.get_mut(configuration) else {
            return Ok(());
        };
        if sender >= 32 {
            return Ok(());
        }
        let index = index_of(gathered.sent.len());
        gathered.sent.push(Sent {
            message,
            sender,
            before: index_of(gathered.got.len()),
            by: LogSet::none(),
        })?;
        gathered.origins.push(Origin { service, got: None })?;
        gathered.sent_numbers.push(next.number)?;
        let ring = gathered.ring;
        let spot = Spot {
            configuration,
            index,
        };
        self.spots.insert(message, ring, spot)
    }

    fn deliver(&mut self, message: MsgId, next: &Next) -> Result<(), AllocError> {
        let configuration = self.configuration_of(next.log);
        if let Some(gathered) = self.list.get_mut(configuration)
            && let Some(index) = self
                .spots
                .get(&message, &gathered.sent, gathered.ring, configuration)
            && let Some(sent) = gathered.sent.get_mut(index as usize)
            && let Some(origin) = gathered.origins.get_mut(index as usize)
        {
            sent.by = next.logs;
            origin.got = Some(index_of(gathered.got.len()));
            gathered.got.push(Got {
                sent: index,
                sender: sent.sender,
                safe: origin.is_safe(),
                regular: next.logs.minus(self.behind),
                transitional: next.logs.intersection(self.behind),
            })?;
            gathered.got_numbers.push(next.number)?;
        }
        Ok(())
    }

    /// Enters events that share a number, as the entry of the first log says what they are.
    fn enter(&mut self, alloc: Global, next: &Next, walk: &Walk<'_>) -> Result<(), AllocError> {
        let Some(cursor) = walk.cursors.get(next.log as usize) else {
            return Ok(());
        };
        match cursor.entries.get(next.at) {
            Some(Entry::Conf(ConfId::Regular(ring), _)) => {
                let messages = messages_from(cursor, next);
                self.change(alloc, *ring, messages, next, walk)
            }
            Some(Entry::Conf(ConfId::Transitional { .. }, _)) => {
                self.turn_all(next, walk);
                self.behind = self.behind.union(next.logs);
                Ok(())
            }
            Some(Entry::Send(message, _, service)) => self.send(*message, *service, next),
            Some(Entry::Deliver(message, _)) => self.deliver(*message, next),
            Some(Entry::Fail(_)) | None => Ok(()),
        }
    }
}

/// Returns how many entries come before the next change to a regular configuration.
fn stay_length(entries: &[Entry]) -> usize {
    for (length, entry) in entries.iter().enumerate() {
        if matches!(entry, Entry::Conf(ConfId::Regular(_), _)) {
            return length;
        }
    }
    entries.len()
}

/// Returns about how many messages are sent until the first log changes to a regular configuration again, and at most how many entries it
/// has until then. Most messages take two numbers, for the send and for the deliveries.
fn messages_from(cursor: &Cursor<'_>, next: &Next) -> usize {
    let Some(entries) = cursor.entries.get(next.at.saturating_add(1)..) else {
        return 0;
    };
    let length = stay_length(entries);
    let last = cursor.numbers.get(next.at.saturating_add(length)).copied();
    let events = last.unwrap_or(0).saturating_sub(next.number) as usize;
    (events / 2).min(length)
}

/// Returns the number of entries of all logs.
fn entries_of(logs: &[Log]) -> usize {
    let mut count: usize = 0;
    for log in logs {
        count = count.saturating_add(log.entries.as_slice().len());
    }
    count
}

/// Returns what is gathered about each regular configuration, in the order of their numbers.
pub fn gather(alloc: Global, logs: &[Log], lines: &[Line]) -> Result<Vec<Gathered>, AllocError>
    requires few { length lines.now ≤ 32 }
{
    let mut gatherer = Gatherer::new(alloc)?;
    let mut walk = Walk::new(alloc, logs, lines)?;
    for _ in 0..entries_of(logs) {
        let Some(first) = walk.least() else {
            break;
        };
        walk.go_on(first);
        for (slot, shared) in walk.window.iter().enumerate() {
            if let Some(next) = walk.next_at(slot, *shared) {
                gatherer.enter(alloc, &next, &walk)?;
            }
        }
    }
    Ok(gatherer.list)
}
