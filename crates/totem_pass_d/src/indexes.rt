//! The index at which each message is delivered in a part of a log.
ghost use Rattle.std.specs.Prelude.{◌≡◌, IfSome, IfNone, IfOk};
ghost use Rattle.std.specs.Bool.{OnTrue};
ghost use Rattle.std.specs.BTreeMap as tree;
ghost use Rattle.totem_pass_d.specs.Indexes.{IsShortPart, delivered_at, IsDelivery, IsNoDelivery, noted, told, Tells};

use std::alloc::{AllocError, Global};
use std::collections::BTreeMap;
use totem_evs::Entry;
use totem_names::MsgId;

/// How many places a row may have at most for each entry.
const SPARSEST: usize = 4;

/// A note for each message by its number, from `first` on. 0 means that nothing is noted.
#[derive(Drop)]
pub struct Row {
    first: u32,
    notes: Vec<u32>,
}

impl Row {
    /// Returns a row for the numbers of the messages that are delivered in this part of the log. It has no places if the numbers are
    /// too far apart.
    fn blank(alloc: Global, log: &[Entry], from: usize, end: usize) -> Result<Row, AllocError> {
        let mut least = u32::MAX;
        let mut greatest = 0u32;
        for at in from..end {
            if let Some(message) = delivered_at(log, at) {
                least = least.min(message.number);
                greatest = greatest.max(message.number);
            }
        }
        let width = greatest.saturating_sub(least) as usize;
        let places = if least <= greatest && width / SPARSEST < end.saturating_sub(from) {
            width.saturating_add(1)
        } else {
            0
        };
        Ok(Row {
            first: least,
            notes: vec![in alloc; 0u32; places]?,
        })
    }

    /// Returns the index at which each message is delivered in this part of the log. Nothing is claimed about it: a reader has to check
    /// the entry there.
    pub fn of(alloc: Global, log: &[Entry], from: usize, end: usize) -> Result<Row, AllocError> {
        let mut row = Row::blank(alloc, log, from, end)?;
        for at in from..end {
            if let Some(message) = delivered_at(log, at) {
                let place = message.number.saturating_sub(row.first) as usize;
                if let Some(note) = row.notes.get_mut(place) {
                    *note = u32::try_from(at).unwrap_or(0);
                }
            }
        }
        Ok(row)
    }

    /// Returns what is noted for the message.
    pub fn get(&self, message: &MsgId) -> Option<u32>
        ensures { result ≡ noted self.now message.now }
    {
        let place = message.number.saturating_sub(self.first) as usize;
        self.notes.get(place).copied()
    }
}

/// The index of each delivery: in a row by message number if that has all of them, else by message.
#[derive(Drop)]
pub enum Indexes {
    ByNumber(Row),
    ByMessage(BTreeMap<MsgId, usize>),
}

/// Returns the message that the entry at this index of the log delivers.
pub fn delivered_at(log: &[Entry], at: usize) -> Option<MsgId>
    ensures { result ≡ delivered_at log.now at }
{
    match log.get(at) {
        Some(Entry::Deliver(message, _)) => Some(*message),
        _ => None,
    }
}

/// Returns whether the row has the index of each delivery.
fn tells_all(row: &Row, log: &[Entry], from: usize, end: usize) -> bool
    requires { IsShortPart log.now from end }
    ensures { OnTrue result (Tells (noted row.now) log.now from end end) }
{
    for at in from + 1..end {
        if let Some(message) = delivered_at(log, at) {
            if row.get(&message) != Some(at as u32) {
                return false;
            }
        }
    }
    true
}

/// Returns the index at which each message is delivered.
fn by_message(
    alloc: Global,
    log: &[Entry],
    from: usize,
    end: usize,
) -> Result<BTreeMap<MsgId, usize>, AllocError>
    requires { IsShortPart log.now from end }
    ensures { IfOk result (λ map. Tells (tree.get ⟦<MsgId as Ord>⟧.cmp map) log.now from end end) }
{
    let mut map = BTreeMap::new(alloc);
    for at in from + 1..end {
        if let Some(message) = delivered_at(log, at) {
            map.insert(message, at)?;
        }
    }
    Ok(map)
}

impl Indexes {
    /// Finds the indices of the deliveries after the first of these indices and before the second, in as many steps as there are
    /// entries if the numbers of the messages are close together, and in n log n steps otherwise.
    pub fn of(alloc: Global, log: &[Entry], from: usize, end: usize) -> Result<Indexes, AllocError>
        requires { IsShortPart log.now from end }
        ensures { IfOk result (λ indexes. Tells (told indexes) log.now from end end) }
    {
        let row = Row::of(alloc, log, from, end)?;
        if tells_all(&row, log, from, end) {
            return Ok(Indexes::ByNumber(row));
        }
        Ok(Indexes::ByMessage(by_message(alloc, log, from, end)?))
    }

    /// Returns what is noted for the message.
    fn told(&self, message: &MsgId) -> Option<usize>
        ensures { result ≡ told self.now message.now }
    {
        match self {
            Indexes::ByNumber(row) => row.get(message).map(|at| at as usize),
            Indexes::ByMessage(map) => map.get(message).copied(),
        }
    }

    /// Returns the index at which the message is delivered in this part of the log, whose indices these have to be.
    pub fn index_of(&self, log: &[Entry], from: usize, end: usize, message: &MsgId) -> Option<usize>
        requires { Tells (told self.now) log.now from end end }
        ensures found { IfSome result (IsDelivery log.now from end message.now) }
        ensures none { IfNone result (IsNoDelivery log.now from end message.now) }
    {
        let at = self.told(message)?;
        if from < at && at < end && delivered_at(log, at) == Some(*message) {
            Some(at)
        } else {
            None
        }
    }
}
