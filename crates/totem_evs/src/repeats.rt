//! Lines of sends and deliveries that differ from the one before only in the number of their message, as most lines of a log do. They are
//! read at once, by what they begin with. Changes mostly repeat the members of the change before: then their text is not read again, and both
//! share one list.
ghost use Rattle.std.specs.Prelude.{◌≡◌, ◌<◌, ◌≤◌, [], Ok, Bool, IfNone, IfOk, IfSome, false, true, length, take};
ghost use Rattle.std.specs.Io.KnownBytes.{Keeps};
ghost use Rattle.totem_names.specs.Sources.{Comes, Reads, Settles, seen};
ghost use Rattle.totem_names.specs.declared.version.Version.{Version};
ghost use Rattle.totem_evs.specs.declared.lines.Line.TheVariants as lines;
ghost use Rattle.totem_evs.specs.Missing.{members_of};
ghost use Rattle.totem_evs.specs.RunGrammar.{line_at, members_at};
ghost use Rattle.totem_evs.specs.LineStarts.{BeginsWith, start_at, send_start, delivery_start, entry_of};

use crate::entry::Entry;
use crate::members::Members;
use crate::roll::Roll;
use crate::whole_lines::entry_in;
use std::alloc::{AllocError, Global};
use totem_names::{
    ConfId, FromRead, MsgId, ReadError, RingId, Service, Source, TextFault, Version, next,
    number_within, read_conf, read_ring, read_service, word,
};

/// How many bytes a start has at most.
const LONGEST: usize = 48;

/// What the line of a send or a delivery says before the number of its message.
#[derive(Clone, Copy, PartialEq, Eq)]
enum Said {
    Send(RingId, ConfId, Service),
    Deliver(RingId, ConfId),
}

/// What the line of a send or a delivery has before the number of its message, as in `dlv r4.1 4.1#`.
#[derive(Drop)]
struct Start {
    said: Said,
    text: Vec<u8>,
    ghost spelled: { Settles start_at text.items said },
}

#[tactic(auto, using(crate::proofs::ReaderSteps::reader_steps), unfolding(crate::specs::LineStarts::send_start))]
fn read_send<S: Source>(source: &mut S) -> Result<Said, ReadError>
    ensures { Reads (seen S.remaining S.failures source.old)
        (seen S.remaining S.failures source.new) result send_start }
{
    word(source, b"end ", TextFault::Word)?;
    let conf = read_conf(source, b' ')?;
    let service = read_service(source)?;
    word(source, b" ", TextFault::Word)?;
    let ring = read_ring(source, b'#')?;
    Ok(Said::Send(ring, conf, service))
}

#[tactic(auto, using(crate::proofs::ReaderSteps::reader_steps), unfolding(crate::specs::LineStarts::delivery_start))]
fn read_delivery<S: Source>(source: &mut S) -> Result<Said, ReadError>
    ensures { Reads (seen S.remaining S.failures source.old)
        (seen S.remaining S.failures source.new) result delivery_start }
{
    word(source, b"lv ", TextFault::Word)?;
    let conf = read_conf(source, b' ')?;
    let ring = read_ring(source, b'#')?;
    Ok(Said::Deliver(ring, conf))
}

// Reads what a line has before the number of its message.
#[tactic(auto, using(crate::proofs::ReaderSteps::reader_steps), unfolding(crate::specs::LineStarts::start_at))]
fn read_start<S: Source>(source: &mut S) -> Result<Said, ReadError>
    ensures { Reads (seen S.remaining S.failures source.old)
        (seen S.remaining S.failures source.new) result start_at }
{
    let letter = next(source)?;
    if letter == b's' {
        return read_send(source);
    }
    if letter == b'd' {
        return read_delivery(source);
    }
    Err(ReadError::Text(TextFault::Word))
}

// Returns the bytes up to the first `#`, if they may be the start of a send or a delivery.
fn start_in(bytes: &[u8]) -> Option<&[u8]> {
    let (Some(b's') | Some(b'd')) = bytes.first() else {
        return None;
    };
    let at = bytes.iter().take(LONGEST).position(|byte| *byte == b'#')?;
    bytes.get(..=at)
}

impl Said {
    fn entry(self, number: u32) -> Entry
        requires { 0 < number }
        ensures entry { result ≡ entry_of self number }
        ensures members { members_of result ≡ [] }
    {
        match self {
            Said::Send(ring, conf, service) => Entry::Send(MsgId { ring, number }, conf, service),
            Said::Deliver(ring, conf) => Entry::Deliver(MsgId { ring, number }, conf),
        }
    }
}

impl Start {
    /// Returns the start that these bytes are, or `None` if they are none.
    fn of(alloc: Global, bytes: &[u8]) -> Result<Option<Start>, AllocError> {
        let mut source = FromRead::new(bytes);
        let Ok(said) = read_start(&mut source) else {
            return Ok(None);
        };
        let Ok(None) = source.byte() else {
            return Ok(None);
        };
        let mut text = Vec::new(alloc);
        text.extend_from_slice(bytes)?;
        Ok(Some(Start { said, text }))
    }

    /// Returns the entry with whose line these bytes begin, and how many bytes the line takes. Returns `None` if the line has another
    /// start, or the bytes end before it does.
    fn entry(&self, bytes: &[u8]) -> Option<(Entry, usize)>
        ensures { IfSome result (λ e. BeginsWith bytes.now e.0 e.1) }
    {
        let text = self.text.as_slice();
        let begins = bytes.starts_with(text);
        if !begins {
            return None;
        }
        let (number, byte, count) = number_within(&bytes[text.len()..], u32::MAX)?;
        if byte != b'\n' {
            return None;
        }
        Some((self.said.entry(number), text.len() + count))
    }
}

/// The start with which lines of one kind repeat.
#[derive(Drop)]
struct Repeat {
    /// What the last line said that did not repeat the start.
    last: Option<Said>,
    /// The start that came twice.
    start: Option<Start>,
}

impl Repeat {
    fn new() -> Repeat {
        Repeat {
            last: None,
            start: None,
        }
    }

    // Returns the start that came twice, if these bytes begin with it.
    fn start_of(&self, bytes: &[u8]) -> Option<&Start> {
        let start = self.start.as_ref()?;
        let begins = bytes.starts_with(start.text.as_slice());
        if begins { Some(start) } else { None }
    }

    // Notes what the line with which these bytes begin says before the number of its message.
    fn note(&mut self, alloc: Global, said: Said, bytes: &[u8]) -> Result<(), AllocError> {
        if let Some(last) = self.last
            && last == said
            && let Some(start) = start_in(bytes)
        {
            self.start = Start::of(alloc, start)?;
        }
        self.last = Some(said);
        Ok(())
    }
}

/// The starts with which the lines of a run repeat, by the kind of line, and the members of the last change whose text was at hand, and of
/// the last one whose text was not.
#[derive(Drop)]
pub struct Repeats {
    deliveries: Repeat,
    agreed: Repeat,
    safe: Repeat,
    roll: Option<Roll>,
    members: Option<Members>,
}

impl Repeats {
    /// Returns what is known before the first line.
    pub fn new() -> Repeats {
        Repeats {
            deliveries: Repeat::new(),
            agreed: Repeat::new(),
            safe: Repeat::new(),
            roll: None,
            members: None,
        }
    }

    // Returns whether these bytes begin with the text of the last members.
    fn knows(&self, bytes: &[u8], version: Version) -> bool {
        match &self.roll {
            Some(roll) => roll.members_in(bytes, 0, version).is_some(),
            None => false,
        }
    }

    /// Takes the members that come next if all of their text is at hand. Otherwise takes nothing. If their text is that of the members before,
    /// both share one list.
    pub fn take_members<S: Source>(
        &mut self,
        alloc: Global,
        source: &mut S,
        version: Version,
    ) -> Result<Option<Members>, AllocError>
        ensures taken { IfOk result (λ found. IfSome found (λ m. Comes (seen S.remaining S.failures source.old)
            (seen S.remaining S.failures source.new) (members_at version 32 0) (λ more. Ok (m, more)))) }
        ensures kept { IfOk result (λ found. IfNone found (Keeps (S.remaining source.old) (S.remaining source.new))) }
        ensures failures { S.failures source.new ≡ S.failures source.old }
    {
        let known = self.knows(source.at_hand(), version);
        if !known {
            self.roll = Roll::of(alloc, source.at_hand(), version)?;
        }
        match &self.roll {
            Some(roll) => Ok(roll.take(source, version)),
            None => Ok(None),
        }
    }

    /// Returns the members of a change whose text was not at hand. If the last such change had the same ones, both share one list.
    pub fn share(&mut self, members: Members) -> Result<Members, AllocError>
        ensures { IfOk result (λ m. m ≡ members) }
    {
        if let Some(last) = &self.members
            && last.is(&members)
        {
            return last.try_clone();
        }
        self.members = Some(members.try_clone()?);
        Ok(members)
    }

    // Returns the start that the line with which these bytes begin may have.
    fn start_for(&self, bytes: &[u8]) -> Option<&Start> {
        match bytes.first() {
            Some(b'd') => self.deliveries.start.as_ref(),
            Some(b's') => match self.agreed.start_of(bytes) {
                Some(start) => Some(start),
                None => self.safe.start.as_ref(),
            },
            _ => None,
        }
    }

    /// Takes the next line if it repeats and all of it is at hand, and returns its entry. Otherwise takes nothing.
    pub fn take<S: Source>(&self, source: &mut S) -> Option<Entry>
        ensures taken { (version : Version) (some failed : Bool) → IfSome result (λ e. Comes (seen S.remaining S.failures source.old)
            (seen S.remaining S.failures source.new) (line_at version false some failed) (λ more. Ok (lines.Entry e, more))) }
        ensures members { IfSome result (λ e. members_of e ≡ []) }
        ensures kept { IfNone result (Keeps (S.remaining source.old) (S.remaining source.new)
            × (S.failures source.new ≡ S.failures source.old)) }
    {
        let bytes = source.at_hand();
        let (entry, count) = self.start_for(bytes)?.entry(bytes)?;
        let skipped = source.skip(count);
        if !skipped {
            return None;
        }
        Some(entry)
    }

    // Notes how the line of an entry begins, with which these bytes begin.
    fn note(&mut self, alloc: Global, entry: &Entry, bytes: &[u8]) -> Result<(), AllocError> {
        match entry {
            Entry::Send(message, conf, service) => {
                let said = Said::Send(message.ring, *conf, *service);
                match service {
                    Service::Agreed => self.agreed.note(alloc, said, bytes),
                    Service::Safe => self.safe.note(alloc, said, bytes),
                }
            }
            Entry::Deliver(message, conf) => {
                let said = Said::Deliver(message.ring, *conf);
                self.deliveries.note(alloc, said, bytes)
            }
            Entry::Conf(_, _) | Entry::Fail(_) => Ok(()),
        }
    }

    /// Takes the next line if all of it is at hand and it is a send, a delivery, or a change that repeats the last members. Otherwise takes
    /// nothing.
    #[inline(never)]
    pub fn take_whole<S: Source>(
        &mut self,
        alloc: Global,
        source: &mut S,
        version: Version,
    ) -> Result<Option<Entry>, AllocError>
        ensures taken { (some failed : Bool) → IfOk result (λ found. IfSome found (λ e. Comes (seen S.remaining S.failures source.old)
            (seen S.remaining S.failures source.new) (line_at version false some failed) (λ more. Ok (lines.Entry e, more)))) }
        ensures kept { IfOk result (λ found. IfNone found (Keeps (S.remaining source.old) (S.remaining source.new))) }
        ensures failures { S.failures source.new ≡ S.failures source.old }
    {
        let bytes = source.at_hand();
        let Some((entry, count)) = entry_in(bytes, version, &self.roll) else {
            return Ok(None);
        };
        if count > bytes.len() {
            return Ok(None);
        }
        self.note(alloc, &entry, bytes)?;
        let skipped = source.skip(count);
        if !skipped {
            return Ok(None);
        }
        Ok(Some(entry))
    }
}
