//! The finish that was worked out by hand, and each call of a recovery on a state that is made for it.
use crate::recovery_samples::{
    begun_with, hear, heard_ring, message, push_left, ring_of, ring_with, token,
};
use crate::values::{Case, part, proc, push_number, push_procs, push_truth, ring, say};
use std::alloc::{AllocError, Global};
use std::fmt::Display;
use std::test::Fail;
use totem_names::{ProcId, Service};
use totem_packets::{Body, Packet};
use totem_recover::{Recovery, is_ready};
use totem_ring::{RingOut, RingState, To};

/// Returns ring 4.1 of 1, 2 and 3 as 1 sees it after it has taken these messages.
fn old_ring(alloc: Global, messages: &str) -> Result<RingState, Fail> {
    heard_ring(alloc, proc(1), ring(4), "1-3", messages)
}

/// Begins the recovery of 1 with the token of ring 8.1 of these members.
fn begun(alloc: Global, prev: &RingState, members: &str) -> Result<Recovery, Fail> {
    begun_with(alloc, proc(1), prev, ring(8), members)
}

/// Returns up to which number messages are delivered to the node after it has taken these.
fn handed(alloc: Global, messages: &str) -> Result<u32, Fail> {
    let prev = old_ring(alloc, messages)?;
    Ok(prev.handed())
}

/// Returns what is written when the ring is left after these messages, if these are the new ring's members.
fn left_with(alloc: Global, messages: &str, members: &str) -> Result<String, Fail> {
    let prev = old_ring(alloc, messages)?;
    let recovery = begun(alloc, &prev, members)?;
    told_left(alloc, &recovery, &prev)
}

/// Returns what is written when the ring is left after these messages. 1 and 2 come from 4.1, and 2 has delivered up to 3.
fn left(alloc: Global, messages: &str) -> Result<String, Fail> {
    left_with(alloc, messages, "1:4.1:6:2 2:4.1:6:3")
}

fn told_left(alloc: Global, recovery: &Recovery, prev: &RingState) -> Result<String, Fail> {
    let mut text = String::new(alloc);
    push_left(alloc, &mut text, recovery, prev)?;
    Ok(text)
}

fn is_ready_for(alloc: Global, me: ProcId, prev: &RingState, members: &str) -> Result<bool, Fail> {
    let token = token(alloc, ring(8), members)?;
    Ok(is_ready(me, prev, &token))
}

/// Returns whether the process of a word such as `1:4.1` may begin a recovery with these members. It comes from this
/// ring of 1, 2 and 3, as 1 sees it.
fn may_begin(alloc: Global, words: &str) -> Result<bool, Fail> {
    let (word, members) = words.split_once(' ').unwrap_or((words, ""));
    let prev = ring_with(alloc, proc(1), ring_of(part(word, 1)), "1-3")?;
    let me = proc(part(word, 0).parse::<u16>().unwrap_or(0));
    is_ready_for(alloc, me, &prev, members)
}

/// Returns the number on the old ring of the message that a body carries, or 0 for a mark.
fn number_in(body: &Body) -> u32 {
    match body {
        Body::App { .. } => 1,
        Body::Old { number, .. } => number.get(),
        Body::Mark => 0,
    }
}

fn push_numbers(alloc: Global, text: &mut String, bodies: &[Body]) -> Result<(), AllocError> {
    for body in bodies {
        push_number(alloc, text, u64::from(number_in(body)))?;
    }
    Ok(())
}

fn to_all(number: u32, sender: u16, body: Body) -> (To, Packet) {
    (
        To::All,
        Packet::Message(message(ring(8), number, sender, body)),
    )
}

/// Returns what a visit of 1 sends: message 1 of 2, which was requested, and messages of its own from `first` on, below `end`.
fn sent(alloc: Global, first: u32, end: u32) -> Result<RingOut, AllocError> {
    let mut packets = Vec::new(alloc);
    packets.push(to_all(1, 2, Body::Mark))?;
    for number in first..end {
        packets.push(to_all(number, 1, say(Service::Agreed)))?;
    }
    Ok(RingOut {
        packets,
        handed: Vec::new(alloc),
    })
}

/// The long recovery of 1, with ring 8.1 of 1 and 2.
#[derive(Drop)]
struct Life {
    recovery: Recovery,
    ring: RingState,
}

impl Life {
    /// Replaces the recovery by a copy.
    fn copies(&mut self, alloc: Global) -> Result<(), AllocError> {
        let copy = self.recovery.try_clone(alloc)?;
        self.recovery = copy;
        Ok(())
    }

    fn next(&self, alloc: Global, text: &mut String) -> Result<(), AllocError> {
        let bodies = self.recovery.next_bodies(alloc)?;
        push_numbers(alloc, text, &bodies)
    }

    fn last(&self, alloc: Global, text: &mut String) -> Result<(), AllocError> {
        match self.recovery.last_mark(&self.ring) {
            None => text.push_str(" none"),
            Some(number) => push_number(alloc, text, u64::from(number)),
        }
    }

    /// Adds what this word asks: the next numbers, the last mark, whether the recovery is done, and to whom
    /// messages are owed.
    fn asked(&self, alloc: Global, text: &mut String, word: &str) -> Result<(), AllocError> {
        match word {
            "next" => self.next(alloc, text),
            "last" => self.last(alloc, text),
            "done" => push_truth(text, self.recovery.is_done(&self.ring)),
            "owed" => push_procs(alloc, text, self.recovery.obligation().as_slice()),
            _ => text.push_str(" no such word"),
        }
    }

    /// Notes a visit that sends the numbers of a word such as `2:18`, from 2 on, below 18. Adds whether the recovery is done.
    fn visits(&mut self, alloc: Global, text: &mut String, word: &str) -> Result<(), AllocError> {
        let first = part(word, 0).parse::<u32>().unwrap_or(0);
        let out = sent(alloc, first, part(word, 1).parse::<u32>().unwrap_or(0))?;
        push_truth(text, self.recovery.on_ring(&self.ring, &out))
    }

    /// Does what a word says: a visit, a message that is taken, replacing the recovery by a copy, or a question.
    fn does(&mut self, alloc: Global, text: &mut String, word: &str) -> Result<(), Fail> {
        match word.split_once(':') {
            Some(("visit", numbers)) => Ok(self.visits(alloc, text, numbers)?),
            Some((_, message)) => hear(alloc, &mut self.ring, message),
            None if word == "copy" => Ok(self.copies(alloc)?),
            None => Ok(self.asked(alloc, text, word)?),
        }
    }

    /// Returns each word, and its answer.
    fn tells(&mut self, alloc: Global, words: &str) -> Result<String, Fail> {
        let mut text = String::new(alloc);
        for word in words.split_whitespace() {
            text.push_str(word)?;
            self.does(alloc, &mut text, word)?;
            text.push_str("; ")?;
        }
        Ok(text)
    }
}

/// The messages 1 to 22 of 2.
const LONG: &str =
    "1:2 2:2 3:2 4:2 5:2 6:2 7:2 8:2 9:2 10:2 11:2 12:2 13:2 14:2 15:2 16:2 17:2 18:2 19:2 20:2 21:2 22:2";

/// Begins the recovery of 1, which holds messages 1 to 22 of ring 4.1. 2 has the aru 2, and 1 owed messages to 3 before.
fn long_recovery(alloc: Global) -> Result<Recovery, Fail> {
    let prev = old_ring(alloc, LONG)?;
    begun(alloc, &prev, "1:4.1:22:22:3 2:4.1:2:2")
}

/// Returns what these words do and ask of that recovery, with ring 8.1 of 1 and 2, which holds nothing yet.
fn long(alloc: Global, words: &str) -> Result<String, Fail> {
    let recovery = long_recovery(alloc)?;
    let ring = ring_with(alloc, proc(1), ring(8), "1,2")?;
    Life { recovery, ring }.tells(alloc, words)
}

fn shown<T: Display + Drop>(alloc: Global, answer: Result<T, Fail>) -> Result<String, Fail> {
    match answer {
        Ok(value) => Ok(format!(in alloc; "{value}")?),
        Err(fault) => Err(fault),
    }
}

pub(crate) fn told(alloc: Global, words: &str) -> Result<String, Fail> {
    let (kind, rest) = words.split_once(' ').unwrap_or((words, ""));
    match kind {
        "handed" => shown(alloc, handed(alloc, rest)),
        "may_begin" => shown(alloc, may_begin(alloc, rest)),
        "left" => left(alloc, rest),
        "left_with" => left_with(alloc, "", rest),
        _ => long(alloc, rest),
    }
}

pub(crate) const RECOVERIES: [Case; 14] = [
    // a safe message is not delivered to the node at once
    ("handed 1:1 2:2 3:3:safe 4:1 5:2:safe 6:1 8:1 9:3", "2"),
    // 3 is safe and sent by 3, 5 is safe and sent by 2, the others are agreed; 7 is missing
    (
        "left 1:1 2:2 3:3:safe 4:1 5:2:safe 6:1 8:1 9:3",
        "dlv r4.1 4.1#3; dlv r4.1 4.1#4; conf t8.1/1 1 2; dlv t8.1/1 4.1#5; dlv t8.1/1 4.1#6; dlv t8.1/1 4.1#8; conf r8.1 1 2; ",
    ),
    // a mark of 3 writes no entry
    (
        "left 1:3:mark 2:2",
        "dlv r4.1 4.1#2; conf t8.1/1 1 2; conf r8.1 1 2; ",
    ),
    // members are written in the lives that they reported: 4 comes from a ring of its own
    (
        "left_with 1:4.1:0:0::2 2:4.1:0:0 4:9.4:0:0::65535",
        "conf t8.1/1 1:2 2; conf r8.1 1:2 2 4:65535; ",
    ),
    // a long list is sent in parts
    (
        "long next visit:2:18 next",
        "next 3 4 5 6 7 8 9 10 11 12 13 14 15 16 17 18; visit:2:18 no; next 19 20 21 22 0; ",
    ),
    // a copy continues in the same way
    (
        "long visit:2:18 copy next",
        "visit:2:18 no; copy; next 19 20 21 22 0; ",
    ),
    // a message that is requested again does not count once more
    (
        "long visit:2:18 visit:15:20 next visit:20:23 next",
        "visit:2:18 no; visit:15:20 no; next 21 22 0; visit:20:23 no; next; ",
    ),
    // the least mark counts: there are two marks of 1, one of 2, and message 2 is missing
    (
        "long hear:1:1:mark hear:3:2:mark hear:4:1:mark last done",
        "hear:1:1:mark; hear:3:2:mark; hear:4:1:mark; last 3; done no; ",
    ),
    // messages are owed once the aru has reached the marks
    (
        "long hear:1:1:mark hear:3:2:mark hear:4:1:mark visit:2:2 owed hear:2:2 visit:2:2 owed",
        "hear:1:1:mark; hear:3:2:mark; hear:4:1:mark; visit:2:2 no; owed 3; hear:2:2; visit:2:2 no; owed 1 2 3; ",
    ),
    // a recovery begins for a member that comes from its ring
    ("may_begin 1:4.1 1:4.1:6:2 2:4.1:6:3", "true"),
    ("may_begin 3:4.1 1:4.1:6:2 2:4.1:6:3", "false"),
    ("may_begin 1:8.1 1:4.1:6:2 2:4.1:6:3", "false"),
    // an obligation set has at most 32 processes, 1 among them
    ("may_begin 1:4.1 1:4.1:0:0:2-32", "true"),
    ("may_begin 1:4.1 1:4.1:0:0:2-33", "false"),
];
