//! Rings, tested by direct calls.
use crate::ring_samples::life;
use crate::values::{Case, is_shown_alike, proc, ring};
use std::alloc::{AllocError, Global};
use totem_ring::{Act, RingFault, RingMove, first_token};

/// Returns the move in which member 1 takes the first token.
fn step(alloc: Global) -> RingMove {
    RingMove {
        proc: proc(1),
        act: Act::Token(first_token(alloc, ring(4))),
    }
}

fn is_copied(alloc: Global, step: &RingMove) -> Result<bool, AllocError> {
    let copy = step.try_clone(alloc)?;
    is_shown_alike(alloc, step, &copy)
}

/// Returns whether a move and its copy show the same.
fn is_move_copied(alloc: Global) -> Result<bool, AllocError> {
    is_copied(alloc, &step(alloc))
}

fn copied_move(alloc: Global) -> Result<String, AllocError> {
    let is_copied = is_move_copied(alloc)?;
    format!(in alloc; "{is_copied}")
}

/// Returns what the members of ring 4.1 do.
pub(crate) fn told(alloc: Global, words: &str) -> Result<String, AllocError> {
    let (members, steps) = words.split_once(' ').unwrap_or((words, ""));
    match members {
        "full" => RingFault::Full.to_string(alloc),
        "move" => copied_move(alloc),
        _ => life(alloc, members, steps),
    }
}

pub(crate) const RINGS: [Case; 16] = [
    ("full", "16 messages are already waiting"),
    ("move", "true"),
    // a new member knows its ring, and the first token has no numbers
    ("1-3 who:2 fresh", "who:2 2 4 1 3; fresh 1 0 0 0 0; "),
    // an outcome and its copy show the same
    ("1-2 agreed:1 first:1 shown", "shown 1; "),
    // a new ring holds nothing
    ("1-3 counts:2 resends:2", "counts:2 0 0 0 0; resends:2 0; "),
    // the third member requests what was lost: in the first turn member 3 misses message 1.
    (
        "1-3 agreed:1 agreed:2 first:1 message:2 token:2 message:1 message:3 token:3 next numbers counts:1 counts:2 counts:3",
        "next 1; numbers 4 2 0 3 1; counts:1 2 2 2 0; counts:2 2 2 2 0; counts:3 1 0 0 0; ",
    ),
    // what was lost is sent again
    (
        "1-3 agreed:1 agreed:2 first:1 message:2 token:2 message:1 message:3 token:3 token:1 number handed:3 counts:3",
        "number 1; handed:3 2; counts:3 2 2 2 0; ",
    ),
    // a repeated token gives no numbers
    (
        "1-2 agreed:1 first:1 agreed:1 first:1 counts:1 resend:1 next numbers",
        "first:1 Repeat; counts:1 1 1 1 1; next 2; numbers 2 1 1 0 0; ",
    ),
    // a safe message waits for the second visit
    (
        "1-2 safe:1 first:1 message:2 token:2 up:1 up:2 token:1 up:1 up:2 token:2 up:1 up:2",
        "up:1 0; up:2 0; up:1 1; up:2 0; up:1 1; up:2 1; ",
    ),
    // a sign that the token has arrived ends the resending
    (
        "1-2 agreed:2 first:1 resends:1 token:2 message:1 resends:1",
        "resends:1 1; resends:1 0; ",
    ),
    // an adopted message is held and not delivered to the node
    (
        "1-2 agreed:1 first:1 adopt:2 adopt:2 counts:2 copied:2",
        "adopt:2 Repeat; counts:2 1 1 0 0; copied:2 1 1 0 0; ",
    ),
    // a visit is taken back
    (
        "1-2 agreed:1 token_back:1 counts:1 resends:1 first:1 numbers",
        "token_back:1 1 1 1 0; counts:1 0 0 0 1; resends:1 0; numbers 2 1 1 0 0; ",
    ),
    // a message and a mark are taken back
    (
        "1-2 agreed:1 first:1 message_back:2 counts:2 mark_back:2 counts:2",
        "message_back:2 1 1 1 0; counts:2 0 0 0 0; mark_back:2 0 0 0 1; counts:2 0 0 0 0; ",
    ),
    // messages are refused with their faults
    (
        "1-2 agreed:1 first:1 message:1 sender:3 message:2 ring:8 message:2 adopt:2 counts:2",
        "message:1 Repeat; message:2 Range; message:2 OtherRing; adopt:2 OtherRing; counts:2 0 0 0 0; ",
    ),
    // tokens are refused with their faults
    ("1-2 other:2 first:2", "other:2 OtherRing; first:2 Range; "),
    // the seventeenth body is refused
    ("1-2 fill:1 mark:1 waiting:1", "mark:1 Full; waiting:1 16; "),
];
