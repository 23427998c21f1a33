//! Books that are woven, and books that fit no schedule.
use crate::books::ring;
use crate::recorded::{books, process, procs};
use std::alloc::{AllocError, Global};
use std::sync::Wait;
use std::test::*;
use totem_books::ClosedBook;
use totem_names::{Proc, ProcId, RingId};
use totem_packets::Message;
use totem_weave::{WeaveFault, Woven, weave};

/// 1 and 2 send a message each. 1's message to 3 is lost, and arrives after the token has requested it.
const LOST: [(u16, &str); 6] = [
    (1, "submit first"),
    (2, "submit 1.2.0 1.2.1"),
    (3, "2.3.0 2.3.1"),
    (1, "submit first 2.3.0 3.2.0"),
    (2, "submit 1.2.0 1.2.1 1.4.0"),
    (3, "2.3.0 2.3.1 1.4.0"),
];

fn tell_handed(
    alloc: Global,
    text: &mut String,
    proc: Proc,
    messages: &[Message],
) -> Result<(), AllocError> {
    let member = proc.written(proc.first_version());
    text.push_str(format!(in alloc; " | {member}:")?.as_str())?;
    for message in messages {
        text.push_str(format!(in alloc; " {}#{}", message.ring, message.number.get())?.as_str())?;
    }
    Ok(())
}

fn tell_woven(alloc: Global, woven: &Woven) -> Result<String, AllocError> {
    let mut text = format!(in alloc; "{} steps", woven.steps.len())?;
    for (proc, messages) in &woven.handed {
        tell_handed(alloc, &mut text, *proc, messages)?;
    }
    Ok(text)
}

fn tell_refused(alloc: Global, fault: WeaveFault) -> Result<String, AllocError> {
    match fault {
        WeaveFault::Orphan(place) => {
            format!(in alloc; "{} {} {place}", fault.number(), fault.name())
        }
        _ => format!(in alloc; "{} {}", fault.number(), fault.name()),
    }
}

fn told(
    alloc: Global,
    books: &[ClosedBook],
    ring: RingId,
    members: &[Proc],
) -> Result<String, Fail> {
    match weave(alloc, books, ring, members) {
        Ok(woven) => Ok(tell_woven(alloc, &woven)?),
        Err(fault) => Ok(tell_refused(alloc, fault)?),
    }
}

/// Weaves the books of these lines, without that of the process `left_out`, with these members in their first
/// lives, and returns the result.
fn woven_without<R: Wait>(
    rt: &R,
    alloc: Global,
    lines: &[(u16, &str)],
    left_out: usize,
    members: &[u16],
) -> Result<String, Fail> {
    let mut books = books(rt, alloc, lines)?;
    if (1..=books.len()).contains(&left_out) {
        let _left = books.remove(left_out - 1);
    }
    told(alloc, &books, ring(), &procs(alloc, members)?)
}

/// A ring on which the first token arrives twice, and a timer sends the token again.
const REPEATED: [(u16, &str); 2] = [
    (1, "submit first submit first timer"),
    (2, "1.2.0 1.2.1 1.5.0"),
];

/// The lines of books, the process whose book is left out (0 if none is), the members, and the result.
struct Row {
    shows: &'static str,
    lines: &'static [(u16, &'static str)],
    left_out: usize,
    members: &'static [u16],
    told: &'static str,
}

const ROWS: [Row; 9] = [
    Row {
        shows: "a lost message is sent again",
        lines: &LOST,
        left_out: 0,
        members: &[1, 2, 3],
        told: "10 steps | 1: 4.1#1 4.1#2 | 2: 4.1#1 4.1#2 | 3: 4.1#1 4.1#2",
    },
    Row {
        shows: "no book sent a message: the call that received it is an orphan",
        lines: &LOST,
        left_out: 2,
        members: &[1, 2, 3],
        told: "2 Orphan 1@3",
    },
    Row {
        shows: "no book sent the token that 2 took, and so 2 did not send what 3 took: the orphan of 2, the least of them, is named",
        lines: &LOST,
        left_out: 1,
        members: &[1, 2, 3],
        told: "2 Orphan 2@2",
    },
    Row {
        shows: "a repeated token, and a refused call between two steps: numbers are given once",
        lines: &REPEATED,
        left_out: 0,
        members: &[1, 2, 3],
        told: "5 steps | 1: 4.1#1 | 2: 4.1#1 | 3:",
    },
    Row {
        shows: "a book with steps on the ring belongs to no member",
        lines: &LOST,
        left_out: 0,
        members: &[2, 3],
        told: "1 Members",
    },
    Row {
        shows: "no member",
        lines: &[],
        left_out: 0,
        members: &[],
        told: "1 Members",
    },
    Row {
        shows: "members that do not ascend",
        lines: &[],
        left_out: 0,
        members: &[1, 3, 2],
        told: "1 Members",
    },
    Row {
        shows: "a member twice",
        lines: &[],
        left_out: 0,
        members: &[1, 1],
        told: "1 Members",
    },
    Row {
        shows: "members need no books",
        lines: &[],
        left_out: 0,
        members: &[1, 2],
        told: "0 steps | 1: | 2:",
    },
];

/// Books are woven, or refused with their least orphan, or for their members.
#[test]
fn books_are_woven_or_refused(rt: HostRuntime) -> Result<(), Fail> {
    for row in &ROWS {
        let told = woven_without(&rt, rt.alloc(), row.lines, row.left_out, row.members)?;
        assert_eq!(rt; told.as_str(), row.told, "{}", row.shows);
    }
    Ok(())
}

/// Returns the number of members' lists with the first `count` processes as members, or the fault's name.
fn members_up_to(alloc: Global, count: u16) -> Result<String, Fail> {
    let mut members = Vec::new(alloc);
    for number in 1..=count {
        members.push(process(number, 1)?)?;
    }
    match weave(alloc, &[], ring(), &members) {
        Ok(woven) => Ok(format!(in alloc; "{}", woven.handed.len())?),
        Err(fault) => Ok(format!(in alloc; "{}", fault.name())?),
    }
}

/// A ring of 32 members is woven, and one of 33 is refused.
#[test]
fn thirty_two_members_at_most(rt: HostRuntime) -> Result<(), Fail> {
    let alloc = rt.alloc();
    assert_eq!(rt; members_up_to(alloc, 32)?.as_str(), "32");
    assert_eq!(rt; members_up_to(alloc, 33)?.as_str(), "Members");
    Ok(())
}

/// Returns ring 8.1, on which no book has a step.
fn other_ring() -> RingId {
    RingId {
        seq: 8,
        rep: ProcId::of(1),
    }
}

/// On ring 8.1 no book has a step, so all members are in their first state. Two books of one process are refused all the same.
#[test]
fn another_ring(rt: HostRuntime) -> Result<(), Fail> {
    let alloc = rt.alloc();
    let members = procs(alloc, &[1, 9])?;
    let mut books = books(&rt, alloc, &LOST)?;
    assert_eq!(rt;
        told(alloc, &books, other_ring(), &members)?.as_str(),
        "0 steps | 1: | 9:"
    );
    let twice = crate::recorded::books(&rt, alloc, &LOST[..1])?;
    for book in twice {
        books.push(book)?;
    }
    assert_eq!(rt;
        told(alloc, &books, other_ring(), &members)?.as_str(),
        "1 Members"
    );
    Ok(())
}

/// 1's book is of its first life, and has steps on ring 4.1: if 1 is a member in its second life, the book is no
/// member's. On ring 8.1 no book has a step.
#[test]
fn a_member_in_another_life(rt: HostRuntime) -> Result<(), Fail> {
    let alloc = rt.alloc();
    let books = books(&rt, alloc, &LOST)?;
    let members = [process(1, 2)?, process(2, 1)?, process(3, 1)?];
    assert_eq!(rt;
        told(alloc, &books, ring(), &members)?.as_str(),
        "1 Members"
    );
    assert_eq!(rt;
        told(alloc, &books, other_ring(), &members)?.as_str(),
        "0 steps | 1:2: | 2: | 3:"
    );
    Ok(())
}

/// Two lives of one identifier can't both be members.
#[test]
fn two_lives_of_one_identifier(rt: HostRuntime) -> Result<(), Fail> {
    let alloc = rt.alloc();
    let members = [process(1, 1)?, process(1, 2)?];
    assert_eq!(rt; told(alloc, &[], ring(), &members)?.as_str(), "1 Members");
    Ok(())
}
