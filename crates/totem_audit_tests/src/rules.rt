//! The rules of one regular configuration: each says yes to good traffic and no to traffic that breaks it.
use std::alloc::{AllocError, Global};
use std::process::Abort;
use totem_judge_traffic::{
    Following, Got, LogSet, MemberLogs, Sent, Traffic, atomicity_is_met, causality_is_met,
    installed_is_met, is_agreed, no_gap_is_left, own_delivery_is_met, push_pending, safety_is_met,
};
use totem_names::{MsgId, Proc, ProcId, RingId};

fn message(number: u32) -> MsgId {
    let ring = RingId {
        seq: 4,
        rep: ProcId::of(1),
    };
    MsgId {
        ring,
        number: number.max(1),
    }
}

fn first() -> LogSet {
    LogSet::none().with(0)
}

fn second() -> LogSet {
    LogSet::from_bits(0b10)
}

fn both() -> LogSet {
    first().with(1)
}

fn members(logs: LogSet) -> MemberLogs {
    MemberLogs { logs, all: true }
}

/// Two logs change to a configuration. The first sends a safe message 1, which the logs `one` deliver; the second delivers it and
/// sends message 2, which the logs `two` deliver. Neither log has ended.
fn traffic(alloc: Global, one: LogSet, two: LogSet) -> Result<Traffic, AllocError> {
    let mut sent = Vec::new(alloc);
    sent.push(Sent {
        message: message(1),
        sender: 0,
        before: 0,
        by: one,
    })?;
    sent.push(Sent {
        message: message(2),
        sender: 1,
        before: 1,
        by: two,
    })?;
    let mut got = Vec::new(alloc);
    got.push(Got {
        sent: 0,
        sender: 0,
        safe: true,
        regular: one,
        transitional: LogSet::none(),
    })?;
    got.push(Got {
        sent: 1,
        sender: 1,
        safe: false,
        regular: two,
        transitional: LogSet::none(),
    })?;
    Ok(Traffic {
        sent,
        got,
        logs: both(),
        members: members(both()),
        ended: LogSet::none(),
        open: LogSet::none(),
        following: Vec::new(alloc),
    })
}

/// Returns the rules that say no.
fn broken(alloc: Global, traffic: &Traffic) -> Result<String, AllocError> {
    let mut text = String::new(alloc);
    if !own_delivery_is_met(traffic) {
        text.push_str("3 ")?;
    }
    if !atomicity_is_met(traffic) {
        text.push_str("4 ")?;
    }
    if !causality_is_met(traffic) {
        text.push_str("5 ")?;
    }
    if !no_gap_is_left(traffic) {
        text.push_str("6.3 ")?;
    }
    if !safety_is_met(traffic) {
        text.push_str("7.1 ")?;
    }
    if !installed_is_met(traffic) {
        text.push_str("7.2 ")?;
    }
    if is_agreed(traffic) {
        text.push_str("none ")?;
    }
    Ok(text)
}

/// Returns what the rules say if the logs `one` and `two` deliver the messages, and `ended` are the logs that have ended.
fn told(
    alloc: Global,
    one: LogSet,
    two: LogSet,
    ended: LogSet,
    together: LogSet,
) -> Result<String, AllocError> {
    let mut traffic = traffic(alloc, one, two)?;
    traffic.ended = ended;
    traffic.following.push(Following {
        members: members(together),
        logs: together,
        left: LogSet::none(),
    })?;
    broken(alloc, &traffic)
}

fn are(rt: &impl Abort, told: Result<String, AllocError>, wanted: &str) {
    let told = told.expect(rt, "memory");
    assert_eq!(rt; told.as_str(), wanted);
}

/// Good traffic breaks no rule of a configuration, and other traffic exactly the expected ones.
#[test]
fn rules_say_where_traffic_is_broken(rt: HostRuntime) {
    let alloc = rt.alloc();
    let none = LogSet::none();
    are(&rt, told(alloc, both(), both(), none, both()), "none ");
    are(&rt, told(alloc, both(), second(), none, none), "none ");
    are(&rt, told(alloc, both(), second(), none, both()), "4 ");
    are(&rt, told(alloc, both(), first(), none, none), "3 ");
    are(&rt, told(alloc, both(), first(), second(), none), "none ");
    are(&rt, told(alloc, second(), both(), both(), none), "5 6.3 ");
    are(&rt, told(alloc, second(), second(), none, none), "3 7.1 ");
}

/// Safe delivery requires that each member has a log and installs the configuration.
#[test]
fn members_have_to_come(rt: HostRuntime) {
    let alloc = rt.alloc();
    let mut one = traffic(alloc, first(), first()).expect(&rt, "memory");
    one.logs = first();
    one.ended = both();
    are(&rt, broken(alloc, &one), "7.2 ");
    one.members = members(first());
    are(&rt, broken(alloc, &one), "none ");
    one.members.all = false;
    are(&rt, broken(alloc, &one), "7.1 7.2 ");
}

/// A message that a log has not delivered is pending only if the log is open.
#[test]
fn what_an_open_log_lacks_is_pending(rt: HostRuntime) {
    let alloc = rt.alloc();
    let mut traffic = traffic(alloc, both(), second()).expect(&rt, "memory");
    let mut out = Vec::new(alloc);
    let first = Proc::first(ProcId::of(1));
    push_pending(&traffic, 0, first, &mut out).expect(&rt, "memory");
    assert!(rt; out.is_empty());
    traffic.open = both();
    push_pending(&traffic, 0, first, &mut out).expect(&rt, "memory");
    push_pending(&traffic, 1, Proc::first(ProcId::of(2)), &mut out).expect(&rt, "memory");
    assert_eq!(rt; out.len(), 1);
    assert!(rt; out[0].msg == message(2));
}
