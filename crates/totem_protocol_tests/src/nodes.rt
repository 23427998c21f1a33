//! Nodes, tested by direct calls: inputs are given as words, and each step is reported as text.
use crate::values::{proc, ring};
use bytes::Bytes;
use std::alloc::{AllocError, Global};
use std::fmt;
use std::fmt::Write;
use std::sync::Arc;
use std::test::Fail;
use totem_core::{Input, NodeCore, NodeFault, StepOut};
use totem_evs::{Entry, Members};
use totem_names::{Proc, ProcId, Service};
use totem_packets::{
    Body, CommitMember, CommitMembers, CommitToken, Join, Message, Number, Packet, Payload,
    Processes, Round, TokenSeq,
};
use totem_ring::{Act, To, first_token};

/// Returns a client's message of this many bytes.
fn submit(alloc: Global, bytes: usize) -> Result<Input, AllocError> {
    let payload = Bytes::from_vec(vec![in alloc; 9; bytes]?)?;
    Ok(Input::Submit {
        service: Service::Agreed,
        payload,
    })
}

/// Returns a client's message of this process, the first one on ring 8.1.
fn foreign(sender: u16) -> Input {
    let body = Body::App {
        service: Service::Agreed,
        payload: Payload::of(Bytes::from_static(b"m")),
    };
    Input::Packet(Packet::Message(Message {
        ring: ring(8),
        number: Number::of(1),
        sender: proc(sender),
        body,
    }))
}

/// Returns a commit token with 1 as its only member.
fn commit(alloc: Global) -> Result<Input, Fail> {
    let mut list = Vec::new(alloc);
    list.push(CommitMember {
        proc: proc(1),
        report: None,
    })?;
    let members = CommitMembers::new(list)?;
    Ok(Input::Packet(Packet::Commit(CommitToken {
        ring: ring(8),
        round: Round::First,
        members,
    })))
}

/// Returns a Join of process 2 with this number, which knows the processes 1 to `last`.
fn join(alloc: Global, seq: u32, last: u16) -> Result<Input, Fail> {
    Ok(Input::Packet(Packet::Join(Join {
        sender: proc(2),
        seq: Number::of(seq.max(1)),
        processes: Processes::new(&up_to(alloc, last)?)?,
        failed: Processes::none(),
    })))
}

/// Returns a token of ring 4.1 that the second member has to take.
fn second_token(alloc: Global) -> Input {
    let mut token = first_token(alloc, ring(4));
    token.token_seq = TokenSeq::of(2);
    Input::Packet(Packet::Token(token))
}

/// Returns the input of a word that has a number: `submit` with a number of bytes, `from` with the sender of a message of
/// ring 8.1, `join` with the number of a Join of process 2, `alien` with that of a Join that doesn't know its own sender.
fn numbered_input(alloc: Global, word: &str) -> Result<Option<Input>, Fail> {
    if let Some(bytes) = word.strip_prefix("submit") {
        return Ok(Some(submit(alloc, bytes.parse::<usize>().unwrap_or(0))?));
    }
    if let Some(sender) = word.strip_prefix("from") {
        return Ok(Some(foreign(sender.parse::<u16>().unwrap_or(0))));
    }
    if let Some(seq) = word.strip_prefix("join") {
        return Ok(Some(join(alloc, seq.parse::<u32>().unwrap_or(0), 2)?));
    }
    if let Some(seq) = word.strip_prefix("alien") {
        return Ok(Some(join(alloc, seq.parse::<u32>().unwrap_or(0), 1)?));
    }
    Ok(None)
}

/// Returns the input that a word stands for: one with a number, `token` for the first token of ring 4.1, `second` for one that the
/// second member has to take, `commit`, `crash`, and any other word for a timer.
fn input(alloc: Global, word: &str) -> Result<Input, Fail> {
    if let Some(input) = numbered_input(alloc, word)? {
        return Ok(input);
    }
    match word {
        "token" => Ok(Input::Packet(Packet::Token(first_token(alloc, ring(4))))),
        "second" => Ok(second_token(alloc)),
        "commit" => commit(alloc),
        "crash" => Ok(Input::Crash),
        _ => Ok(Input::Timer),
    }
}

/// Returns the processes from 1 to this one.
fn up_to(alloc: Global, last: u16) -> Result<Vec<ProcId>, AllocError> {
    let mut list = Vec::new(alloc);
    for value in 0..last {
        list.push(proc(value.saturating_add(1)))?;
    }
    Ok(list)
}

/// Returns their first lives, as members.
fn first(alloc: Global, last: u16) -> Result<Members, Fail> {
    let mut list = Vec::new(alloc);
    for value in 0..last {
        list.push(Proc::first(proc(value.saturating_add(1))))?;
    }
    Ok(Members::new(Arc::new(alloc, list)?)?)
}

/// Processes, each with a space in front.
#[derive(Drop)]
struct Spaced<'a>(&'a [ProcId]);

impl fmt::Display for Spaced<'_> {
    fn fmt<W: fmt::Write>(&self, f: &mut fmt::Formatter<W>) -> fmt::Result {
        for proc in self.0 {
            write!(f, " {proc}")?;
        }
        Ok(())
    }
}

/// The receiver of a packet.
#[derive(Drop)]
struct Receiver<'a>(&'a To);

impl fmt::Display for Receiver<'_> {
    fn fmt<W: fmt::Write>(&self, f: &mut fmt::Formatter<W>) -> fmt::Result {
        match self.0 {
            To::All => f.write_str("all"),
            To::One(proc) => write!(f, "{proc}"),
        }
    }
}

/// The kind of a packet, with the number and the sets of a Join.
#[derive(Drop)]
struct Kind<'a>(&'a Packet);

impl fmt::Display for Kind<'_> {
    fn fmt<W: fmt::Write>(&self, f: &mut fmt::Formatter<W>) -> fmt::Result {
        match self.0 {
            Packet::Message(_) => f.write_str("message"),
            Packet::Token(_) => f.write_str("token"),
            Packet::Commit(_) => f.write_str("commit"),
            Packet::Join(join) => write!(
                f,
                "join {}:{} but{}",
                join.seq.get(),
                Spaced(join.processes.as_slice()),
                Spaced(join.failed.as_slice())
            ),
        }
    }
}

fn word_of(act: &Act) -> &'static str {
    match act {
        Act::Submit(_) => "submit",
        Act::Message(_) => "message",
        Act::Token(_) => "token",
        Act::Resend => "resend",
    }
}

/// What a step writes, does on rings and sends.
#[derive(Drop)]
struct Done<'a>(&'a StepOut);

impl fmt::Display for Done<'_> {
    fn fmt<W: fmt::Write>(&self, f: &mut fmt::Formatter<W>) -> fmt::Result {
        for entry in &self.0.entries {
            write!(f, "{entry}; ")?;
        }
        for step in &self.0.ring_steps {
            write!(f, "{} {}; ", word_of(&step.act), step.ring)?;
        }
        for (to, packet) in &self.0.packets {
            write!(f, "{} {}; ", Receiver(to), Kind(packet))?;
        }
        Ok(())
    }
}

/// Adds what a step writes, does on rings and sends, or its fault.
fn push_answer(text: &mut String, answer: Result<StepOut, NodeFault>) -> Result<(), AllocError> {
    match answer {
        Ok(out) => write!(text, "{}", Done(&out)),
        Err(fault) => text.push_str(fault.name()),
    }
}

fn push_copy(alloc: Global, text: &mut String, out: &StepOut) -> Result<(), AllocError> {
    let copy = out.try_clone(alloc)?;
    write!(text, "{}", Done(&copy))
}

/// Adds what the copy of a step writes, does on rings and sends, or the step's fault.
fn push_copied_answer(
    alloc: Global,
    text: &mut String,
    answer: Result<StepOut, NodeFault>,
) -> Result<(), AllocError> {
    match answer {
        Ok(out) => push_copy(alloc, text, &out),
        Err(fault) => text.push_str(fault.name()),
    }
}

fn copied_input(alloc: Global, word: &str) -> Result<Input, Fail> {
    let given = input(alloc, word)?;
    Ok(given.try_clone(alloc)?)
}

/// Adds why a copy of the node refuses this input, or that it takes it.
fn push_refusal(alloc: Global, text: &mut String, node: &NodeCore, word: &str) -> Result<(), Fail> {
    let given = input(alloc, word)?;
    let mut copy = node.try_clone(alloc)?;
    Ok(match copy.step(alloc, given) {
        Ok(_) => text.push_str("taken")?,
        Err(fault) => text.push_str(fault.name())?,
    })
}

/// Takes one step, and reports its outcome.
fn push_step(
    alloc: Global,
    text: &mut String,
    node: &mut NodeCore,
    word: &str,
) -> Result<(), Fail> {
    let given = input(alloc, word)?;
    Ok(push_answer(text, node.step(alloc, given))?)
}

/// Takes one step with a copy of its input, and reports a copy of its outcome.
fn push_copied_step(
    alloc: Global,
    text: &mut String,
    node: &mut NodeCore,
    word: &str,
) -> Result<(), Fail> {
    let given = copied_input(alloc, word)?;
    Ok(push_copied_answer(alloc, text, node.step(alloc, given))?)
}

/// Takes the step of a word: after `copied-` by copies, and after `would-` by a copy of the node, of which only the refusal is reported.
fn push_word(
    alloc: Global,
    text: &mut String,
    node: &mut NodeCore,
    word: &str,
) -> Result<(), Fail> {
    if let Some(asked) = word.strip_prefix("would-") {
        return push_refusal(alloc, text, node, asked);
    }
    match word.strip_prefix("copied-") {
        Some(copied) => push_copied_step(alloc, text, node, copied),
        None => push_step(alloc, text, node, word),
    }
}

/// Gives the node these inputs, one for each word, with `/ ` in front of each step.
fn push_steps(
    alloc: Global,
    text: &mut String,
    node: &mut NodeCore,
    words: &str,
) -> Result<(), Fail> {
    for word in words.split_whitespace() {
        text.push_str("/ ")?;
        push_word(alloc, text, node, word)?;
    }
    Ok(())
}

/// Gives these inputs to a copy of the node.
fn push_steps_of_a_copy(
    alloc: Global,
    text: &mut String,
    node: &NodeCore,
    words: &str,
) -> Result<(), Fail> {
    let mut copy = node.try_clone(alloc)?;
    push_steps(alloc, text, &mut copy, words)
}

/// Gives these inputs to the node, or after the word `copy` to its copy.
fn push_life(
    alloc: Global,
    text: &mut String,
    node: &mut NodeCore,
    words: &str,
) -> Result<(), Fail> {
    match words.strip_prefix("copy ") {
        Some(rest) => push_steps_of_a_copy(alloc, text, node, rest),
        None => push_steps(alloc, text, node, words),
    }
}

/// Returns a node's first entry and its steps.
fn told(alloc: Global, node: &mut NodeCore, change: &Entry, words: &str) -> Result<String, Fail> {
    let mut text = format!(in alloc; "{change}; ")?;
    push_life(alloc, &mut text, node, words)?;
    Ok(text)
}

/// Returns the life of process 1 on ring 4.1, which has these processes.
fn life_among(alloc: Global, members: &Members, words: &str) -> Result<String, Fail> {
    let (mut node, change) = NodeCore::new(
        alloc,
        Proc::first(proc(1)),
        ring(4),
        members.as_slice(),
    )?;
    told(alloc, &mut node, &change, words)
}

/// Returns the life of process 1 on ring 4.1, which has the processes 1 to `count`.
fn life(alloc: Global, count: u16, words: &str) -> Result<String, Fail> {
    let members = first(alloc, count)?;
    life_among(alloc, &members, words)
}

/// The number of the ring's members, the inputs that a node is given, and what it is to report of them.
struct Row {
    members: u16,
    inputs: &'static str,
    told: &'static str,
}

const LIVES: [Row; 17] = [
    Row {
        members: 2,
        inputs: "submit1 token timer",
        told: "conf r4.1 1 2; / / send r4.1 a 4.1#1; dlv r4.1 4.1#1; submit 4.1; token 4.1; all message; 2 token; / resend 4.1; 2 token; ",
    },
    Row {
        members: 2,
        inputs: "crash submit1 token timer crash commit from7",
        told: "conf r4.1 1 2; / fail r4.1; / Stopped/ Stopped/ Stopped/ Stopped/ Stopped/ Stopped",
    },
    Row {
        members: 2,
        inputs: "token from2 token commit",
        told: "conf r4.1 1 2; / token 4.1; 2 token; / OtherRing/ Repeat/ Stale",
    },
    Row {
        members: 32,
        inputs: "from33",
        told: "conf r4.1 1 2 3 4 5 6 7 8 9 10 11 12 13 14 15 16 17 18 19 20 21 22 23 24 25 26 27 28 29 30 31 32; / Stranger",
    },
    Row {
        members: 2,
        inputs: "from7",
        told: "conf r4.1 1 2; / all join 4: 1 2 7 but; ",
    },
    Row {
        members: 2,
        inputs: "submit1024 submit1025",
        told: "conf r4.1 1 2; / / Range",
    },
    Row {
        members: 3,
        inputs: "timer timer timer timer timer",
        told: "conf r4.1 1 2 3; / resend 4.1; / resend 4.1; / all join 4: 1 2 3 but; / all join 4: 1 2 3 but; / all join 4: 1 2 3 but 2 3; 1 commit; ",
    },
    // In Commit a commit token without reports is stale, and the third timer begins a new gathering,
    Row {
        members: 3,
        inputs: "timer timer timer timer timer commit timer timer timer",
        told: "conf r4.1 1 2 3; / resend 4.1; / resend 4.1; / all join 4: 1 2 3 but; / all join 4: 1 2 3 but; / all join 4: 1 2 3 but 2 3; 1 commit; / Stale/ / / all join 8: 1 2 3 but; ",
    },
    // and so does a Join of a process that was thought to have failed.
    Row {
        members: 3,
        inputs: "timer timer timer timer timer join4",
        told: "conf r4.1 1 2 3; / resend 4.1; / resend 4.1; / all join 4: 1 2 3 but; / all join 4: 1 2 3 but; / all join 4: 1 2 3 but 2 3; 1 commit; / all join 8: 1 2 3 but; ",
    },
    // A late Join, one that doesn't know its own sender, and a token for another member change nothing.
    Row {
        members: 2,
        inputs: "join3 alien4 second timer",
        told: "conf r4.1 1 2; / Stale/ Stranger/ Range/ resend 4.1; ",
    },
    // A node that gathers fills no commit token with other members.
    Row {
        members: 2,
        inputs: "from7 commit",
        told: "conf r4.1 1 2; / all join 4: 1 2 7 but; / Stale",
    },
    // A 17th message is refused.
    Row {
        members: 2,
        inputs: "submit1 submit1 submit1 submit1 submit1 submit1 submit1 submit1 submit1 submit1 submit1 submit1 submit1 submit1 submit1 submit1 submit1",
        told: "conf r4.1 1 2; / / / / / / / / / / / / / / / / / Full",
    },
    // What would be refused is reported, and the node itself takes no step.
    Row {
        members: 2,
        inputs: "would-token would-from2 would-from7 would-commit would-join3 would-alien4 would-second would-submit1024 would-submit1025 would-timer would-crash token would-token",
        told: "conf r4.1 1 2; / taken/ OtherRing/ taken/ Stale/ Stale/ Stranger/ Range/ taken/ Range/ taken/ taken/ token 4.1; 2 token; / Repeat",
    },
    Row {
        members: 32,
        inputs: "would-from33 would-join4 crash would-timer would-crash",
        told: "conf r4.1 1 2 3 4 5 6 7 8 9 10 11 12 13 14 15 16 17 18 19 20 21 22 23 24 25 26 27 28 29 30 31 32; / Stranger/ taken/ fail r4.1; / Stopped/ Stopped",
    },
    Row {
        members: 3,
        inputs: "timer timer timer would-token would-alien4 timer timer would-commit would-join4 would-token would-timer",
        told: "conf r4.1 1 2 3; / resend 4.1; / resend 4.1; / all join 4: 1 2 3 but; / Stale/ Stranger/ all join 4: 1 2 3 but; / all join 4: 1 2 3 but 2 3; 1 commit; / Stale/ taken/ Stale/ taken",
    },
    // A copy answers in the same way.
    Row {
        members: 2,
        inputs: "copy token",
        told: "conf r4.1 1 2; / token 4.1; 2 token; ",
    },
    // A step and its input are copied.
    Row {
        members: 2,
        inputs: "copied-submit1 copied-token",
        told: "conf r4.1 1 2; / / send r4.1 a 4.1#1; dlv r4.1 4.1#1; submit 4.1; token 4.1; all message; 2 token; ",
    },
];

/// Lives of a node have the entries, ring steps, packets and refusals that are worked out by hand.
#[test]
fn a_node_tells_its_first_entry_and_its_steps(rt: HostRuntime) -> Result<(), Fail> {
    for row in &LIVES {
        let told = life(rt.alloc(), row.members, row.inputs)?;
        assert_eq!(rt; told.as_str(), row.told, "steps of {}", row.inputs);
    }
    Ok(())
}

/// The fault of a node that has too many messages says so.
#[test]
fn a_fault_says_what_is_wrong(rt: HostRuntime) -> Result<(), Fail> {
    let shown = NodeFault::Full.to_string(rt.alloc())?;
    assert_eq!(rt; shown.as_str(), "16 messages are already waiting");
    Ok(())
}
