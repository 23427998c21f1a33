//! Two old rings become one: members 1 and 2 come from ring 4.1 and member 3 from 8.3, and all three form ring 12.1.
//!
//! Ring 4.1 had the members 1, 2 and 4. Message 1 is agreed, of 1, and both hold it; 2 is agreed, of 4, and only 1
//! holds it; 3 is safe, of 2, and both hold it; neither holds 4; 5 is agreed, of 4, and only 1 holds it; 6 is agreed, of
//! 2, and only 2 holds it. So the least aru is 1, the greatest delivered number 2, and O has 1 and 2.
use crate::recovery_samples::{begun_with, heard_ring, push_left, ring_of, ring_with};
use crate::values::{Case, proc, push, ring};
use std::alloc::{AllocError, Global};
use std::test::Fail;
use totem_packets::{Body, Message, Packet, Token};
use totem_recover::Recovery;
use totem_ring::{RingOut, RingState, To, first_token};

/// A member, with its old ring and the new one.
#[derive(Drop)]
struct Node {
    prev: RingState,
    ring: RingState,
    recovery: Recovery,
}

/// Returns a member that comes from an old ring of these processes, with these messages of it.
fn make_node(
    alloc: Global,
    me: u16,
    old: &str,
    members: &str,
    messages: &str,
) -> Result<Node, Fail> {
    let me = proc(me);
    let prev = heard_ring(alloc, me, ring_of(old), members, messages)?;
    let recovery = begun_with(alloc, me, &prev, ring(12), "1:4.1:3:2 2:4.1:1:1 3:8.3:1:1")?;
    let ring = ring_with(alloc, me, ring(12), "1-3")?;
    Ok(Node {
        prev,
        ring,
        recovery,
    })
}

/// Each member's number, its old ring, the members of that ring, and the messages that it holds of it.
const MEMBERS: [(u16, &str, &str, &str); 3] = [
    (1, "4.1", "1,2,4", "1:1 2:4 3:2:safe 5:4"),
    (2, "4.1", "1,2,4", "1:1 3:2:safe 6:2"),
    (3, "8.3", "3", "1:3"),
];

fn three_members(alloc: Global) -> Result<Vec<Node>, Fail> {
    let mut nodes = Vec::new(alloc);
    for (me, old, members, messages) in &MEMBERS {
        nodes.push(make_node(alloc, *me, old, members, messages)?)?;
    }
    Ok(nodes)
}

/// Returns the old ring's message that this body carries.
fn carried(body: &Body) -> Result<Option<Message>, AllocError> {
    Ok(match body {
        Body::App { .. } => None,
        Body::Old {
            ring,
            number,
            sender,
            service,
            payload,
        } => Some(Message {
            ring: *ring,
            number: *number,
            sender: *sender,
            body: Body::App {
                service: *service,
                payload: payload.try_clone()?,
            },
        }),
        Body::Mark => None,
    })
}

impl Node {
    /// Takes the token. Returns what the visit sent, and whether the recovery is done.
    fn visit(&mut self, alloc: Global, token: &Token) -> Result<(RingOut, bool), Fail> {
        for body in self.recovery.next_bodies(alloc)? {
            self.ring.submit(body)?;
        }
        let out = self.ring.on_token(alloc, token)?;
        let done = self.recovery.on_ring(&self.ring, &out);
        Ok((out, done))
    }

    /// Takes a message that another member broadcast, and adopts what it carries.
    fn hear(&mut self, alloc: Global, message: &Message) -> Result<(), Fail> {
        self.ring.on_message(alloc, message)?;
        if let Some(old) = carried(&message.body)? {
            let _ = self.prev.adopt(&old);
        }
        Ok(())
    }

    /// Takes what a member's visit broadcast. To the member that sent it, it is a repeat.
    fn hear_all(&mut self, alloc: Global, out: &RingOut) -> Result<(), Fail> {
        for (to, packet) in &out.packets {
            if let (To::All, Packet::Message(message)) = (to, packet) {
                if message.sender != self.ring.me() {
                    self.hear(alloc, message)?;
                }
            }
        }
        Ok(())
    }
}

/// Returns the token that a visit passed on.
fn passed_on(alloc: Global, out: &RingOut) -> Result<Token, Fail> {
    let Some((_, Packet::Token(token))) = out.packets.last() else {
        return Err("no token was passed on".into());
    };
    Ok(token.try_clone(alloc)?)
}

/// The three members, the token that was passed on last, and the turns, counted from 0, at which a member was done.
#[derive(Drop)]
struct World {
    nodes: Vec<Node>,
    token: Token,
    done_at: Vec<usize>,
}

impl World {
    /// Lets the member take the token whose turn it is.
    fn visit(&mut self, alloc: Global, turn: usize) -> Result<RingOut, Fail> {
        let Some(node) = self.nodes.get_mut(turn % 3) else {
            return Err("no such member".into());
        };
        let (out, done) = node.visit(alloc, &self.token)?;
        if done {
            self.done_at.push(turn)?;
        }
        Ok(out)
    }

    /// Gives the other members what a visit sent.
    fn hear(&mut self, alloc: Global, out: &RingOut) -> Result<(), Fail> {
        for node in self.nodes.iter_mut() {
            node.hear_all(alloc, out)?;
        }
        Ok(())
    }

    fn turn(&mut self, alloc: Global, turn: usize) -> Result<(), Fail> {
        let out = self.visit(alloc, turn)?;
        self.hear(alloc, &out)?;
        self.token = passed_on(alloc, &out)?;
        Ok(())
    }
}

/// Adds for each member its number, the last mark, and to how many processes it owes messages.
fn push_marks(alloc: Global, text: &mut String, nodes: &[Node]) -> Result<(), AllocError> {
    for node in nodes {
        let last = node.recovery.last_mark(&node.ring).unwrap_or(0);
        let owed = node.recovery.obligation().as_slice().len();
        push(
            text,
            format!(in alloc; "{}: {last} {owed}; ", node.ring.me()),
        )?;
    }
    Ok(())
}

/// Adds what each member writes when it leaves its old ring.
fn push_all_left(alloc: Global, text: &mut String, nodes: &[Node]) -> Result<(), AllocError> {
    for node in nodes {
        push_left(alloc, text, &node.recovery, &node.prev)?;
        text.push_str("/ ")?;
    }
    Ok(())
}

/// Adds the turns at which a member was done, and how many members are done.
fn push_done(alloc: Global, text: &mut String, world: &World) -> Result<(), AllocError> {
    for turn in &world.done_at {
        push(text, format!(in alloc; "{turn} "))?;
    }
    let mut count = 0usize;
    for node in &world.nodes {
        if node.recovery.is_done(&node.ring) {
            count = count.saturating_add(1);
        }
    }
    push(text, format!(in alloc; "by {count}"))
}

/// Adds what a word asks for.
fn push_asked(
    alloc: Global,
    text: &mut String,
    world: &World,
    word: &str,
) -> Result<(), AllocError> {
    match word {
        "marks" => push_marks(alloc, text, &world.nodes),
        "left" => push_all_left(alloc, text, &world.nodes),
        _ => push_done(alloc, text, world),
    }
}

/// Passes the token this many times, and then answers what is asked.
fn turns(alloc: Global, world: &mut World, turns: usize, asked: &str) -> Result<String, Fail> {
    for turn in 0..turns {
        world.turn(alloc, turn)?;
    }
    let mut text = String::new(alloc);
    push_asked(alloc, &mut text, world, asked)?;
    Ok(text)
}

pub(crate) fn told(alloc: Global, words: &str) -> Result<String, Fail> {
    let (count, asked) = words.split_once(' ').unwrap_or((words, ""));
    let mut world = World {
        nodes: three_members(alloc)?,
        token: first_token(alloc, ring(12)),
        done_at: Vec::new(alloc),
    };
    turns(
        alloc,
        &mut world,
        count.parse::<usize>().unwrap_or(0),
        asked,
    )
}

/// The number of turns of the token, what is asked after them, and the answer.
pub(crate) const EXCHANGES: [Case; 4] = [
    // each sends its list: 1 to 4 are of 1, 5 to 7 of 2, 8 of 3; the last member holds all marks, and owes messages to itself
    ("3 marks", "1: 8 0; 2: 8 0; 3: 8 1; "),
    // no member is done in the first round
    ("3 done", "by 0"),
    // a member is done when it has passed the token on twice with the last number: first the third, then the others
    ("9 done", "5 6 7 8 by 3"),
    (
        "9 left",
        "conf t12.1/1 1 2; dlv t12.1/1 4.1#3; dlv t12.1/1 4.1#6; conf r12.1 1 2 3; / dlv r4.1 4.1#2; conf t12.1/1 1 2; dlv t12.1/1 4.1#3; dlv t12.1/1 4.1#6; conf r12.1 1 2 3; / conf t12.1/3 3; conf r12.1 1 2 3; / ",
    ),
];
