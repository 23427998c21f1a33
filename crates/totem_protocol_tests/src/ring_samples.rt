//! Members of a ring for the tests: what they do is given in words, and what they answer is text.
use crate::values::{is_shown_alike, proc, procs, push, push_number, ring, say, state};
use std::alloc::{AllocError, Global};
use totem_names::{ProcId, RingId, Service};
use totem_packets::{Body, Message, Packet, Token};
use totem_ring::{MOST_WAITING, RingFault, RingOut, RingState, RingUndo, To, first_token};

/// Returns the members of ring 4.1, which has these processes.
fn members(alloc: Global, procs: &[ProcId]) -> Result<Vec<RingState>, AllocError> {
    let mut members = Vec::new(alloc);
    for me in procs {
        members.push(state(alloc, *me, ring(4), procs)?)?;
    }
    Ok(members)
}

/// Returns a token's token_seq, seq, aru and aru_id, and the least number that it requests; 0 if there is none.
fn numbers_of(token: &Token) -> [u64; 5] {
    let aru_id = match token.aru_id {
        None => 0,
        Some(proc) => u64::from(proc.number()),
    };
    let least = match token.rtr.as_slice().first() {
        None => 0,
        Some(number) => u64::from(number.get()),
    };
    [
        token.token_seq.get(),
        u64::from(token.seq),
        u64::from(token.aru),
        aru_id,
        least,
    ]
}

/// Returns how many messages a member holds, its my_aru, up to where it delivered to the node, and how many bodies wait.
fn counts_of(state: &RingState) -> [u64; 4] {
    [
        state.held().len() as u64,
        u64::from(state.my_aru()),
        u64::from(state.handed()),
        state.waiting().len() as u64,
    ]
}

/// Returns a member's number, its ring's number and representative, and how many members the ring has.
fn who(state: &RingState) -> [u64; 4] {
    let ring = state.ring();
    [
        u64::from(state.me().number()),
        u64::from(ring.seq),
        u64::from(ring.rep.number()),
        state.members().len() as u64,
    ]
}

/// The result of a step: why it was refused, or numbers.
#[derive(Clone, Copy)]
enum Told {
    Nothing,
    Refusal(&'static str),
    Count(u64),
    Counts([u64; 4]),
    Numbers([u64; 5]),
}

fn refusal(answer: Result<(), RingFault>) -> Told {
    match answer {
        Ok(()) => Told::Nothing,
        Err(fault) => Told::Refusal(fault.name()),
    }
}

/// Takes a step back. Returns the counts after it.
fn taken_back(state: &mut RingState, undo: RingUndo) -> Told {
    let counts = counts_of(state);
    state.undo(undo);
    Told::Counts(counts)
}

/// Submits as many bodies as may wait.
fn fill(state: &mut RingState) -> Told {
    for _ in 0..MOST_WAITING {
        if let Err(fault) = state.submit(say(Service::Agreed)) {
            return Told::Refusal(fault.name());
        }
    }
    Told::Nothing
}

/// Submits a mark and takes it back.
fn mark_back(state: &mut RingState) -> Told {
    match state.submit(Body::Mark) {
        Ok(()) => taken_back(state, RingUndo::Submit { waited: 0 }),
        Err(fault) => Told::Refusal(fault.name()),
    }
}

/// Takes the first token of ring 4.1 and takes the visit back.
fn token_back(alloc: Global, state: &mut RingState) -> Told {
    match state.on_token_with_undo(alloc, &first_token(alloc, ring(4))) {
        Ok((_, undo)) => taken_back(state, undo),
        Err(fault) => Told::Refusal(fault.name()),
    }
}

/// Takes a message and takes the step back.
fn message_back(alloc: Global, state: &mut RingState, message: &Message) -> Told {
    match state.on_message_with_undo(alloc, message) {
        Ok((_, undo)) => taken_back(state, undo),
        Err(fault) => Told::Refusal(fault.name()),
    }
}

/// Takes a message. Returns how many messages are delivered to the node by it.
fn handed(alloc: Global, state: &mut RingState, message: &Message) -> Told {
    match state.on_message(alloc, message) {
        Ok(out) => Told::Count(out.handed.len() as u64),
        Err(fault) => Told::Refusal(fault.name()),
    }
}

/// Gives a message to a member in the way that this word says.
fn hear(alloc: Global, state: &mut RingState, message: &Message, word: &str) -> Told {
    match word {
        "handed" => handed(alloc, state, message),
        "adopt" => refusal(state.adopt(message)),
        "message_back" => message_back(alloc, state, message),
        _ => match handed(alloc, state, message) {
            Told::Refusal(name) => Told::Refusal(name),
            _ => Told::Nothing,
        },
    }
}

/// Returns how many packets a member would send again.
fn resends(alloc: Global, state: &RingState) -> Told {
    match state.on_resend(alloc) {
        Ok(out) => Told::Count(out.packets.len() as u64),
        Err(fault) => Told::Refusal(fault.name()),
    }
}

/// Returns the counts of a copy.
fn copied(alloc: Global, state: &RingState) -> Told {
    match state.try_clone(alloc) {
        Ok(copy) => Told::Counts(counts_of(&copy)),
        Err(_) => Told::Refusal("no memory"),
    }
}

/// Does what this word says if it needs no packet, or answers what it asks.
fn alone(alloc: Global, state: &mut RingState, word: &str) -> Told {
    match word {
        "agreed" => refusal(state.submit(say(Service::Agreed))),
        "safe" => refusal(state.submit(say(Service::Safe))),
        "mark" => refusal(state.submit(Body::Mark)),
        "fill" => fill(state),
        "mark_back" => mark_back(state),
        "token_back" => token_back(alloc, state),
        "resends" => resends(alloc, state),
        "copied" => copied(alloc, state),
        "up" => Told::Count(u64::from(state.handed())),
        "waiting" => Told::Count(state.waiting().len() as u64),
        "counts" => Told::Counts(counts_of(state)),
        "who" => Told::Counts(who(state)),
        _ => Told::Refusal("no such word"),
    }
}

/// Returns the token that was passed on.
fn token_of(out: &RingOut) -> Option<&Token> {
    match out.packets.last() {
        Some((To::One(_), Packet::Token(token))) => Some(token),
        _ => None,
    }
}

/// Returns the message that was broadcast first.
fn message_of(out: &RingOut) -> Option<&Message> {
    match out.packets.first() {
        Some((To::All, Packet::Message(message))) => Some(message),
        _ => None,
    }
}

/// Returns the same message, to be altered.
fn message_in(out: &mut RingOut) -> Option<&mut Message> {
    match out.packets.first_mut() {
        Some((To::All, Packet::Message(message))) => Some(message),
        _ => None,
    }
}

/// Returns the member that gets the token next.
fn next(out: &RingOut) -> Told {
    match out.packets.last() {
        Some((To::One(next), Packet::Token(_))) => Told::Count(u64::from(next.number())),
        _ => Told::Refusal("no token"),
    }
}

fn numbers(out: &RingOut) -> Told {
    match token_of(out) {
        Some(token) => Told::Numbers(numbers_of(token)),
        None => Told::Refusal("no token"),
    }
}

/// Returns the number of the message that was broadcast first.
fn number(out: &RingOut) -> Told {
    match message_of(out) {
        Some(message) => Told::Count(u64::from(message.number.get())),
        None => Told::Refusal("no message"),
    }
}

/// Returns 1 if the outcome of a step and its copy show the same.
fn shown(alloc: Global, out: &RingOut) -> Told {
    let Ok(copy) = out.try_clone(alloc) else {
        return Told::Refusal("no memory");
    };
    match is_shown_alike(alloc, out, &copy) {
        Ok(is_alike) => Told::Count(u64::from(is_alike)),
        Err(_) => Told::Refusal("no memory"),
    }
}

/// Gives the message this sender, or its ring this number.
fn alter(out: &mut RingOut, word: &str, value: u16) -> Told {
    let Some(message) = message_in(out) else {
        return Told::Refusal("no message");
    };
    if word == "sender" {
        message.sender = proc(value);
    } else {
        message.ring = ring(u32::from(value));
    }
    Told::Nothing
}

/// The members of ring 4.1, and the outcome of the last visit or resend.
#[derive(Drop)]
struct World {
    members: Vec<RingState>,
    out: RingOut,
}

impl World {
    fn new(alloc: Global, procs: &[ProcId]) -> Result<World, AllocError> {
        let members = members(alloc, procs)?;
        let out = RingOut {
            packets: Vec::new(alloc),
            handed: Vec::new(alloc),
        };
        Ok(World { members, out })
    }

    fn takes(&mut self, answer: Result<RingOut, RingFault>) -> Told {
        match answer {
            Ok(out) => {
                self.out = out;
                Told::Nothing
            }
            Err(fault) => Told::Refusal(fault.name()),
        }
    }

    /// Gives a member the first token of this ring.
    fn first(&mut self, alloc: Global, at: usize, ring: RingId) -> Told {
        let Some(member) = self.members.get_mut(at) else {
            return Told::Refusal("no member");
        };
        let answer = member.on_token(alloc, &first_token(alloc, ring));
        self.takes(answer)
    }

    /// Gives a member the token that was passed on.
    fn token(&mut self, alloc: Global, at: usize) -> Told {
        let Some(token) = token_of(&self.out) else {
            return Told::Refusal("no token");
        };
        let Some(member) = self.members.get_mut(at) else {
            return Told::Refusal("no member");
        };
        let answer = member.on_token(alloc, token);
        self.takes(answer)
    }

    /// Lets a member send its token again.
    fn resend(&mut self, alloc: Global, at: usize) -> Told {
        let Some(member) = self.members.get(at) else {
            return Told::Refusal("no member");
        };
        let answer = member.on_resend(alloc);
        self.takes(answer)
    }

    /// Gives a member the message that was broadcast first.
    fn message(&mut self, alloc: Global, word: &str, at: usize) -> Told {
        let Some(message) = message_of(&self.out) else {
            return Told::Refusal("no message");
        };
        let Some(member) = self.members.get_mut(at) else {
            return Told::Refusal("no member");
        };
        hear(alloc, member, message, word)
    }

    fn alone(&mut self, alloc: Global, word: &str, at: usize) -> Told {
        let Some(member) = self.members.get_mut(at) else {
            return Told::Refusal("no member");
        };
        alone(alloc, member, word)
    }

    /// Does one step: what this word stands for, at the member with this number or with this value.
    fn step(&mut self, alloc: Global, word: &str, value: u16) -> Told {
        let at = usize::from(value).saturating_sub(1);
        match word {
            "first" => self.first(alloc, at, ring(4)),
            "other" => self.first(alloc, at, ring(8)),
            "token" => self.token(alloc, at),
            "resend" => self.resend(alloc, at),
            "message" | "handed" | "adopt" | "message_back" => self.message(alloc, word, at),
            "sender" | "ring" => alter(&mut self.out, word, value),
            "next" => next(&self.out),
            "numbers" => numbers(&self.out),
            "number" => number(&self.out),
            "shown" => shown(alloc, &self.out),
            "fresh" => Told::Numbers(numbers_of(&first_token(alloc, ring(4)))),
            _ => self.alone(alloc, word, at),
        }
    }
}

fn push_numbers(alloc: Global, text: &mut String, numbers: &[u64]) -> Result<(), AllocError> {
    for number in numbers {
        push_number(alloc, text, *number)?;
    }
    text.push_str("; ")
}

/// Adds the result of a step after its word, or nothing if it has none.
fn push_told(alloc: Global, text: &mut String, word: &str, told: Told) -> Result<(), AllocError> {
    match told {
        Told::Nothing => return Ok(()),
        _ => text.push_str(word)?,
    }
    match told {
        Told::Nothing => Ok(()),
        Told::Refusal(name) => push(text, format!(in alloc; " {name}; ")),
        Told::Count(count) => push_numbers(alloc, text, &[count]),
        Told::Counts(counts) => push_numbers(alloc, text, &counts),
        Told::Numbers(numbers) => push_numbers(alloc, text, &numbers),
    }
}

/// Does what each word says, and returns the results. A word is what is done, `:`, and the member's number.
fn steps(alloc: Global, world: &mut World, words: &str) -> Result<String, AllocError> {
    let mut text = String::new(alloc);
    for word in words.split_whitespace() {
        let (verb, number) = word.split_once(':').unwrap_or((word, "0"));
        let told = world.step(alloc, verb, number.parse::<u16>().unwrap_or(0));
        push_told(alloc, &mut text, word, told)?;
    }
    Ok(text)
}

/// Returns the steps of the members of ring 4.1, which has these processes.
pub fn life(alloc: Global, members: &str, words: &str) -> Result<String, AllocError> {
    let procs = procs(alloc, members)?;
    let mut world = World::new(alloc, &procs)?;
    steps(alloc, &mut world, words)
}
