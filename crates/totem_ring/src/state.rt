//! A member's state on its ring, and all its steps except the visit of the token. Module `refusals` says why
//! messages and tokens are refused.
ghost use Rattle.std.specs.Prelude.{◌≡◌, ◌==◌, ◌+◌, ◌<◌, ◌++◌, length, position, take, IfOk, IfSome, OnOk, MatchResult, Ok};
ghost use Rattle.totem_ring.specs.Rings.{same_ring};
ghost use Rattle.totem_ring.specs.Steps.{kept_after};
ghost use Rattle.totem_ring.specs.Undoing.{kept_again};

use crate::fault::RingFault;
use crate::held::Held;
use crate::outcome::{RingOut, To};
use crate::undo::{RingUndo, VisitUndo};
use std::alloc::{AllocError, Global};
use std::collections::BTreeMap;
use std::marker::Model;
use totem_names::{ProcId, RingId};
use totem_packets::{Body, Message, Number, Packet, Token};

mod act;
mod visit;

/// How many bodies may wait at most.
pub const MOST_WAITING: usize = 16;

/// One member's state on its ring (docs/PROTOCOL.md, "The ring"). A call that is refused leaves it as it was.
#[derive(Debug, Drop)]
pub struct RingState {
    pub(crate) me: ProcId,
    pub(crate) ring: RingId,
    pub(crate) members: Vec<ProcId>,
    pub(crate) held: Held,
    handed: u32,
    /// Safe messages up to this number may be delivered to the node.
    safe_to: u32,
    /// The aru of the token when it last left here.
    sent_aru: u32,
    /// The token_seq of the token taken last.
    pub(crate) last: u64,
    pub(crate) waiting: Vec<Body>,
    /// The token passed on last, as long as there is no sign that it arrived.
    kept: Option<Token>,
}

impl Model for RingState {
    ghost use Rattle.std.specs.Prelude.{◌<◌, length};
    ghost use Rattle.totem_ring.specs.Rings.{Ring};

    ghost Value = { Ring };

    ghost view = { λ s. record {
      me = s.me;
      ring = s.ring;
      members = s.members.items;
      held = s.held;
      handed = s.handed;
      safe_to = s.safe_to;
      sent_aru = s.sent_aru;
      last = s.last;
      waiting = s.waiting.items;
      kept = s.kept;
    } };

    ghost invariant = { λ s. 0 < length s.members.items };
}

pub fn is_same_ring(a: RingId, b: RingId) -> bool
    ensures { result ≡ same_ring a b }
{
    a.seq == b.seq && a.rep.number() == b.rep.number()
}

/// Returns the index of this process among the members, or `None` if it is not a member.
pub fn place_of(members: &[ProcId], proc: ProcId) -> Option<usize>
    ensures place { result ≡ position (λ p. p == proc) members.now }
    ensures within { IfSome result (λ place. place < length members.now) }
{
    members.iter().position(|p| p.number() == proc.number())
}

/// Forgets the kept token and returns it, if this number is above the token's `seq`.
fn forget_below(kept: &mut Option<Token>, number: Number) -> Option<Token>
    ensures after { kept.new ≡ kept_after kept.old number }
    ensures again { kept_again result kept.new ≡ kept.old }
{
    if kept.as_ref().is_some_and(|token| token.seq < number.get()) {
        return kept.take();
    }
    None
}

/// Appends copies of these bodies. If memory is refused, those already appended stay.
fn put_all(waiting: &mut Vec<Body>, bodies: &[Body]) -> Result<(), AllocError>
    ensures all { OnOk result (waiting.new.items ≡ waiting.old.items ++ bodies.now) }
    ensures before { take (length waiting.old.items) waiting.new.items ≡ waiting.old.items }
{
    for body in bodies {
        waiting.push(body.try_clone()?)?;
    }
    Ok(())
}

impl RingState {
    ghost use Rattle.totem_ring.specs.Rings.{new_ring, next_of, aru_of};
    ghost use Rattle.totem_ring.specs.Steps.{given, submit, adopt, on_message, on_resend};
    ghost use Rattle.totem_ring.specs.Answers.{Answers, AnswersNothing};
    ghost use Rattle.totem_ring.specs.Undoing.{AnswersUndoably, taken_back, visit_taken_back};
    ghost use Rattle.totem_ring.specs.Invariant.{RisesFrom};

    /// Makes the state of a member of a new ring. The members are expected to be strictly ascending, with `me` among them.
    pub fn new(
        alloc: Global,
        me: ProcId,
        ring: RingId,
        members: &[ProcId],
    ) -> Result<RingState, AllocError>
        requires { 0 < length members.now }
        ensures { IfOk result (λ s. s ≡ new_ring me ring members.now) }
    {
        Ok(RingState {
            me,
            ring,
            members: members.to_vec(alloc)?,
            held: Held::new(alloc),
            handed: 0,
            safe_to: 0,
            sent_aru: 0,
            last: 0,
            waiting: Vec::new(alloc),
            kept: None,
        })
    }

    pub fn me(&self) -> ProcId
        ensures { result ≡ self.now.me }
    {
        self.me
    }

    pub fn ring(&self) -> RingId
        ensures { result ≡ self.now.ring }
    {
        self.ring
    }

    /// Returns the members, in the order in which the token passes them.
    pub fn members(&self) -> &[ProcId]
        ensures value { result.now ≡ self.now.members }
        ensures some { 0 < length self.now.members }
    {
        &self.members
    }

    /// Returns the messages that were received or sent here, by number.
    pub fn held(&self) -> &BTreeMap<u32, Message>
        ensures value { result.now.entries ≡ self.now.held }
        ensures rises { RisesFrom 0 self.now.held }
    {
        self.held.as_map()
    }

    /// Returns the greatest n such that messages 1 to n are held.
    pub fn my_aru(&self) -> u32
        ensures { result ≡ aru_of self.now.held }
    {
        self.held.aru()
    }

    /// Returns the greatest number delivered to the node.
    pub fn handed(&self) -> u32
        ensures { result ≡ self.now.handed }
    {
        self.handed
    }

    /// Returns the bodies that wait for the next visit.
    pub fn waiting(&self) -> &[Body]
        ensures { result.now ≡ self.now.waiting }
    {
        &self.waiting
    }

    /// Queues a client's body, or one of a recovery, for the next visit. `Full` if 16 are waiting already.
    pub fn submit(&mut self, body: Body) -> Result<(), RingFault>
        ensures { AnswersNothing result self.old self.new (submit self.old body) }
    {
        if self.waiting.len() >= MOST_WAITING {
            return Err(RingFault::Full);
        }
        self.waiting.push(body)?;
        Ok(())
    }

    /// Queues these bodies for the visit that is about to begin, either all of them or none. Their count is not limited here.
    fn give(&mut self, bodies: &[Body]) -> Result<(), AllocError>
        ensures { MatchResult result (λ u. self.new ≡ given self.old bodies.now) (λ e. self.new ≡ self.old) }
    {
        let waited = self.waiting.len();
        let put = put_all(&mut self.waiting, bodies);
        if put.is_err() {
            self.waiting.truncate(waited);
        }
        put
    }

    /// Holds a message of this ring that was not received on the ring itself (docs/PROTOCOL.md, "The ring", "Adopt").
    /// Nothing is delivered to the node, and the kept token stays.
    pub fn adopt(&mut self, message: &Message) -> Result<(), RingFault>
        ensures { AnswersNothing result self.old self.new (adopt self.old message.now) }
    {
        if let Some(fault) = self.message_refusal(message) {
            return Err(fault);
        }
        Ok(self.held.hold(message)?)
    }

    /// Takes a received message, as `on_message` does. The returned undo can take the step back.
    pub fn on_message_with_undo(
        &mut self,
        alloc: Global,
        message: &Message,
    ) -> Result<(RingOut, RingUndo), RingFault>
        ensures { AnswersUndoably result self.old self.new (on_message self.old message.now) }
    {
        if let Some(fault) = self.message_refusal(message) {
            return Err(fault);
        }
        self.held.hold(message)?;
        let Ok(up) = self.held.going_up(alloc, self.handed, self.safe_to) else {
            self.held.forget(message.number);
            return Err(RingFault::Memory);
        };
        let handed = self.handed;
        self.handed += up.len() as u32;
        let undo = RingUndo::Message {
            number: message.number,
            handed,
            forgotten: forget_below(&mut self.kept, message.number),
        };
        let out = RingOut {
            packets: Vec::new(alloc),
            handed: up,
        };
        Ok((out, undo))
    }

    /// Takes a received message: holds it, and delivers to the node what may be delivered now.
    pub fn on_message(&mut self, alloc: Global, message: &Message) -> Result<RingOut, RingFault>
        ensures { Answers result self.old self.new (on_message self.old message.now) }
    {
        let (out, _undo) = self.on_message_with_undo(alloc, message)?;
        Ok(out)
    }

    /// Takes the last step back, for a caller that is refused memory of its own after the step. `on_message_with_undo` and
    /// `on_token_with_undo` return the undo; for a submit or an adopt the caller makes it.
    pub fn undo(&mut self, undo: RingUndo)
        ensures { self.new ≡ taken_back undo self.old }
    {
        match undo {
            RingUndo::Submit { waited } => self.waiting.truncate(waited),
            RingUndo::Message {
                number,
                handed,
                forgotten,
            } => {
                self.held.forget(number);
                self.handed = handed;
                if let Some(token) = forgotten {
                    self.kept = Some(token);
                }
            }
            RingUndo::Visit {
                seq,
                handed,
                safe_to,
                sent_aru,
                last,
                waiting,
                kept,
            } => {
                self.held.forget_above(seq);
                self.handed = handed;
                self.safe_to = safe_to;
                self.sent_aru = sent_aru;
                self.last = last;
                self.waiting = waiting;
                self.kept = kept;
            }
        }
    }

    /// Takes the last visit back, with the bodies that were given for it. `visit_with` returns the undo.
    pub fn undo_visit(&mut self, visit: VisitUndo)
        ensures { self.new ≡ visit_taken_back visit self.old }
    {
        self.undo(visit.undo);
        self.waiting.truncate(visit.waited);
    }

    pub fn try_clone(&self, alloc: Global) -> Result<RingState, AllocError>
        ensures { IfOk result (λ s. s ≡ self.now) }
    {
        let mut waiting = Vec::with_capacity(alloc, self.waiting.len())?;
        for body in &self.waiting {
            waiting.push(body.try_clone()?)?;
        }
        let kept = match &self.kept {
            None => None,
            Some(token) => Some(token.try_clone(alloc)?),
        };
        Ok(RingState {
            me: self.me,
            ring: self.ring,
            members: self.members.to_vec(alloc)?,
            held: self.held.try_clone(alloc)?,
            handed: self.handed,
            safe_to: self.safe_to,
            sent_aru: self.sent_aru,
            last: self.last,
            waiting,
            kept,
        })
    }

    fn next_member(&self) -> ProcId
        ensures { result ≡ next_of self.now }
    {
        let place = place_of(&self.members, self.me).unwrap_or(0);
        self.members[(place + 1) % self.members.len()]
    }

    /// Sends the kept token to the next member again after a timeout. Sends nothing if no token is kept.
    pub fn on_resend(&self, alloc: Global) -> Result<RingOut, RingFault>
        ensures { Answers result self.now self.now (Ok (on_resend self.now)) }
    {
        let mut packets = Vec::new(alloc);
        if let Some(token) = &self.kept {
            packets.push((
                To::One(self.next_member()),
                Packet::Token(token.try_clone(alloc)?),
            ))?;
        }
        Ok(RingOut {
            packets,
            handed: Vec::new(alloc),
        })
    }
}
