//! The visit of a token. Module `refusals` says why a token is refused.
ghost use Rattle.std.specs.Prelude.{◌≡◌, ◌+◌, ◌^◌, ◌<◌, length, None, IfOk, MatchResult};

use crate::departure::{Departure, sendings, set_aru};
use crate::fault::RingFault;
use crate::outcome::RingOut;
use crate::requests::{Answered, answer, ask_missing};
use crate::state::RingState;
use crate::undo::{RingUndo, VisitUndo};
use std::alloc::{AllocError, Global};
use std::mem;
use totem_packets::{Body, Message, Number, Requests, Token, TokenSeq};

impl RingState {
    ghost use Rattle.totem_ring.specs.Refusals.{token_refusal};
    ghost use Rattle.totem_ring.specs.Steps.{on_token, after_token, given};
    ghost use Rattle.totem_packets.specs.Rising.{IsRequests};
    ghost use Rattle.totem_ring.specs.Visits.{numbered};
    ghost use Rattle.totem_ring.specs.Departures.{IsDeparture, token_left};
    ghost use Rattle.totem_ring.specs.Answers.{Answers};
    ghost use Rattle.totem_ring.specs.Undoing.{AnswersUndoably, IsDoneUndoably, IsVisitedUndoably};

    /// Makes messages of the waiting bodies, numbered from `seq` + 1.
    #[tactic(auto, using(crate::proofs::Missing::numbering))]
    fn numbered(&self, alloc: Global, seq: u32) -> Result<Vec<Message>, AllocError>
        requires { seq + length self.now.waiting < 2 ^ 32 }
        ensures { IfOk result (λ own. own.items ≡ numbered self.now seq self.now.waiting) }
    {
        let mut own = Vec::new(alloc);
        let mut given = seq;
        for body in &self.waiting {
            own.push(Message {
                ring: self.ring,
                number: Number::of(given + 1),
                sender: self.me,
                body: body.try_clone()?,
            })?;
            given += 1;
        }
        Ok(own)
    }

    /// Returns the token as it leaves: `seq` is the last number given, and `rtr` has the numbers still asked for.
    #[tactic(auto, using(crate::proofs::Asking::asked_are))]
    fn token_left(&self, token: &Token, seq: u32, mut rtr: Vec<Number>) -> Result<Token, AllocError>
        requires room { token.now.token_seq + 1 < 2 ^ 64 }
        requires rules { IsRequests rtr.items }
        ensures { IfOk result (λ left. left ≡ token_left self.now token.now seq rtr.items) }
    {
        let (aru, aru_id) = set_aru(self.me, self.held.aru(), seq, token.aru, token.aru_id);
        ask_missing(&mut rtr, &self.held, seq)?;
        Ok(Token {
            ring: self.ring,
            token_seq: TokenSeq::of(token.token_seq.get() + 1),
            seq,
            aru,
            aru_id,
            rtr: Requests::of(rtr),
        })
    }

    /// Returns how the visit ends once the member's own new messages are held.
    fn departure(
        &self,
        alloc: Global,
        token: &Token,
        answered: Answered,
        own: Vec<Message>,
    ) -> Result<Departure, AllocError>
        requires seq { token.now.seq + length own.items < 2 ^ 32 }
        requires token_seq { token.now.token_seq + 1 < 2 ^ 64 }
        requires rules { IsRequests answered.rtr.items }
        ensures { IfOk result (IsDeparture self.now token.now answered own.items) }
    {
        let seq = token.seq + own.len() as u32;
        let leaving = self.token_left(token, seq, answered.rtr)?;
        let safe_to = self.safe_to.max(self.sent_aru.min(leaving.aru));
        let handed = self.held.going_up(alloc, self.handed, safe_to)?;
        let packets = sendings(alloc, answered.messages, own, self.next_member(), &leaving)?;
        Ok(Departure {
            leaving,
            safe_to,
            packets,
            handed,
        })
    }

    /// Takes a token that is not refused. The returned undo can take the visit back.
    fn visit(&mut self, alloc: Global, token: &Token) -> Result<(RingOut, RingUndo), AllocError>
        requires { token_refusal self.old token.now ≡ None }
        ensures { MatchResult result (λ x. IsDoneUndoably x.0 x.1 self.old self.new (after_token self.old token.now)) (λ e. self.new ≡ self.old) }
    {
        let answered = answer(alloc, &self.held, &token.rtr)?;
        let own = self.numbered(alloc, token.seq)?;
        self.held.hold_all(token.seq, &own)?;
        let Ok(departure) = self.departure(alloc, token, answered, own) else {
            self.held.forget_above(token.seq);
            return Err(AllocError);
        };
        let undo = RingUndo::Visit {
            seq: token.seq,
            handed: self.handed,
            safe_to: self.safe_to,
            sent_aru: self.sent_aru,
            last: self.last,
            waiting: mem::replace(&mut self.waiting, Vec::new(alloc)),
            kept: self.kept.take(),
        };
        self.handed += departure.handed.len() as u32;
        self.safe_to = departure.safe_to;
        self.sent_aru = departure.leaving.aru;
        self.last = token.token_seq.get();
        self.kept = Some(departure.leaving);
        let out = RingOut {
            packets: departure.packets,
            handed: departure.handed,
        };
        Ok((out, undo))
    }

    /// Takes a received token, as `on_token` does. The returned undo can take the visit back.
    pub fn on_token_with_undo(
        &mut self,
        alloc: Global,
        token: &Token,
    ) -> Result<(RingOut, RingUndo), RingFault>
        ensures { AnswersUndoably result self.old self.new (on_token self.old token.now) }
    {
        if let Some(fault) = self.token_refusal(token) {
            return Err(fault);
        }
        Ok(self.visit(alloc, token)?)
    }

    /// Takes a token as if these bodies were waiting too, after those that are. `token_refusal_with` says whether the ring would
    /// refuse it then. The returned undo can take the visit back, and the bodies with it.
    pub fn visit_with(
        &mut self,
        alloc: Global,
        bodies: &[Body],
        token: &Token,
    ) -> Result<(RingOut, VisitUndo), AllocError>
        requires { token_refusal (given self.old bodies.now) token.now ≡ None }
        ensures { MatchResult result (λ x. IsVisitedUndoably x.0 x.1 self.old self.new (after_token (given self.old bodies.now) token.now)) (λ e. self.new ≡ self.old) }
    {
        let waited = self.waiting.len();
        self.give(bodies)?;
        match self.visit(alloc, token) {
            Ok((out, undo)) => Ok((out, VisitUndo { undo, waited })),
            Err(e) => {
                self.waiting.truncate(waited);
                Err(e)
            }
        }
    }

    /// Takes a received token: broadcasts the messages that it asks for and those that are waiting, delivers messages to the
    /// node, and passes the token on.
    pub fn on_token(&mut self, alloc: Global, token: &Token) -> Result<RingOut, RingFault>
        ensures { Answers result self.old self.new (on_token self.old token.now) }
    {
        let (out, _undo) = self.on_token_with_undo(alloc, token)?;
        Ok(out)
    }
}
