//! The weave under way.
ghost use Rattle.std.specs.Prelude.{◌≡◌, ℕ, ◌<◌, ◌++◌, length, map, slice_get, Some, IfOk, OnOk, IfSome, IfNone};
ghost use Rattle.totem_weave.specs.Weaving.{first_seats};

use crate::seat::Seat;
use crate::sent::Sent;
use crate::track::Track;
use std::alloc::{AllocError, Global};
use totem_names::{ProcId, RingId};
use totem_packets::Packet;
use totem_ring::{RingMove, RingState, first_token};

/// The state of each member, what was sent, and the moves so far.
#[derive(Drop)]
pub struct Weaver {
    ring: RingId,
    seats: Vec<Seat>,
    sent: Sent,
    moves: Vec<RingMove>,
}

fn members_of(alloc: Global, tracks: &[Track]) -> Result<Vec<ProcId>, AllocError>
    ensures { IfOk result (λ members. members.items ≡ map (λ t. t.proc) tracks.now) }
{
    let mut members = Vec::new(alloc);
    for track in tracks {
        members.push(track.proc)?;
    }
    Ok(members)
}

/// Returns each member of the new ring, before its first step.
fn seats_of(
    alloc: Global,
    ring: RingId,
    tracks: &[Track],
    members: &[ProcId],
) -> Result<Vec<Seat>, AllocError>
    requires { 0 < length members.now }
    ensures { IfOk result (λ seats. seats.items ≡ first_seats ring members.now tracks.now) }
{
    let mut seats = Vec::new(alloc);
    for track in tracks {
        let state = RingState::new(alloc, track.proc, ring, members)?;
        seats.push(Seat { state, next: 0 })?;
    }
    Ok(seats)
}

impl Weaver {
    ghost use Rattle.totem_weave.specs.Tracks.{IsUnderWay, AreApart, GoesOn, Steps, GoesRound, IsThrough, IsFirstLeft, HasTaken};

    pub fn new(alloc: Global, ring: RingId, tracks: &[Track]) -> Result<Weaver, AllocError>
        requires { 0 < length tracks.now }
        ensures { IfOk result (λ w. IsUnderWay tracks.now w × (w.ring ≡ ring)) }
    {
        let members = members_of(alloc, tracks)?;
        let seats = seats_of(alloc, ring, tracks, &members)?;
        let mut sent = Sent::new(alloc);
        sent.put(Packet::Token(first_token(alloc, ring)))?;
        Ok(Weaver {
            ring,
            seats,
            sent,
            moves: Vec::new(alloc),
        })
    }

    /// Takes the next step of the member at this place, if that is possible. Returns whether it was.
    fn step(&mut self, alloc: Global, tracks: &[Track], place: usize) -> Result<bool, AllocError>
        requires under_way { IsUnderWay tracks.now self.old }
        requires apart { AreApart tracks.now }
        requires within { place < length tracks.now }
        ensures goes_on { OnOk result (GoesOn tracks.now self.old self.new) }
        ensures steps { IfOk result (Steps tracks.now place self.old self.new) }
    {
        let track = &tracks[place];
        let Some((act, out)) = self.seats[place].take_next(alloc, &track.acts, &self.sent)? else {
            return Ok(false);
        };
        self.sent.add(out.packets)?;
        self.moves.push(RingMove {
            proc: track.proc,
            act,
        })?;
        Ok(true)
    }

    /// Takes steps of the member at this place as long as possible. Returns whether it took one.
    fn advance(&mut self, alloc: Global, tracks: &[Track], place: usize) -> Result<bool, AllocError>
        requires under_way { IsUnderWay tracks.now self.old }
        requires apart { AreApart tracks.now }
        requires within { place < length tracks.now }
        ensures goes_on { OnOk result (GoesOn tracks.now self.old self.new) }
        ensures steps { IfOk result (Steps tracks.now place self.old self.new) }
    {
        let mut moved = false;
        'steps: while self.step(alloc, tracks, place)? {
            moved = true;
        }
        Ok(moved)
    }

    /// Takes steps of each member in turn as long as possible. Returns whether it took any.
    pub fn round(&mut self, alloc: Global, tracks: &[Track]) -> Result<bool, AllocError>
        requires under_way { IsUnderWay tracks.now self.old }
        requires apart { AreApart tracks.now }
        ensures goes_on { OnOk result (GoesOn tracks.now self.old self.new) }
        ensures round { IfOk result (GoesRound tracks.now self.old self.new) }
    {
        let mut moved = false;
        for place in 0..tracks.len() {
            let stepped = self.advance(alloc, tracks, place)?;
            moved = moved || stepped;
        }
        Ok(moved)
    }

    /// Returns the place of the first member that has steps left.
    pub fn first_left(&self, tracks: &[Track]) -> Option<usize>
        requires under_way { IsUnderWay tracks.now self.now }
        requires apart { AreApart tracks.now }
        ensures left { IfSome result (IsFirstLeft tracks.now self.now) }
        ensures through { IfNone result ((k : ℕ) → k < length tracks.now → IsThrough tracks.now self.now k) }
    {
        for place in 0..tracks.len() {
            let track = &tracks[place];
            if !self.seats[place].is_through(&track.acts) {
                return Some(place);
            }
        }
        None
    }

    /// Returns the number of steps that the member at this place has taken.
    pub fn taken(&self, tracks: &[Track], place: usize) -> usize
        requires under_way { IsUnderWay tracks.now self.now }
        requires within { place < length tracks.now }
        ensures { HasTaken tracks.now self.now place result }
    {
        self.seats[place].next
    }

    pub fn into_moves(self) -> Vec<RingMove>
        ensures { result ≡ self.moves }
    {
        self.moves
    }
}
