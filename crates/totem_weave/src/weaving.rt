//! Weaves the books of a ring.
ghost use Rattle.std.specs.Prelude.{◌≡◌, ◌<◌, length, map, IfOk, IfErr};
ghost use Rattle.totem_weave.specs.Weaves.{IsStuck};
ghost use Rattle.totem_weave.specs.Tracks.{AreApart, IsUnderWay, start_of, steps_of};
ghost use Rattle.totem_weave.specs.Woven.{IsWoven, AreOneOrder, Refuses};

use crate::fault::WeaveFault;
use crate::handing::handed_up;
use crate::membership::can_weave;
use crate::orphan::call_at;
use crate::track::{Track, tracks_of};
use crate::weaver::Weaver;
use crate::woven::Woven;
use std::alloc::{AllocError, Global};
use totem_books::ClosedBook;
use totem_names::{Proc, RingId};

/// Weaves these tracks until no member can continue. So no schedule of them has more steps of any member.
fn weave_tracks(alloc: Global, ring: RingId, tracks: &[Track]) -> Result<Weaver, AllocError>
    requires some { 0 < length tracks.now }
    requires apart { AreApart tracks.now }
    ensures under_way { IfOk result (λ w. IsUnderWay tracks.now w × (w.ring ≡ ring)) }
    ensures stuck { IfOk result (λ w. IsStuck (start_of w.ring tracks.now) (steps_of tracks.now) w.moves.items) }
{
    let mut weaver = Weaver::new(alloc, ring, tracks)?;
    'rounds: while weaver.round(alloc, tracks)? {}
    Ok(weaver)
}

/// Finds a schedule of the ring that takes each step that the books report on it once, in each book's order, and no other
/// step, and none that the ring refuses (docs/PROTOCOL.md, "The woven ring"). A member without a book of its life takes no step.
/// `Members` if the members are not 1 to 32 processes with ascending identifiers, two books are of the same process and life, or a
/// book with a step on the ring is no member's. `Orphan` if there is no such schedule, with the first call that fits none, of
/// the least process that has such a call. Doesn't block, and starts no thread.
pub fn weave(
    alloc: Global,
    books: &[ClosedBook],
    ring: RingId,
    members: &[Proc],
) -> Result<Woven, WeaveFault>
    ensures woven { IfOk result (IsWoven ring members.now books.now) }
    ensures one_order { IfOk result (λ woven. AreOneOrder (map (λ h. (h.0, h.1.items)) woven.handed.items)) }
    ensures refused { IfErr result (Refuses ring members.now books.now) }
{
    if !can_weave(books, ring, members) {
        return Err(WeaveFault::Members);
    }
    let tracks = tracks_of(alloc, books, ring, members)?;
    let weaver = weave_tracks(alloc, ring, &tracks)?;
    if let Some(place) = weaver.first_left(&tracks) {
        let step = weaver.taken(&tracks, place);
        let call = call_at(books, ring, members[place], step);
        return Err(WeaveFault::Orphan(call));
    }
    let handed = handed_up(alloc, ring, members, &tracks)?;
    Ok(Woven {
        steps: weaver.into_moves(),
        handed,
    })
}
