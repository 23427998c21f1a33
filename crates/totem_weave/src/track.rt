//! The recorded acts on a ring, member by member.
ghost use Rattle.std.specs.Prelude.{◌≡◌, IfOk};
ghost use Rattle.totem_weave.specs.Recorded.{recorded, AreTracksOf};

use crate::recorded::{acts_in, book_of};
use std::alloc::{AllocError, Global};
use totem_books::ClosedBook;
use totem_names::{Proc, ProcId, RingId};
use totem_ring::Act;

/// The acts of one member on a ring, in order. The ring knows the member by its identifier.
#[derive(Drop)]
pub struct Track {
    pub proc: ProcId,
    pub acts: Vec<Act>,
}

/// Returns copies of what this process did on the ring, by its book; nothing if it has none.
fn recorded_by(
    alloc: Global,
    books: &[ClosedBook],
    ring: RingId,
    proc: Proc,
) -> Result<Vec<Act>, AllocError>
    ensures { IfOk result (λ acts. acts.items ≡ recorded ring books.now proc) }
{
    match book_of(books, ring, proc) {
        Some(book) => acts_in(alloc, ring, book.calls()),
        None => Ok(Vec::new(alloc)),
    }
}

/// Returns what each member did on the ring, in the order of the members; nothing for one without a book of its life.
pub fn tracks_of(
    alloc: Global,
    books: &[ClosedBook],
    ring: RingId,
    members: &[Proc],
) -> Result<Vec<Track>, AllocError>
    ensures { IfOk result (λ tracks. AreTracksOf ring books.now members.now tracks.items) }
{
    let mut tracks = Vec::new(alloc);
    for proc in members {
        let acts = recorded_by(alloc, books, ring, *proc)?;
        tracks.push(Track {
            proc: proc.id(),
            acts,
        })?;
    }
    Ok(tracks)
}
