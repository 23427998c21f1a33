//! The call at which a weave ends.
ghost use Rattle.std.specs.Prelude.{◌≡◌, ◌-◌, ◌^◌, ◌<◌, length};
ghost use Rattle.totem_weave.specs.Recorded.{recorded, place_at, IsCallOf};

use crate::recorded::{book_of, call_of};
use totem_books::ClosedBook;
use totem_names::{Place, Proc, RingId};

/// Returns the place of this call, counted from 0, in a process's book.
fn place_of(proc: Proc, call: usize) -> Place
    requires { call < 2 ^ 64 - 1 }
    ensures proc { result.proc ≡ proc }
    ensures at { result.at ≡ place_at call }
{
    Place {
        proc,
        at: u32::try_from(call + 1).unwrap_or(u32::MAX),
    }
}

/// Returns the place of the call of this process that has its step with this number, counted from 0.
pub fn call_at(books: &[ClosedBook], ring: RingId, proc: Proc, step: usize) -> Place
    requires { step < length (recorded ring books.now proc) }
    ensures { IsCallOf ring books.now proc step result }
{
    let Some(book) = book_of(books, ring, proc) else {
        return place_of(proc, 0);
    };
    place_of(proc, call_of(ring, book.calls(), step))
}
