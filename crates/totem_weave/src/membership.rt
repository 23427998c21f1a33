//! Whether books can be woven with these members.
ghost use Rattle.std.specs.Prelude.{◌≡◌, ◌<◌, length, MatchBool, All};
ghost use Rattle.std.specs.List.Sorted.{IsStrictlyIncreasing};
ghost use Rattle.totem_recover.specs.Lives.{ids_of};
ghost use Rattle.totem_weave.specs.Distinct.{AreDistinctBy, IsFirstBy};
ghost use Rattle.totem_weave.specs.Woven.{process_of, IsOfMember, CanWeave};

use crate::recorded::tell_none;
use totem_books::ClosedBook;
use totem_names::{Proc, RingId};

/// The greatest number of members of a ring.
const MOST: usize = 32;

/// Returns whether the identifiers are strictly ascending. If they are, no two lives of one identifier are both members.
fn rise(members: &[Proc]) -> bool
    ensures { MatchBool result (IsStrictlyIncreasing (ids_of members.now)) (¬ (IsStrictlyIncreasing (ids_of members.now))) }
{
    for place in 1..members.len() {
        if members[place - 1].id().number() >= members[place].id().number() {
            return false;
        }
    }
    true
}

/// Returns whether an earlier book is of the same process and life.
fn is_second(books: &[ClosedBook], place: usize) -> bool
    requires { place < length books.now }
    ensures { MatchBool result (¬ (AreDistinctBy process_of books.now)) (IsFirstBy process_of books.now place) }
{
    for earlier in 0..place {
        if books[earlier].me() == books[place].me() {
            return true;
        }
    }
    false
}

fn are_apart(books: &[ClosedBook]) -> bool
    ensures { MatchBool result (AreDistinctBy process_of books.now) (¬ (AreDistinctBy process_of books.now)) }
{
    for place in 0..books.len() {
        if is_second(books, place) {
            return false;
        }
    }
    true
}

fn is_of_member(ring: RingId, members: &[Proc], book: &ClosedBook) -> bool
    ensures { MatchBool result (IsOfMember ring members.now book.now) (¬ (IsOfMember ring members.now book.now)) }
{
    members.contains(&book.me()) || tell_none(ring, book.calls())
}

fn are_of_members(ring: RingId, members: &[Proc], books: &[ClosedBook]) -> bool
    ensures { MatchBool result (All (IsOfMember ring members.now) books.now) (¬ (All (IsOfMember ring members.now) books.now)) }
{
    for book in books {
        if !is_of_member(ring, members, book) {
            return false;
        }
    }
    true
}

/// Returns whether the members are 1 to 32 processes with ascending identifiers, no two books are of the same process and life,
/// and each book with a step on the ring is that of a member in its life.
pub fn can_weave(books: &[ClosedBook], ring: RingId, members: &[Proc]) -> bool
    ensures { MatchBool result (CanWeave ring members.now books.now) (¬ (CanWeave ring members.now books.now)) }
{
    !members.is_empty()
        && members.len() <= MOST
        && rise(members)
        && are_apart(books)
        && are_of_members(ring, members, books)
}
