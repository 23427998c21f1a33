//! What the journal says about the seats' receipts when the seats are back. Nothing here does anything when it runs.
ghost use Rattle.std.specs.Prelude.{◌≡◌, ◌<◌, All, length};
ghost use Rattle.totem_books.specs.Journals.{BeginWith, IsMet};
ghost use Rattle.totem_books.specs.Receipts.{FitRising, ShareNoPlace, Agree};

use crate::kept::Kept;
use crate::name::BookName;
use crate::seat::Seat;

/// Does nothing. The contract says that a seat's receipts are of the book's calls, which begin with those that the seat saw.
fn meet<L: BookName>(kept: &mut Kept<L>, seat: &mut Seat<L>)
    ensures book { kept.new.book ≡ kept.old.book }
    ensures seat { seat.new ≡ seat.old }
    ensures fit { FitRising kept.old.book.calls 0 seat.old.stubs }
    ensures seen { BeginWith kept.old.book.calls seat.old.seen }
{
    kept.journal.look(&mut seat.pen);
}

/// Does nothing. The contract says that no receipts of two seats have the same place.
fn tell_apart<L: BookName>(kept: &mut Kept<L>, one: &mut Seat<L>, other: &mut Seat<L>)
    ensures book { kept.new.book ≡ kept.old.book }
    ensures one { one.new ≡ one.old }
    ensures other { other.new ≡ other.old }
    ensures apart { ShareNoPlace one.old.stubs other.old.stubs }
{
    kept.journal.look(&mut one.pen);
    kept.journal.look(&mut other.pen);
    one.pen.apart(&mut other.pen);
}

/// Does nothing. The contract says the same of a seat and each of these others.
fn tell_apart_from<L: BookName>(kept: &mut Kept<L>, one: &mut Seat<L>, others: &mut [Seat<L>])
    ensures book { kept.new.book ≡ kept.old.book }
    ensures one { one.new ≡ one.old }
    ensures others { others.new ≡ others.old }
    ensures apart { All (λ other. ShareNoPlace other.stubs one.old.stubs) others.old }
{
    for i in 0..others.len() {
        tell_apart(kept, &mut others[i], one);
    }
}

/// Does nothing. The contract says that the receipts of one seat are of calls, at other places than those of earlier seats.
fn meet_at<L: BookName>(kept: &mut Kept<L>, seats: &mut [Seat<L>], at: usize)
    requires { at < length seats.old }
    ensures book { kept.new.book ≡ kept.old.book }
    ensures seats { seats.new ≡ seats.old }
    ensures met { IsMet kept.old.book.calls seats.old at }
{
    let (earlier, rest) = seats.split_at_mut(at);
    let seat = &mut rest[0];
    meet(kept, seat);
    tell_apart_from(kept, seat, earlier);
}

/// Does nothing. The contract says that all seats' receipts agree with the book's calls, which begin with what each seat saw.
pub fn meet_all<L: BookName>(kept: &mut Kept<L>, seats: &mut [Seat<L>])
    ensures book { kept.new.book ≡ kept.old.book }
    ensures seats { seats.new ≡ seats.old }
    ensures agree { Agree kept.old.book.calls seats.old }
    ensures seen { All (λ seat. BeginWith kept.old.book.calls seat.seen) seats.old }
{
    for at in 0..seats.len() {
        meet_at(kept, seats, at);
    }
}
