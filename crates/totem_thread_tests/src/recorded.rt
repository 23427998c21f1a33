//! Closed books of nodes on ring 4.1 with the members 1, 2 and 3, from words for the inputs of each node.
ghost use Rattle.std.specs.Prelude.{◌≡◌};

use crate::books::{ring, start, submit};
use std::alloc::{AllocError, Global};
use std::marker::Brand;
use std::sync::{Arc, Wait};
use std::test::Fail;
use totem_books::{Blank, BookName, ClosedBook, Reply, Seat, SharedBook, close};
use totem_core::Input;
use totem_evs::Members;
use totem_names::{Proc, ProcId};
use totem_packets::Packet;

/// Returns the process with this number, in this life.
pub(crate) fn process(number: u16, life: u16) -> Result<Proc, Fail> {
    let id = ProcId::new(number).ok_or("no process has this number")?;
    Ok(Proc::new(id, life).ok_or("no life has this number")?)
}

/// Returns the processes with these numbers, in their first lives.
pub(crate) fn procs(alloc: Global, numbers: &[u16]) -> Result<Vec<Proc>, Fail> {
    let mut list = Vec::new(alloc);
    for number in numbers {
        list.push(process(*number, 1)?)?;
    }
    Ok(list)
}

/// Returns the digit at this place of a word.
fn digit(word: &str, place: usize) -> Option<usize> {
    let byte = *word.as_bytes().get(place)?;
    Some(usize::from(byte.saturating_sub(b'0')))
}

/// Returns the packet that a word such as `2.3.0` names: of the second book, its third call, the packet with index 0.
fn packet(alloc: Global, books: &[ClosedBook], word: &str) -> Result<Option<Packet>, AllocError> {
    let (Some(book), Some(call), Some(place)) = (digit(word, 0), digit(word, 2), digit(word, 4))
    else {
        return Ok(None);
    };
    let Some(book) = books.get(book.saturating_sub(1)) else {
        return Ok(None);
    };
    let Some(call) = book.calls().get(call.saturating_sub(1)) else {
        return Ok(None);
    };
    let Reply::Done(out) = &call.reply else {
        return Ok(None);
    };
    match out.packets.get(place) {
        Some(sending) => Ok(Some(sending.1.try_clone(alloc)?)),
        None => Ok(None),
    }
}

/// Returns the input of a word: `submit`, `first` for the ring's first token, `timer`, or a packet that a book has.
fn input(alloc: Global, books: &[ClosedBook], word: &str) -> Result<Input, Fail> {
    match word {
        "submit" => Ok(submit()),
        "first" => Ok(start(alloc)),
        "timer" => Ok(Input::Timer),
        _ => Ok(Input::Packet(packet(alloc, books, word)?.ok_or("no book tells this packet")?)),
    }
}

fn inputs(alloc: Global, books: &[ClosedBook], words: &str) -> Result<Vec<Input>, Fail> {
    let mut list = Vec::new(alloc);
    for word in words.split_whitespace() {
        list.push(input(alloc, books, word)?)?;
    }
    Ok(list)
}

fn call_all<L: BookName, R: Wait>(
    rt: &R,
    alloc: Global,
    book: &SharedBook<L>,
    seats: &mut [Seat<L>],
    inputs: Vec<Input>,
) -> Result<(), Fail> {
    let Some(seat) = seats.first_mut() else {
        return Err("no seat".into());
    };
    for input in inputs {
        book.call(rt, alloc, seat, input)?;
    }
    Ok(())
}

fn closed<L: BookName>(book: SharedBook<L>, seats: Vec<Seat<L>>) -> Result<ClosedBook, Fail> {
    match close(book, seats) {
        Ok(closed) => Ok(closed),
        Err(_) => Err("the book was not closed".into()),
    }
}

/// Returns the closed book of a node that gets these inputs, through a shared book with one seat.
fn live<L: BookName, R: Wait>(
    rt: &R,
    alloc: Global,
    blank: Blank,
    me: Proc,
    members: &Members,
    inputs: Vec<Input>,
) -> Result<ClosedBook, Fail>
    requires ledger { (blank.name ≡ L.name) × (blank.parts ≡ L.parts) × (L.parts ≡ 1) }
    requires journal { blank.journal ≡ L.journal }
    requires start { (L.me ≡ me) × (L.ring ≡ record { seq = 4; rep = 1 }) × (L.members ≡ members.now) }
{
    let (book, mut seats) = SharedBook::<L>::new(alloc, blank, me, ring(), members.as_slice(), 1)?;
    call_all(rt, alloc, &book, &mut seats, inputs)?;
    closed(book, seats)
}

fn book_of<R: Wait>(
    rt: &R,
    alloc: Global,
    me: Proc,
    members: &Members,
    inputs: Vec<Input>,
) -> Result<ClosedBook, Fail> {
    live::<Brand, _>(rt, alloc, Blank::new(1), me, members, inputs)
}

/// Writes the book of the process with this number anew, from these words for its node's inputs.
fn write<R: Wait>(
    rt: &R,
    alloc: Global,
    books: &mut Vec<ClosedBook>,
    members: &Members,
    number: u16,
    words: &str,
) -> Result<(), Fail> {
    let me = process(number, 1)?;
    let given = inputs(alloc, books, words)?;
    let book = book_of(rt, alloc, me, members, given)?;
    let place = usize::from(number).saturating_sub(1);
    if place < books.len() {
        books[place] = book;
    } else {
        books.push(book)?;
    }
    Ok(())
}

/// Returns the books of 1, 2 and 3. Each line has the words of one of them; a later line writes the book anew, with more
/// words.
pub(crate) fn books<R: Wait>(
    rt: &R,
    alloc: Global,
    lines: &[(u16, &str)],
) -> Result<Vec<ClosedBook>, Fail> {
    let members = Members::new(Arc::new(alloc, procs(alloc, &[1, 2, 3])?)?)?;
    let mut books = Vec::new(alloc);
    for line in lines {
        write(rt, alloc, &mut books, &members, line.0, line.1)?;
    }
    Ok(books)
}
