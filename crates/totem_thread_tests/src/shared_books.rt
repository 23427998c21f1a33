//! Books that threads share.
ghost use Rattle.std.specs.Prelude.{◌≡◌, ◌<◌, ◌≤◌};
ghost use Rattle.totem_recover.specs.Lives.{first_rank};

use crate::books::{Answer, Life, Lines, one, replies, ring, start, submit, two};
use std::alloc::{AllocError, Global};
use std::fmt::Write;
use std::marker::Brand;
use std::sync::Wait;
use std::test::*;
use std::thread;
use std::thread::Threads;
use totem_books::{
    Blank, BookName, CloseFault, CloseRefused, ClosedBook, Reply, Seat, SharedBook, Stub, close,
};
use totem_core::Input;
use totem_evs::Members;

/// Returns the input that the thread of this number gives its node: the first two threads are clients, the third receives, the
/// fourth is a timer.
fn input_of(alloc: Global, thread: usize) -> Input {
    match thread {
        0 | 1 => submit(),
        2 => start(alloc),
        _ => Input::Timer,
    }
}

fn make_calls<L: BookName, R: Wait>(
    rt: &R,
    alloc: Global,
    book: &SharedBook<L>,
    seat: &mut Seat<L>,
    thread: usize,
) {
    for _ in 0..250 {
        if book.call(rt, alloc, seat, input_of(alloc, thread)).is_err() {
            break;
        }
    }
}

/// Makes 250 calls with each seat, in a thread of its own.
fn all_calls<L: BookName + Send + Sync, R: Threads + Wait + Sync>(
    rt: &R,
    alloc: Global,
    book: &SharedBook<L>,
    seats: &mut [Seat<L>],
) -> Result<(), AllocError> {
    thread::scope(thread::scope_env(), rt, |scope| -> Result<(), AllocError> {
        for (thread, seat) in seats.iter_mut().enumerate() {
            if scope
                .spawn(move || make_calls(rt, alloc, book, seat, thread))
                .is_err()
            {
                return Err(AllocError);
            }
        }
        Ok(())
    })
}

fn is_rising(stubs: &[Stub]) -> bool {
    let mut last = 0;
    for stub in stubs {
        if stub.at <= last {
            return false;
        }
        last = stub.at;
    }
    true
}

/// Adds the number of receipts, and whether their places ascend.
fn tell_stubs(life: &mut Life, stubs: &[Stub]) -> Result<(), AllocError> {
    let rising = is_rising(stubs);
    write!(life.text, "{} {rising}| ", stubs.len())
}

/// Adds the same for each seat.
fn tell_seats<L: BookName>(life: &mut Life, seats: &[Seat<L>]) -> Result<(), AllocError> {
    for seat in seats {
        tell_stubs(life, seat.stubs())?;
    }
    Ok(())
}

fn note(life: &mut Life, reply: Reply) -> Result<(), AllocError> {
    life.tell(Answer(&reply))?;
    Ok(life.replies.push(reply)?)
}

/// Makes a call with the first seat.
fn call<L: BookName, R: Wait>(
    rt: &R,
    alloc: Global,
    life: &mut Life,
    book: &SharedBook<L>,
    seats: &mut [Seat<L>],
    input: Input,
) -> Result<(), AllocError> {
    let Some(seat) = seats.first_mut() else {
        return life.tell("no seat");
    };
    match book.call(rt, alloc, seat, input) {
        Ok(reply) => note(life, reply),
        Err(fault) => life.tell(fault.name()),
    }
}

/// Does the step that this word stands for.
fn step<L: BookName + Send + Sync, R: Threads + Wait + Sync>(
    rt: &R,
    alloc: Global,
    life: &mut Life,
    book: &SharedBook<L>,
    seats: &mut [Seat<L>],
    word: &str,
) -> Result<(), AllocError> {
    match word {
        "submit" => call(rt, alloc, life, book, seats, submit()),
        "first" => call(rt, alloc, life, book, seats, start(alloc)),
        "threads" => all_calls(rt, alloc, book, seats),
        "seats" => tell_seats(life, seats),
        _ => life.tell("no such word"),
    }
}

fn all_steps<L: BookName + Send + Sync, R: Threads + Wait + Sync>(
    rt: &R,
    alloc: Global,
    life: &mut Life,
    book: &SharedBook<L>,
    seats: &mut [Seat<L>],
    words: &str,
) -> Result<(), AllocError> {
    for word in words.split_whitespace() {
        step(rt, alloc, life, book, seats, word)?;
    }
    Ok(())
}

/// Adds the number of calls of a closed book, and also its log if one seat made the calls: several threads have no set order.
fn tell_closed(life: &mut Life, closed: &ClosedBook, seats: usize) -> Result<(), AllocError> {
    life.tell(closed.calls().len())?;
    if seats != 1 {
        return Ok(());
    }
    life.tell(Lines(closed.log()))
}

fn close_and_tell<L: BookName>(
    life: &mut Life,
    book: SharedBook<L>,
    seats: Vec<Seat<L>>,
) -> Result<(), AllocError> {
    let count = seats.len();
    match close(book, seats) {
        Ok(closed) => tell_closed(life, &closed, count),
        Err(refused) => life.tell(refused.fault.name()),
    }
}

fn put_back<L: BookName>(
    seats: &mut Vec<Seat<L>>,
    seat: Option<Seat<L>>,
) -> Result<(), AllocError> {
    match seat {
        Some(seat) => Ok(seats.push(seat)?),
        None => Ok(()),
    }
}

/// Adds why a book was not closed, and how many seats were given back.
fn tell_refusal(life: &mut Life, fault: CloseFault, count: usize) -> Result<(), AllocError> {
    write!(life.text, "{} {count}| ", fault.name())
}

fn close_again<L: BookName>(
    life: &mut Life,
    refused: CloseRefused<L>,
    seat: Option<Seat<L>>,
) -> Result<(), AllocError> {
    let CloseRefused { book, seats, fault } = refused;
    let told = tell_refusal(life, fault, seats.len());
    let mut seats = seats;
    let put = put_back(&mut seats, seat);
    told.and(put).and(close_and_tell(life, book, seats))
}

/// Closes the book without its last seat, and then with it.
fn close_twice<L: BookName>(
    life: &mut Life,
    book: SharedBook<L>,
    seats: Vec<Seat<L>>,
) -> Result<(), AllocError> {
    let mut seats = seats;
    let last = seats.pop();
    match close(book, seats) {
        Ok(_) => life.tell("closed without a seat"),
        Err(refused) => close_again(life, refused, last),
    }
}

/// Returns the results of a shared book of process 1 with this many seats, step by step and at its close. The words are a
/// `String`, since a call can't infer ghost members if the signature has a `&str`.
fn live<L: BookName + Send + Sync, R: Threads + Wait + Sync>(
    rt: &R,
    alloc: Global,
    blank: Blank,
    members: &Members,
    count: u64,
    words: &String,
    life: &mut Life,
) -> Result<(), AllocError>
    requires ledger { (blank.name ≡ L.name) × (blank.parts ≡ L.parts) × (L.parts ≡ count) }
    requires journal { blank.journal ≡ L.journal }
    requires seats { (0 < count) × (count ≤ 64) }
    requires start { (L.me ≡ first_rank 1) × (L.ring ≡ record { seq = 4; rep = 1 }) × (L.members ≡ members.now) }
{
    let me = one();
    let (book, mut seats) = SharedBook::<L>::new(
        alloc,
        blank,
        me,
        ring(),
        members.as_slice(),
        count,
    )?;
    let done = all_steps(rt, alloc, life, &book, &mut seats, words);
    done.and(close_twice(life, book, seats))
}

fn life_of<R: Threads + Wait + Sync>(
    rt: &R,
    alloc: Global,
    count: u64,
    words: &str,
) -> Result<Life, Fail>
    requires { (0 < count) × (count ≤ 64) }
{
    let members = two(alloc)?;
    let words = format!(in alloc; "{words}")?;
    let mut life = Life::new(alloc);
    live::<Brand, _>(
        rt,
        alloc,
        Blank::new(count),
        &members,
        count,
        &words,
        &mut life,
    )?;
    Ok(life)
}

/// Returns the number of `these` replies, of `those` replies, and of equal pairs.
fn compared(these: &[Reply], those: &[Reply]) -> (usize, usize, usize) {
    let mut same = 0usize;
    for (this, that) in these.iter().zip(those) {
        if this.is(that) {
            same = same.saturating_add(1);
        }
    }
    (these.len(), those.len(), same)
}

/// Returns the results of a shared book with this many seats.
fn text<R: Threads + Wait + Sync>(
    rt: &R,
    alloc: Global,
    count: u64,
    words: &str,
) -> Result<String, Fail>
    requires { (0 < count) × (count ≤ 64) }
{
    Ok(life_of(rt, alloc, count, words)?.text)
}

/// Four threads make 250 calls each of one book, which is closed only with all seats.
#[test]
fn four_threads_share_a_book(rt: HostRuntime) -> Result<(), Fail> {
    let text = text(&rt, rt.alloc(), 4, "threads seats")?;
    assert_eq!(rt;
        text.as_str(),
        "250 true| 250 true| 250 true| 250 true| SeatMissing 3| 1000| "
    );
    Ok(())
}

/// Runs a shared book with one seat. Returns its results, and compares its replies with those of a book that is not shared.
fn beside_a_book<R: Threads + Wait + Sync>(
    rt: &R,
    alloc: Global,
    words: &str,
) -> Result<(String, (usize, usize, usize)), Fail> {
    let alone = replies(alloc, words)?;
    let life = life_of(rt, alloc, 1, words)?;
    let compared = compared(&life.replies, &alone);
    Ok((life.text, compared))
}

/// A shared book with one seat replies as a book that is not shared.
#[test]
fn a_call_answers_as_a_book_does(rt: HostRuntime) -> Result<(), Fail> {
    let (text, compared) = beside_a_book(&rt, rt.alloc(), "submit first")?;
    assert_eq!(rt;
        (text.as_str(), compared),
        (
            "| send r4.1 a 4.1#1; dlv r4.1 4.1#1; | SeatMissing 0| 2| conf r4.1 1 2; send r4.1 a 4.1#1; dlv r4.1 4.1#1; | ",
            (2, 2, 2)
        )
    );
    Ok(())
}
