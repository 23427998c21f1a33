//! Books, tested by direct calls.
ghost use Rattle.std.specs.Prelude.{◌≡◌};
ghost use Rattle.totem_recover.specs.Lives.{first_rank};

use bytes::Bytes;
use std::alloc::{AllocError, Global};
use std::fmt;
use std::fmt::Write;
use std::sync::Arc;
use std::test::Fail;
use totem_books::{Book, BookFault, CloseFault, Reply, Stub};
use totem_core::Input;
use totem_evs::{Entry, Members};
use totem_names::{Proc, ProcId, RingId, Service};
use totem_packets::Packet;
use totem_ring::first_token;

pub(crate) fn ring() -> RingId
    ensures { result ≡ record { seq = 4; rep = 1 } }
{
    RingId {
        seq: 4,
        rep: ProcId::of(1),
    }
}

/// The first life of process 1.
pub(crate) fn one() -> Proc
    ensures { result ≡ first_rank 1 }
{
    Proc::first(ProcId::of(1))
}

/// The first lives of processes 1 and 2.
pub(crate) fn two(alloc: Global) -> Result<Members, Fail> {
    let mut list = Vec::new(alloc);
    list.push(one())?;
    list.push(Proc::first(ProcId::of(2)))?;
    Ok(Members::new(Arc::new(alloc, list)?)?)
}

/// A client's message `x`.
pub(crate) fn submit() -> Input {
    Input::Submit {
        service: Service::Agreed,
        payload: Bytes::from_static(b"x"),
    }
}

/// The first token of ring 4.1.
pub(crate) fn start(alloc: Global) -> Input {
    Input::Packet(Packet::Token(first_token(alloc, ring())))
}

/// Shows the entries as a line of text.
#[derive(Drop)]
pub(crate) struct Lines<'a>(pub &'a [Entry]);

impl fmt::Display for Lines<'_> {
    fn fmt<W: fmt::Write>(&self, f: &mut fmt::Formatter<W>) -> fmt::Result {
        for entry in self.0 {
            write!(f, "{entry}; ")?;
        }
        Ok(())
    }
}

/// Shows what a reply adds to the log, or its refusal.
#[derive(Drop)]
pub(crate) struct Answer<'a>(pub &'a Reply);

impl fmt::Display for Answer<'_> {
    fn fmt<W: fmt::Write>(&self, f: &mut fmt::Formatter<W>) -> fmt::Result {
        match self.0 {
            Reply::Done(out) => write!(f, "{}", Lines(&out.entries)),
            Reply::Refused(fault) => f.write_str(fault.name()),
        }
    }
}

/// What was reported in the life of a book, with `| ` after each answer, and the replies of its calls.
#[derive(Drop)]
pub(crate) struct Life {
    pub text: String,
    pub replies: Vec<Reply>,
}

impl Life {
    pub(crate) fn new(alloc: Global) -> Life {
        Life {
            text: String::new(alloc),
            replies: Vec::new(alloc),
        }
    }

    pub(crate) fn tell<T: fmt::Display + Drop>(&mut self, answer: T) -> Result<(), AllocError> {
        write!(self.text, "{answer}| ")
    }
}

/// Shows the place of a receipt, whether it has the reply, and the reply.
#[derive(Drop)]
struct Receipt<'a>(&'a Stub, &'a Reply);

impl fmt::Display for Receipt<'_> {
    fn fmt<W: fmt::Write>(&self, f: &mut fmt::Formatter<W>) -> fmt::Result {
        let stub = self.0;
        let reply = self.1;
        let sure = stub.reply.is(reply);
        write!(f, "{} {sure} {}", stub.at, Answer(reply))
    }
}

fn note(life: &mut Life, stub: &Stub, reply: Reply) -> Result<(), AllocError> {
    life.tell(Receipt(stub, &reply))?;
    Ok(life.replies.push(reply)?)
}

fn apply(alloc: Global, life: &mut Life, book: &mut Book, input: Input) -> Result<(), AllocError> {
    match book.apply(alloc, input) {
        Ok((stub, reply)) => note(life, &stub, reply),
        Err(fault) => life.tell(fault.name()),
    }
}

fn crash(alloc: Global, book: &mut Book) -> Result<(), BookFault> {
    let _ = book.apply(alloc, Input::Crash)?;
    Ok(())
}

/// Makes this many calls of a node that has crashed. The fault is that of the first call that is refused.
fn fill(alloc: Global, book: &mut Book, calls: u32) -> Result<(), BookFault> {
    for _ in 0..calls {
        crash(alloc, book)?;
    }
    Ok(())
}

/// Makes this many calls of a node that has crashed, and adds why the first one is refused that is.
fn tell_fill(
    alloc: Global,
    life: &mut Life,
    book: &mut Book,
    calls: u32,
) -> Result<(), AllocError> {
    match fill(alloc, book, calls) {
        Ok(()) => life.tell("taken"),
        Err(fault) => life.tell(fault.name()),
    }
}

/// Does the step that this word stands for.
fn step(alloc: Global, life: &mut Life, book: &mut Book, word: &str) -> Result<(), AllocError> {
    match word {
        "submit" => apply(alloc, life, book, submit()),
        "first" => apply(alloc, life, book, start(alloc)),
        "crash" => apply(alloc, life, book, Input::Crash),
        "million" => tell_fill(alloc, life, book, 1_000_000),
        "once" => tell_fill(alloc, life, book, 1),
        "calls" => life.tell(book.calls().len()),
        "log" => life.tell(Lines(book.log())),
        _ => life.tell("no such word"),
    }
}

fn all_steps(
    alloc: Global,
    life: &mut Life,
    book: &mut Book,
    words: &str,
) -> Result<(), AllocError> {
    for word in words.split_whitespace() {
        step(alloc, life, book, word)?;
    }
    Ok(())
}

fn live(alloc: Global, life: &mut Life, members: &Members, words: &str) -> Result<(), AllocError> {
    let mut book = Book::new(alloc, one(), ring(), members.as_slice())?;
    all_steps(alloc, life, &mut book, words)
}

fn life_among(alloc: Global, members: &Members, words: &str) -> Result<Life, AllocError> {
    let mut life = Life::new(alloc);
    live(alloc, &mut life, members, words)?;
    Ok(life)
}

fn life_of(alloc: Global, words: &str) -> Result<Life, Fail> {
    let members = two(alloc)?;
    Ok(life_among(alloc, &members, words)?)
}

/// Returns the results, step by step, of a book of process 1.
fn text(alloc: Global, words: &str) -> Result<String, Fail> {
    Ok(life_of(alloc, words)?.text)
}

/// Returns the replies of a book of process 1, step by step.
pub(crate) fn replies(alloc: Global, words: &str) -> Result<Vec<Reply>, Fail> {
    Ok(life_of(alloc, words)?.replies)
}

/// A book keeps its calls and its log, and gives receipts at their places.
#[test]
fn a_book_keeps_calls_and_log(rt: HostRuntime) -> Result<(), Fail> {
    let text = text(rt.alloc(), "log calls submit first first crash calls log")?;
    assert_eq!(rt;
        text.as_str(),
        "conf r4.1 1 2; | 0| 1 true | 2 true send r4.1 a 4.1#1; dlv r4.1 4.1#1; | 3 true Repeat| 4 true fail r4.1; | 4| conf r4.1 1 2; send r4.1 a 4.1#1; dlv r4.1 4.1#1; fail r4.1; | "
    );
    Ok(())
}

/// A book with 1,000,000 calls refuses the next one as Long and doesn't change.
#[test]
fn a_full_book_takes_no_call(rt: HostRuntime) -> Result<(), Fail> {
    let text = text(rt.alloc(), "million calls once calls")?;
    assert_eq!(rt; text.as_str(), "taken| 1000000| Long| 1000000| ");
    Ok(())
}

/// The faults of calls and of closing say what is wrong.
#[test]
fn faults_have_texts(rt: HostRuntime) -> Result<(), Fail> {
    let told = format!(in rt.alloc(); "{}; {}", BookFault::Long, CloseFault::SeatMissing)?;
    assert_eq!(rt;
        told.as_str(),
        "1,000,000 calls or entries are stored; a seat is missing"
    );
    Ok(())
}
