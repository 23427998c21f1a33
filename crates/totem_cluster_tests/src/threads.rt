//! Runs that nodes in threads record.
use std::alloc::Global;
use std::sync::Wait;
use std::test::Fail;
use std::thread::Threads;
use totem_books::{BookFault, Call, CloseFault, ClosedBook, Reply};
use totem_cluster::{BookTrouble, IoFault, RunPlan, run_threads, tell_fault};
use totem_core::Input;
use totem_names::ToWrite;
use totem_net::{Plan, Quiet};

/// The refusal of a book is printed with its number and name, and has status 2.
#[test]
fn a_book_that_was_refused_is_told(rt: HostRuntime) -> Result<(), Fail> {
    for (trouble, line) in [
        (
            BookTrouble::Call(BookFault::Long),
            "totem: book refused: 1 Long\n",
        ),
        (
            BookTrouble::Close(CloseFault::SeatMissing),
            "totem: book refused: 1 SeatMissing\n",
        ),
        (
            BookTrouble::Close(CloseFault::ReceiptMismatch),
            "totem: book refused: 2 ReceiptMismatch\n",
        ),
    ] {
        let mut errors = ToWrite::new(Vec::new(rt.alloc()));
        assert_eq!(rt; tell_fault(&mut errors, &IoFault::Book(trouble)), 2);
        assert_eq!(rt; errors.into_inner().as_slice(), line.as_bytes());
    }
    Ok(())
}

/// A run returns the book of each node, begun on ring 4.1.
#[test]
fn books_come_with_the_run(rt: HostRuntime) -> Result<(), Fail> {
    let Some(plan) = Plan::new(0, 0, 0).and_then(|plan| RunPlan::new(2, 16, 7, plan)) else {
        panic!(rt; "no plan");
    };
    let Ok((run, books)) = run_threads(&rt, rt.alloc(), plan, &Quiet) else {
        panic!(rt; "no run");
    };
    assert_eq!(rt; run.logs.as_slice().len(), 2);
    for book in &books {
        assert_eq!(rt; book.ring().seq, 4);
        assert_eq!(rt; book.members().len(), 2);
        assert!(rt; book.members().contains(&book.me()));
    }
    Ok(())
}

/// How many calls of two nodes' books were packets received, and how many packets the nodes sent.
#[derive(Clone, Copy)]
struct Counts {
    packets: usize,
    sent: usize,
}

impl Counts {
    fn count(&mut self, call: &Call) {
        if matches!(call.input, Input::Packet(_)) {
            self.packets = self.packets.saturating_add(1);
        }
        if let Reply::Done(out) = &call.reply {
            self.sent = self.sent.saturating_add(out.packets.len());
        }
    }
}

fn counted(books: &[ClosedBook]) -> Counts {
    let mut counts = Counts {
        packets: 0,
        sent: 0,
    };
    for book in books {
        for call in book.calls() {
            counts.count(call);
        }
    }
    counts
}

/// Runs two nodes for 160 ticks over a network that loses and duplicates these percentages of packets.
fn counts_of<R: Threads + Wait + Sync>(
    rt: &R,
    alloc: Global,
    lose: u8,
    repeat: u8,
) -> Result<Counts, Fail> {
    let Some(plan) = Plan::new(lose, repeat, 0).and_then(|plan| RunPlan::new(2, 160, 7, plan))
    else {
        return Err(Fail::from("no plan"));
    };
    match run_threads(rt, alloc, plan, &Quiet) {
        Ok((_, books)) => Ok(counted(&books)),
        Err(_) => Err(Fail::from("no run")),
    }
}

/// If all packets are lost, the books have only the first token, which no node sends and which is never lost.
#[test]
fn a_packet_that_is_lost_comes_to_no_book(rt: HostRuntime) -> Result<(), Fail> {
    let counts = counts_of(&rt, rt.alloc(), 100, 0)?;
    assert_eq!(rt; counts.packets, 1);
    Ok(())
}

/// If all packets are duplicated, the books have more packets than the nodes sent.
#[test]
fn a_packet_that_is_repeated_comes_twice(rt: HostRuntime) -> Result<(), Fail> {
    let counts = counts_of(&rt, rt.alloc(), 0, 100)?;
    assert!(rt; counts.packets > counts.sent);
    Ok(())
}
