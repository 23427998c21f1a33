//! Makes a run from books.
ghost use Rattle.std.specs.Prelude.{◌≡◌, ◌≢◌, ◌≤◌, IfOk, IfErr, map, All};
ghost use Rattle.totem_names.specs.declared.version.Version.TheVariants.{One};
ghost use Rattle.totem_evs.specs.Lives.{HasFirstLives};
ghost use Rattle.totem_threads.specs.Faults.{EndsRun};
ghost use Rattle.totem_threads.specs.Starts.{starts};
ghost use Rattle.totem_threads.specs.Books.{AreLogsOf, IsReplayed};
ghost use Rattle.totem_threads.specs.FirstLives.{IsFirstBook};

use crate::fault::{BookTrouble, ThreadsFault};
use std::alloc::{AllocError, Global};
use totem_books::{BookFault, ClosedBook};
use totem_evs::{Ending, Entries, Log, Run};
use totem_names::copied;

/// Returns the log of a book. If it is longer than a log may be, the fault is that of a call to a full book.
fn log_of(alloc: Global, book: &ClosedBook) -> Result<Log, ThreadsFault>
    ensures process { IfOk result (λ log. log.proc ≡ book.now.start.me) }
    ensures entries { IfOk result (λ log. log.entries ≡ book.now.log) }
    ensures loud { IfOk result (λ log. log.ending ≢ Ending.Quiet) }
    ensures fault { IfErr result EndsRun }
{
    match Entries::new(copied(alloc, book.log())?) {
        Ok(entries) => {
            let ending = entries.ending();
            Ok(Log::new(book.me(), entries, ending))
        }
        Err(_) => Err(ThreadsFault::Book(BookTrouble::Call(BookFault::Long))),
    }
}

fn logs_of(alloc: Global, books: &[ClosedBook]) -> Result<Vec<Log>, ThreadsFault>
    ensures logs { IfOk result (λ logs. AreLogsOf books.now logs.items) }
    ensures fault { IfErr result EndsRun }
{
    let mut logs = Vec::with_capacity(alloc, books.len())?;
    for book in books {
        logs.push(log_of(alloc, book)?)?;
    }
    Ok(logs)
}

/// Does nothing. The contract says that each book is the replay of its calls, an invariant of its type.
pub fn all_replayed(books: &[ClosedBook])
    ensures { All IsReplayed books.now }
{
    for book in books {
        book.log();
    }
}

/// Returns the run whose logs are those of these books, in version 1.
#[tactic(auto, using(crate::proofs::Starting::logs_taken, crate::proofs::FirstLives::logs_first, crate::proofs::FirstLives::in_version_one))]
pub fn run_of(alloc: Global, nodes: u16, books: &[ClosedBook]) -> Result<Run, ThreadsFault>
    requires few { nodes ≤ 32 }
    requires begun { map (λ b. b.start) books.now ≡ starts nodes }
    requires first { All IsFirstBook books.now }
    ensures logs { IfOk result (λ run. AreLogsOf books.now run.logs) }
    ensures version { IfOk result (λ run. run.version ≡ One) }
    ensures lives { IfOk result (λ run. All HasFirstLives run.logs) }
    ensures fault { IfErr result EndsRun }
{
    match Run::of(logs_of(alloc, books)?) {
        Ok(run) => Ok(run),
        Err(_) => unreachable!(),
    }
}
