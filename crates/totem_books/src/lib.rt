//! Books: a node's inputs and its answers, call by call, and the receipts that the callers keep (docs/PROTOCOL.md, "Books").
//!
//! What may be relied on:
//! - `Book::apply` stores a call with the answer of the defined node step, and returns its receipt (`followed_by`, `answer`,
//!   `receipt`, specs/History); at a fault nothing changes.
//! - `SharedBook::call` answers as the node does after a list of calls that begins with all that this seat had seen (`IsAnswered`,
//!   specs/Journals). While nobody has the lock, node and log are the replay of the calls.
//! - `close` returns the book with exactly the calls whose receipts the seats have (`Agree`, `Covers`, specs/Receipts),
//!   each after those that its seat had seen. It is refused only if a seat is missing.
//! - The log of a `ClosedBook` is the replay of its calls (`IsRecorded`, specs/Replay).
//!
//! Nothing is claimed about waiting or fairness.
#![tactic(auto)]

mod blank;
mod book;
mod book_fault;
mod call;
mod close_fault;
mod closed;
mod closing;
mod comparing;
mod giving;
mod kept;
mod level;
mod meeting;
mod name;
mod reply;
mod seat;
mod settle;
mod shared;
mod stepping;

pub use blank::Blank;
pub use book::Book;
pub use book_fault::BookFault;
pub use call::{Call, Stub};
pub use close_fault::CloseFault;
pub use closed::ClosedBook;
pub use closing::{CloseRefused, close};
pub use name::BookName;
pub use reply::Reply;
pub use seat::Seat;
pub use shared::SharedBook;
