//! Journals: histories that only grow, for contracts only. A journal and its pens take no bytes, and their functions do nothing
//! when they run: they let contracts of one thread know what another thread has noted.
//!
//! What may be relied on:
//! - `Journal::new` begins without entries, and `Journal::note` appends one, with the mark of the pen.
//! - What a pen has seen of its journal is a prefix of the entries: `note`, `learn` and `look` say so.
//! - Two pens have different marks: `Pen::apart`.
//!
//! This crate depends on no other. The proofs of its functions are written by hand. totem_books keeps a journal under the lock of a
//! book: so a contract can say that the calls that a seat has seen stay in the book.
#![tactic(auto)]

mod journal;

pub use journal::{Journal, Pen};
