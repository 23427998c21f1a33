//! The tables of following configurations: what follows a regular configuration in the log of a process, and which regular
//! configuration another one follows (docs/SPECIFICATIONS.md, "Following").
//!
//! What may be relied on:
//! - `Stitch::build` makes the tables of the run: for each process exactly what follows each regular configuration in its log, and
//!   the first regular configuration that each one follows (`IsStitch`, specs/Stitched).
//! - `Stitch::follow` and `Stitch::before` return what the tables have, or `None` (`follower_of` and `origin_of`, specs/Stitched).
//!   Neither reads a log or allocates memory: their types give them access to neither.
//!
//! No pass of the audit uses these tables: they are there for totem_walk, and for callers of the crates alone. Nothing uses
//! `before` yet.
#![tactic(auto)]

mod changes;
mod stitch;
mod table;

pub use stitch::Stitch;
