//! The ledger and the journal of a shared book, before it is opened.
ghost use Rattle.std.specs.Prelude.{◌≡◌};

use crate::call::Stub;
use std::marker::Model;
use std::sync::ledger;
use totem_journal::Journal;

/// A new ledger, divided into parts, and a new journal. No type names them yet.
#[derive(Drop)]
pub struct Blank {
    pub(crate) ledger: ledger::Blank,
    pub(crate) journal: Journal<Stub>,
}

impl Model for Blank {
    ghost use Rattle.std.specs.Prelude.{◌≡◌, []};
    ghost use Rattle.totem_books.specs.Seats.{BlankRecord};

    ghost Value = { BlankRecord };

    ghost view = { λ b. record { name = b.ledger.name; parts = b.ledger.parts; journal = b.journal.name } };

    ghost invariant = { λ b. b.journal.entries ≡ [] };
}

impl Blank {
    /// Returns a blank with this many parts.
    pub fn new(parts: u64) -> Blank
        ensures { result.parts ≡ parts }
    {
        Blank {
            ledger: ledger::Blank::new(parts),
            journal: Journal::new(),
        }
    }
}
