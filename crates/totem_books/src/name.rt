//! The names of shared books.
use std::marker::Brand;
use std::sync::ledger::Ledger;

/// The name of a shared book: a ledger, a journal, and the start of the book's node. It is a type without values; a
/// function that is generic over it is called at `Brand`.
pub trait BookName: Ledger {
    ghost use Rattle.std.specs.Prelude.{ℕ, List};
    ghost use Rattle.totem_names.specs.Names.{RingName};

    ghost journal: { ℕ };

    ghost me: { ℕ };

    ghost ring: { RingName };

    ghost members: { List ℕ };
}

impl BookName for Brand {
    ghost use Rattle.std.specs.Prelude.{[]};

    ghost journal = { 0 };

    ghost me = { 0 };

    ghost ring = { record { seq = 0; rep = 0 } };

    ghost members = { [] };
}
