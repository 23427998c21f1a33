ghost use Rattle.std.specs.Prelude.{◌≡◌, map, IfOk};
ghost use Rattle.totem_table.specs.Tables.{kind_of};

use std::alloc::{AllocError, Global};
use std::marker::Model;
use totem_evs::Entry;

/// What an entry is, without what it names.
#[derive(Clone, Copy, Debug)]
pub enum Kind {
    Change,
    Sending,
    Delivery,
    Failure,
}

impl Kind {
    pub fn of(entry: &Entry) -> Kind
        ensures { result ≡ kind_of entry.now }
    {
        match entry {
            Entry::Conf(_, _) => Kind::Change,
            Entry::Send(_, _, _) => Kind::Sending,
            Entry::Deliver(_, _) => Kind::Delivery,
            Entry::Fail(_) => Kind::Failure,
        }
    }
}

/// The kind of each entry of a log, in a byte: walks that jump from log to log read these, and not the entries.
#[derive(Debug, Drop)]
pub struct Kinds {
    list: Vec<Kind>,
}

impl Model for Kinds {
    ghost use Rattle.std.specs.Prelude.{List};
    ghost use Rattle.totem_table.specs.declared.kind.Kind.{Kind};

    ghost Value = { List Kind };

    ghost view = { λ kinds. kinds.list.items };
}

impl Kinds {
    pub fn new(list: Vec<Kind>) -> Kinds
        ensures { result ≡ list.items }
    {
        Kinds { list }
    }

    pub fn of(alloc: Global, entries: &[Entry]) -> Result<Kinds, AllocError>
        ensures { IfOk result (λ kinds. kinds ≡ map kind_of entries.now) }
    {
        let mut list = Vec::with_capacity(alloc, entries.len())?;
        for entry in entries {
            list.push(Kind::of(entry))?;
        }
        Ok(Kinds { list })
    }

    pub fn as_slice(&self) -> &[Kind]
        ensures { result.now ≡ self.now }
    {
        &self.list
    }
}
