//! A journal and its pens.
ghost use Rattle.std.specs.Prelude.{◌≡◌, ◌++◌, ◌∷◌, [], List, ℕ};
ghost use mathlib.Core.List.{IsPrefix};
ghost use base.Stored.{coded_ℕ, coded×, coded_list};
ghost use Rattle.totem_journal.specs.Tokens.{journal_owns, pen_owns};

use std::marker::{Model, PhantomData};

/// A list of entries that only grows. Each entry has the mark of the pen that wrote it, and what was noted.
pub struct Journal<E> {
    marker: PhantomData<E>,
    pub ghost name: { ℕ },
    pub ghost entries: { List (ℕ × E) } by { coded_list (coded× coded_ℕ E.code) },
}

impl<E> Model for Journal<E> {
    ghost also_owns = { λ j. journal_owns E.row.coded.code j.name j.entries };
}

/// Notes entries in a journal, with a mark that no other pen has. It knows the journal's entries as of its last call.
pub struct Pen<E> {
    marker: PhantomData<E>,
    pub ghost journal: { ℕ },
    pub ghost mark: { ℕ },
    pub ghost seen: { List (ℕ × E) } by { coded_list (coded× coded_ℕ E.code) },
}

impl<E> Model for Pen<E> {
    ghost also_owns = { λ p. pen_owns E.row.coded.code p.journal p.mark p.seen };
}

impl<E> Journal<E> {
    /// Makes a journal without entries.
    pub fn new() -> Journal<E>
        ensures { result.entries ≡ [] }
    {
        Journal {
            marker: PhantomData,
        }
    }

    /// Makes a pen of this journal, which has seen all entries.
    pub fn pen(&mut self) -> Pen<E>
        ensures { (result.journal ≡ self.old.name) × (self.new.name ≡ self.old.name) × (self.new.entries ≡ self.old.entries)
            × (result.seen ≡ self.old.entries) }
    {
        Pen {
            marker: PhantomData,
        }
    }

    /// Appends this value with the pen's mark. The contract says that the entries began with what the pen had seen.
    pub fn note(&mut self, pen: &mut Pen<E>, what: &E)
        requires { pen.old.journal ≡ self.old.name }
        ensures { (self.new.name ≡ self.old.name) × (self.new.entries ≡ self.old.entries ++ (pen.old.mark, what.now) ∷ [])
            × (pen.new.journal ≡ pen.old.journal) × (pen.new.mark ≡ pen.old.mark) × (pen.new.seen ≡ self.new.entries)
            × IsPrefix pen.old.seen self.old.entries }
    {}

    /// Shows the pen all entries. The contract says that they begin with what the pen had seen.
    pub fn learn(&mut self, pen: &mut Pen<E>)
        requires { pen.old.journal ≡ self.old.name }
        ensures { (self.new ≡ self.old) × (pen.new.journal ≡ pen.old.journal) × (pen.new.mark ≡ pen.old.mark)
            × (pen.new.seen ≡ self.old.entries) × IsPrefix pen.old.seen self.old.entries }
    {}

    /// Does nothing. The contract says that the entries begin with what the pen has seen.
    pub fn look(&mut self, pen: &mut Pen<E>)
        requires { pen.old.journal ≡ self.old.name }
        ensures { (self.new ≡ self.old) × (pen.new ≡ pen.old) × IsPrefix pen.old.seen self.old.entries }
    {}
}

impl<E> Pen<E> {
    /// Does nothing. The contract says that the two pens have different marks.
    pub fn apart(&mut self, other: &mut Pen<E>)
        ensures { (self.new ≡ self.old) × (other.new ≡ other.old) × (self.old.mark ≡ other.old.mark → ⊥) }
    {}
}

impl<E> Drop for Journal<E> {
    fn drop(self) {
        let Self { marker: _ } = self;
    }
}

impl<E> Drop for Pen<E> {
    fn drop(self) {
        let Self { marker: _ } = self;
    }
}

unsafe impl<E> Send for Journal<E> {}

unsafe impl<E> Send for Pen<E> {}
