//! Which logs lack something that others have.
ghost use Rattle.std.specs.Prelude.{◌≡◌, ◌<◌, ℕ};
ghost use Rattle.std.specs.Bool.{OnFalse, OnTrue};
ghost use Rattle.totem_judge_traffic.specs.LogSets.{AreIn, AreNoted};

use crate::log_set::LogSet;

/// For each log, the logs that lack something that it has.
#[derive(Drop)]
pub struct Rows {
    rows: [LogSet; 32],
    /// All that are in a row.
    lacking: LogSet,
    /// What was added last, as it mostly comes again: the rows of these logs have these others.
    last_by: LogSet,
    last_lacking: LogSet,
    ghost all: { AreIn rows lacking },
    ghost last: { AreNoted rows last_by last_lacking },
}

impl Rows {
    ghost use Rattle.totem_judge_traffic.specs.LogSets.{Has};
    ghost use Rattle.totem_judge_traffic.specs.Lacking.{RowHas, RowIsApart, RowsAreApart, KeepsRows, AddsToRows};

    /// Returns empty rows.
    pub fn new() -> Rows {
        Rows {
            rows: [LogSet::none(); 32],
            lacking: LogSet::none(),
            last_by: LogSet::none(),
            last_lacking: LogSet::none(),
        }
    }

    /// Adds logs to the row of this log.
    fn add_to_row(&mut self, log: u32, lacking: LogSet)
        requires { log < 32 }
        ensures kept { KeepsRows self.old self.new }
        ensures added { (other : ℕ) → Has lacking other → RowHas self.new log other }
    {
        let at = log as usize;
        self.lacking = self.lacking.union(lacking);
        self.rows[at] = self.rows[at].union(lacking);
    }

    /// Adds logs to the rows of these logs.
    #[tactic(auto, using(crate::proofs::Rowing::rows_added))]
    fn add_to_rows(&mut self, by: LogSet, lacking: LogSet)
        ensures kept { KeepsRows self.old self.new }
        ensures added { AddsToRows by lacking 32 self.new }
    {
        for log in 0..by.end() {
            if by.contains(log) {
                self.add_to_row(log, lacking);
            }
        }
    }

    /// Remembers what was added last.
    #[tactic(auto, using(crate::proofs::Rowing::keeps_all, crate::proofs::Rowing::noted_all))]
    fn remember(&mut self, by: LogSet, lacking: LogSet)
        requires { AddsToRows by lacking 32 self.old }
        ensures { self.new.rows ≡ self.old.rows }
    {
        self.last_by = by;
        self.last_lacking = lacking;
    }

    /// Returns whether this was added last, or there is nothing to add.
    #[tactic(auto, using(crate::proofs::Rowing::adds_noted))]
    fn has_added(&self, by: LogSet, lacking: LogSet) -> bool
        ensures { OnTrue result (AddsToRows by lacking 32 self.now) }
    {
        if lacking.is_empty() {
            return true;
        }
        if !by.is_within(self.last_by) {
            return false;
        }
        if !lacking.is_within(self.last_lacking) {
            return false;
        }
        true
    }

    /// Notes that the logs in `by` have something that those in `lacking` lack.
    #[tactic(auto, using(crate::proofs::Rowing::rows_added, crate::proofs::Rowing::keeps_again, crate::proofs::Rowing::adds_again))]
    pub fn add(&mut self, by: LogSet, lacking: LogSet)
        ensures kept { KeepsRows self.old self.new }
        ensures added { AddsToRows by lacking 32 self.new }
    {
        if self.has_added(by, lacking) {
            return;
        }
        self.add_to_rows(by, lacking);
        self.remember(by, lacking);
    }

    /// Returns whether one of the others may lack something that this log has. If it returns `false`, none does.
    pub fn row_meets(&self, log: u32, others: LogSet) -> bool
        requires { log < 32 }
        ensures { OnFalse result (RowIsApart self.now log others) }
    {
        !self.rows[log as usize].is_apart(others)
    }

    /// Returns whether one of the others may lack something that a log in `by` has. If it returns `false`, none does.
    #[tactic(auto, using(crate::proofs::Rowing::apart_none, crate::proofs::Rowing::apart_row))]
    pub fn meet(&self, by: LogSet, others: LogSet) -> bool
        ensures { OnFalse result (RowsAreApart self.now by others 32) }
    {
        if others.is_apart(self.lacking) {
            return false;
        }
        for log in 0..by.end() {
            if by.contains(log) && self.row_meets(log, others) {
                return true;
            }
        }
        false
    }
}
