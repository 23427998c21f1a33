//! Sets of logs of a run, by their index in it.
ghost use Rattle.std.specs.Prelude.{◌≡◌, ◌≢◌, ◌⊎◌, ◌↔◌, ℕ, ◌<◌, IsTrue, IfSome, IfNone};

/// A set of at most 32 logs.
#[derive(Clone, Copy, Debug)]
pub struct LogSet {
    // Bit i is set if the set has the log at index i.
    bits: u32,
}

#[tactic(auto, using(crate::proofs::Sets::operations))]
impl LogSet {
    ghost use Rattle.totem_judge_traffic.specs.LogSets.{Has, IsWithin, AreApart, IsEmpty, IsLeast, IsEnd};

    /// Returns the empty set.
    pub fn none() -> LogSet
        ensures { IsEmpty result }
    {
        LogSet { bits: 0 }
    }

    /// Returns the set of the logs whose bits are set: bit i stands for the log at index i.
    pub fn from_bits(bits: u32) -> LogSet
        ensures { result.bits ≡ bits }
    {
        LogSet { bits }
    }

    /// Returns the set of all indices that a log can have.
    pub fn all() -> LogSet
        ensures { (log : ℕ) → log < 32 → Has result log }
    {
        LogSet { bits: u32::MAX }
    }

    pub fn contains(self, log: u32) -> bool
        requires { log < 32 }
        ensures { IsTrue result ↔ Has self log }
    {
        (self.bits >> log) & 1 == 1
    }

    pub fn with(self, log: u32) -> LogSet
        requires { log < 32 }
        ensures same { Has result log }
        ensures others { (other : ℕ) → other ≢ log → Has result other ↔ Has self other }
    {
        LogSet {
            bits: self.bits | (1 << log),
        }
    }

    pub fn without(self, log: u32) -> LogSet
        requires { log < 32 }
        ensures same { Has result log → ⊥ }
        ensures others { (other : ℕ) → other ≢ log → Has result other ↔ Has self other }
    {
        LogSet {
            bits: self.bits & !(1 << log),
        }
    }

    pub fn union(self, other: LogSet) -> LogSet
        ensures { (log : ℕ) → Has result log ↔ (Has self log ⊎ Has other log) }
    {
        LogSet {
            bits: self.bits | other.bits,
        }
    }

    pub fn intersection(self, other: LogSet) -> LogSet
        ensures { (log : ℕ) → Has result log ↔ (Has self log × Has other log) }
    {
        LogSet {
            bits: self.bits & other.bits,
        }
    }

    /// Returns the logs of this set that are not in the other.
    pub fn minus(self, other: LogSet) -> LogSet
        ensures { (log : ℕ) → Has result log ↔ (Has self log × (Has other log → ⊥)) }
    {
        LogSet {
            bits: self.bits & !other.bits,
        }
    }

    pub fn is_empty(self) -> bool
        ensures { IsTrue result ↔ IsEmpty self }
    {
        self.bits == 0
    }

    /// Returns whether the other set has each log of this one.
    pub fn is_within(self, other: LogSet) -> bool
        ensures { IsTrue result ↔ IsWithin self other }
    {
        self.minus(other).is_empty()
    }

    /// Returns whether the two sets have no log in common.
    pub fn is_apart(self, other: LogSet) -> bool
        ensures { IsTrue result ↔ AreApart self other }
    {
        self.intersection(other).is_empty()
    }

    /// Returns the first log of the set, or `None` if it has none.
    pub fn least(self) -> Option<u32>
        ensures some { IfSome result (IsLeast self) }
        ensures none { IfNone result (IsEmpty self) }
    {
        if self.bits == 0 {
            return None;
        }
        Some(self.bits.trailing_zeros())
    }

    /// Returns the index after that of the last log of the set, or 0 if the set is empty.
    pub(crate) fn end(self) -> u32
        ensures { IsEnd self result }
    {
        32 - self.bits.leading_zeros()
    }
}
