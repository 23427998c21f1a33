//! Processes of a run: each life of an identifier is a process of its own.
ghost use Rattle.std.specs.Prelude.{◌≡◌, ◌↔◌, ◌+◌, ◌<◌, Some, IsTrue, MatchOption};
ghost use Rattle.totem_names.specs.Ranks.{rank_of, id_of, life_of, LifeBelow};
ghost use Rattle.totem_names.specs.Processes.{life_text, process_text, first_version};

use crate::process::ProcId;
use crate::version::Version;
use std::fmt;
use std::marker::Model;

/// A process of a run: an identifier, and which of its lives this is, from 1 to 65535. Processes are ordered by
/// identifier, then by life.
#[derive(Clone, Copy, Debug, PartialEq, Eq, PartialOrd, Ord, Hash)]
pub struct Proc {
    pub id: ProcId,
    pub life: u16,
}

impl Model for Proc {
    ghost use Rattle.std.specs.Prelude.{ℕ, ◌<◌};
    ghost use Rattle.std.proofs.lemmas.Nat.{div-mul-add, mod-mul-add};
    ghost use Rattle.totem_names.specs.Ranks.{rank_of, id_of, life_of};

    ghost Value = { ℕ };

    ghost view = { λ p. rank_of p.id p.life };

    ghost invariant = { λ p. (0 < p.life) × (p.life < 65536) };

    ghost inverse = { λ n. record { id = id_of n; life = life_of n } };

    ghost inverse_ok = { λ p h i. record {
      id = div-mul-add p.id 65536 p.life h.1 i;
      life = mod-mul-add p.id 65536 p.life h.1 i;
    } };
}

impl Proc {
    /// Returns the process with this identifier and life, or `None` if the life is 0.
    pub fn new(id: ProcId, life: u16) -> Option<Proc>
        ensures { MatchOption result (life ≡ 0) (λ p. p ≡ rank_of id life) }
    {
        if life == 0 {
            return None;
        }
        Some(Proc { id, life })
    }

    /// Returns the process with this identifier and a life that is known not to be 0.
    pub fn of(id: ProcId, life: u16) -> Proc
        requires { 0 < life }
        ensures { result ≡ rank_of id life }
    {
        Proc { id, life }
    }

    /// Returns the first life of this identifier.
    pub fn first(id: ProcId) -> Proc
        ensures { result ≡ rank_of id 1 }
    {
        Proc { id, life: 1 }
    }

    pub fn id(self) -> ProcId
        ensures { result ≡ id_of self }
    {
        self.id
    }

    pub fn life(self) -> u16
        ensures value { result ≡ life_of self }
        ensures positive { 0 < result }
    {
        self.life
    }

    /// Returns a number by which processes are ordered: 65536 times the identifier, plus the life.
    pub fn rank(self) -> u32
        ensures value { result ≡ self }
        ensures positive { 0 < result }
    {
        u32::from(self.id.number()) * 65536 + u32::from(self.life)
    }

    /// Returns the next life of the same identifier, or `None` if this one is 65535.
    pub fn next_life(self) -> Option<Proc>
        ensures { MatchOption result (life_of self ≡ 65535) (λ p. p ≡ rank_of (id_of self) (life_of self + 1)) }
    {
        let life = self.life.checked_add(1)?;
        Some(Proc { id: self.id, life })
    }

    /// Returns the first version whose texts can write this process.
    pub fn first_version(self) -> Version
        ensures { result ≡ first_version self }
    {
        if self.life() == 1 {
            Version::One
        } else {
            Version::Two
        }
    }

    /// Returns the process as texts of this version write it, for `Display`.
    pub fn written(self, version: Version) -> WrittenProc
        ensures { (result.version ≡ version) × (result.process ≡ self) }
    {
        WrittenProc {
            version,
            process: self,
        }
    }

    /// Returns whether this process comes before the other: `<` in a form that contracts can use.
    pub fn is_below(&self, other: &Proc) -> bool
        ensures { IsTrue result ↔ LifeBelow self.now other.now }
    {
        *self < *other
    }
}

/// Writes the identifier and the life, as in `2:1`.
impl fmt::Display for Proc {
    ghost output = { λ p. Some (life_text p) };

    fn fmt<W: fmt::Write>(&self, f: &mut fmt::Formatter<W>) -> fmt::Result {
        let id = self.id;
        let life = self.life;
        write!(f, "{id}:{life}")
    }
}

/// A process as texts of some version write it.
#[derive(Clone, Copy, Debug, PartialEq, Eq)]
pub struct WrittenProc {
    pub version: Version,
    pub process: Proc,
}

/// Writes the identifier, with the life where the version writes lives: as in `2:1`, or in `2`.
impl fmt::Display for WrittenProc {
    ghost output = { λ w. Some (process_text w.version w.process) };

    fn fmt<W: fmt::Write>(&self, f: &mut fmt::Formatter<W>) -> fmt::Result {
        let process = self.process;
        if self.version.lives() {
            return write!(f, "{process}");
        }
        let id = process.id();
        write!(f, "{id}")
    }
}
