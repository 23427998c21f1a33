ghost use Rattle.std.specs.Prelude.{◌≡◌, ◌↔◌, IsTrue, IfOk, MatchResult};
ghost use Rattle.totem_names.specs.Lists.{Refuses};
ghost use Rattle.totem_certificate.specs.CertLives.{RefusesCertificate, IsFirstVersion};
ghost use Rattle.totem_certificate.specs.Keeping.{IsBelowLine, IsCertificate, IsCertificateIn, IsOfText};

use crate::line::Line;
use crate::lines::Lines;
use crate::lives::{first_unwritten, first_version};
use std::alloc::{AllocError, Global};
use std::marker::Model;
use totem_evs::{ListFault, Refused};
use totem_names::Version;

/// Numbers for the events of a run, with a line for each log, and the version of its text, 1 or 2. Version 1 writes no
/// lives, so in it each process has life 1. A certificate does not know which runs it certifies.
#[derive(Debug, Drop)]
pub struct Certificate {
    pub version: Version,
    pub lines: Lines,
}

impl Model for Certificate {
    ghost use Rattle.totem_certificate.specs.CertRecord.{CertRecord};
    ghost use Rattle.totem_certificate.specs.Keeping.{IsCertificateOf};

    ghost Value = { CertRecord };

    ghost view = { λ c. record { version = c.version; lines = c.lines } };

    ghost invariant = { λ c. IsCertificateOf (record { version = c.version; lines = c.lines }) };
}

impl Certificate {
    /// Makes the certificate of these lines, whose text has this version. Otherwise refuses the list, with the first rule
    /// that it breaks.
    pub fn new(version: Version, lines: Vec<Line>) -> Result<Certificate, Refused<Vec<Line>>>
        requires { IsOfText version }
        ensures { MatchResult result (λ c. (c.version ≡ version) × (c.lines ≡ lines.items) × IsCertificateIn version lines.items)
            (λ r. (r.value.items ≡ lines.items) × RefusesCertificate version lines.items r.fault) }
    {
        let lines = Lines::new(lines)?;
        match first_unwritten(version, lines.as_slice()) {
            None => Ok(Certificate { version, lines }),
            Some(at) => Err(Refused {
                fault: ListFault::Life(at),
                value: lines.into_vec(),
            }),
        }
    }

    /// Makes the certificate of these lines in the first version whose texts can write them: version 1 if each process has
    /// life 1. Otherwise refuses the list, with the first rule that it breaks.
    #[tactic(auto, using(crate::proofs::WrittenLives::first_certificate))]
    pub fn of(lines: Vec<Line>) -> Result<Certificate, Refused<Vec<Line>>>
        ensures { MatchResult result (λ c. (c.lines ≡ lines.items) × IsFirstVersion c.version lines.items)
            (λ r. (r.value.items ≡ lines.items) × Refuses 0 32 IsBelowLine lines.items r.fault) }
    {
        let lines = Lines::new(lines)?;
        let version = first_version(lines.as_slice());
        Ok(Certificate { version, lines })
    }

    pub fn as_slice(&self) -> &[Line]
        ensures value { result.now ≡ self.now.lines }
        ensures certificate { IsCertificate self.now.lines }
    {
        self.lines.as_slice()
    }

    /// Returns the lines as a vector, without taking memory.
    pub fn into_vec(self) -> Vec<Line>
        ensures { result.items ≡ self.lines }
    {
        let Certificate { version: _, lines } = self;
        lines.into_vec()
    }

    /// Returns whether the two are the same certificate: `==` in a form that contracts can use.
    pub fn is(&self, other: &Certificate) -> bool
        ensures { IsTrue result ↔ (self.now ≡ other.now) }
    {
        self.version == other.version && self.lines.is(&other.lines)
    }

    pub fn try_clone(&self, alloc: Global) -> Result<Certificate, AllocError>
        ensures { IfOk result (λ c. c ≡ self.now) }
    {
        Ok(Certificate {
            version: self.version,
            lines: self.lines.try_clone(alloc)?,
        })
    }
}
