ghost use Rattle.std.specs.Prelude.{◌≡◌, IfOk};
ghost use Rattle.totem_verdicts.specs.VerdictFaults.{verdict_number, verdict_name, run_verdict_fault, cert_verdict_fault, write_verdict_fault};

use std::alloc::{AllocError, Global};
use thiserror::Error;
use totem_certificate::CertFault;
use totem_check::CheckFault;
use totem_evs::{RunFault, WriteFault};

/// Why a call from stream to stream gave no verdict. At every fault but `Write` nothing was written.
#[derive(Debug, Drop, Error)]
pub enum VerdictFault {
    /// The run was refused, or its source failed. Never `RunFault::Memory`.
    #[error("the run was refused: {0}")]
    Run(RunFault),
    /// The certificate could not be read, or its source failed. Never `CertFault::Memory`.
    #[error("the certificate could not be read: {0}")]
    Cert(CertFault),
    /// The certificate does not certify the run. Never `CheckFault::Broken` or `CheckFault::Memory`.
    #[error("the certificate was refused: {0}")]
    Refused(CheckFault),
    /// Memory was refused.
    #[error("out of memory")]
    Memory,
    /// The output failed. It is not known how much was written.
    #[error("write failed")]
    Write,
}

impl VerdictFault {
    /// Returns the fault's number. 4 and 5 are faults of calls that make runs.
    pub fn number(&self) -> u8
        ensures { result ≡ verdict_number self.now }
    {
        match self {
            VerdictFault::Run(_) => 1,
            VerdictFault::Cert(_) => 2,
            VerdictFault::Refused(_) => 3,
            VerdictFault::Memory => 6,
            VerdictFault::Write => 7,
        }
    }

    /// Returns the fault's name.
    pub fn name(&self) -> &'static str
        ensures { result.now ≡ verdict_name self.now }
    {
        match self {
            VerdictFault::Run(_) => "Run",
            VerdictFault::Cert(_) => "Cert",
            VerdictFault::Refused(_) => "Refused",
            VerdictFault::Memory => "Memory",
            VerdictFault::Write => "Write",
        }
    }

    pub fn try_clone(&self, alloc: Global) -> Result<VerdictFault, AllocError>
        ensures { IfOk result (λ f. f ≡ self.now) }
    {
        Ok(match self {
            VerdictFault::Run(fault) => VerdictFault::Run(*fault),
            VerdictFault::Cert(fault) => VerdictFault::Cert(*fault),
            VerdictFault::Refused(fault) => VerdictFault::Refused(fault.try_clone(alloc)?),
            VerdictFault::Memory => VerdictFault::Memory,
            VerdictFault::Write => VerdictFault::Write,
        })
    }
}

impl From<RunFault> for VerdictFault {
    ghost from_gives = { λ f e. e ≡ run_verdict_fault f };

    fn from(fault: RunFault) -> VerdictFault {
        match fault {
            RunFault::Memory => VerdictFault::Memory,
            other => VerdictFault::Run(other),
        }
    }
}

impl From<CertFault> for VerdictFault {
    ghost from_gives = { λ f e. e ≡ cert_verdict_fault f };

    fn from(fault: CertFault) -> VerdictFault {
        match fault {
            CertFault::Memory => VerdictFault::Memory,
            other => VerdictFault::Cert(other),
        }
    }
}

impl From<WriteFault> for VerdictFault {
    ghost from_gives = { λ f e. e ≡ write_verdict_fault f };

    fn from(fault: WriteFault) -> VerdictFault {
        match fault {
            WriteFault::Memory => VerdictFault::Memory,
            WriteFault::Write => VerdictFault::Write,
        }
    }
}
