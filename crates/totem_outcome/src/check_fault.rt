//! Why a run with a certificate was not accepted.
ghost use Rattle.std.specs.Prelude.{◌≡◌, IfOk};
ghost use Rattle.totem_outcome.specs.declared.check_fault.CheckFault.TheVariants.{Memory};
ghost use Rattle.totem_outcome.specs.CheckFaults.{fault_number, fault_name};

use crate::certificate_fault::CertificateFault;
use std::alloc::{AllocError, Global};
use thiserror::Error;
use totem_evs::Fault;

/// Why a run with a certificate was not accepted. Each reason is sought in the whole run before the next one.
#[derive(Debug, Drop, Error)]
pub enum CheckFault {
    #[error("the lines do not match the logs and their entries")]
    Count,
    #[error("the numbers of a log are not in ascending order")]
    NotRising,
    #[error("the number of a send is not below that of a delivery of its message")]
    SendNotBefore,
    #[error("two entries of one class have different numbers")]
    TwinsDiffer,
    #[error("two entries of different classes share a number")]
    SharedPosition,
    /// The first fault that the audit would list.
    #[error("the run breaks a specification")]
    Broken(Fault),
    #[error("out of memory")]
    Memory,
}

impl CheckFault {
    /// Returns the fault's number, counted from 1 in the order above.
    pub fn number(&self) -> u8
        ensures { result ≡ fault_number self.now }
    {
        match self {
            CheckFault::Count => 1,
            CheckFault::NotRising => 2,
            CheckFault::SendNotBefore => 3,
            CheckFault::TwinsDiffer => 4,
            CheckFault::SharedPosition => 5,
            CheckFault::Broken(_) => 6,
            CheckFault::Memory => 7,
        }
    }

    /// Returns the fault's name.
    pub fn name(&self) -> &'static str
        ensures { result.now ≡ fault_name self.now }
    {
        match self {
            CheckFault::Count => "Count",
            CheckFault::NotRising => "NotRising",
            CheckFault::SendNotBefore => "SendNotBefore",
            CheckFault::TwinsDiffer => "TwinsDiffer",
            CheckFault::SharedPosition => "SharedPosition",
            CheckFault::Broken(_) => "Broken",
            CheckFault::Memory => "Memory",
        }
    }

    pub fn try_clone(&self, alloc: Global) -> Result<CheckFault, AllocError>
        ensures { IfOk result (λ f. f ≡ self.now) }
    {
        Ok(match self {
            CheckFault::Count => CheckFault::Count,
            CheckFault::NotRising => CheckFault::NotRising,
            CheckFault::SendNotBefore => CheckFault::SendNotBefore,
            CheckFault::TwinsDiffer => CheckFault::TwinsDiffer,
            CheckFault::SharedPosition => CheckFault::SharedPosition,
            CheckFault::Broken(fault) => CheckFault::Broken(fault.try_clone(alloc)?),
            CheckFault::Memory => CheckFault::Memory,
        })
    }
}

impl From<CertificateFault> for CheckFault {
    ghost use Rattle.totem_outcome.specs.CheckFaults.{check_fault};

    ghost from_gives = { λ f e. e ≡ check_fault f };

    fn from(fault: CertificateFault) -> CheckFault {
        match fault {
            CertificateFault::Count => CheckFault::Count,
            CertificateFault::NotRising => CheckFault::NotRising,
            CertificateFault::SendNotBefore => CheckFault::SendNotBefore,
            CertificateFault::TwinsDiffer => CheckFault::TwinsDiffer,
            CertificateFault::SharedPosition => CheckFault::SharedPosition,
        }
    }
}

impl From<AllocError> for CheckFault {
    ghost from_gives = { λ _ e. e ≡ Memory };

    fn from(_e: AllocError) -> CheckFault {
        CheckFault::Memory
    }
}
