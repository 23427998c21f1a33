ghost use Rattle.std.specs.Prelude.{◌≡◌, IfOk};
ghost use Rattle.totem_cluster.specs.IoFaults.{io_number, io_name, verdict_io_fault, write_io_fault, script_io_fault, threads_io_fault};

use std::alloc::{AllocError, Global};
use thiserror::Error;
use totem_certificate::CertFault;
use totem_check::CheckFault;
use totem_evs::{RunFault, WriteFault};
use totem_script::ScriptFault;
use totem_threads::{BookTrouble, ThreadsFault};
use totem_verdicts::VerdictFault;

/// Why a call from stream to stream gave no outcome. At every fault but `Write` nothing was written.
#[derive(Debug, Drop, Error)]
pub enum IoFault {
    /// The run was refused, or its source failed. Never `RunFault::Memory`.
    #[error("the run was refused: {0}")]
    Run(RunFault),
    /// The certificate could not be read, or its source failed. Never `CertFault::Memory`.
    #[error("the certificate could not be read: {0}")]
    Cert(CertFault),
    /// The certificate does not certify the run. Never `CheckFault::Broken` or `CheckFault::Memory`.
    #[error("the certificate was refused: {0}")]
    Refused(CheckFault),
    /// The script makes no run, or its source failed. Never `ScriptFault::Memory`.
    #[error("the script was refused: {0}")]
    Script(ScriptFault),
    /// A book of a run in threads was full, or its log too long. Always `BookTrouble::Call(BookFault::Long)`.
    #[error("the run was given up: {0}")]
    Book(BookTrouble),
    /// Memory was refused or, in a run in threads, a thread could not be made.
    #[error("out of memory")]
    Memory,
    /// The output failed. It is not known how much was written.
    #[error("write failed")]
    Write,
}

impl IoFault {
    /// Returns the fault's number, counted from 1 in the order above.
    pub fn number(&self) -> u8
        ensures { result ≡ io_number self.now }
    {
        match self {
            IoFault::Run(_) => 1,
            IoFault::Cert(_) => 2,
            IoFault::Refused(_) => 3,
            IoFault::Script(_) => 4,
            IoFault::Book(_) => 5,
            IoFault::Memory => 6,
            IoFault::Write => 7,
        }
    }

    /// Returns the fault's name.
    pub fn name(&self) -> &'static str
        ensures { result.now ≡ io_name self.now }
    {
        match self {
            IoFault::Run(_) => "Run",
            IoFault::Cert(_) => "Cert",
            IoFault::Refused(_) => "Refused",
            IoFault::Script(_) => "Script",
            IoFault::Book(_) => "Book",
            IoFault::Memory => "Memory",
            IoFault::Write => "Write",
        }
    }

    pub fn try_clone(&self, alloc: Global) -> Result<IoFault, AllocError>
        ensures { IfOk result (λ f. f ≡ self.now) }
    {
        Ok(match self {
            IoFault::Run(fault) => IoFault::Run(*fault),
            IoFault::Cert(fault) => IoFault::Cert(*fault),
            IoFault::Refused(fault) => IoFault::Refused(fault.try_clone(alloc)?),
            IoFault::Script(fault) => IoFault::Script(*fault),
            IoFault::Book(trouble) => IoFault::Book(*trouble),
            IoFault::Memory => IoFault::Memory,
            IoFault::Write => IoFault::Write,
        })
    }
}

impl From<VerdictFault> for IoFault {
    ghost from_gives = { λ f e. e ≡ verdict_io_fault f };

    fn from(fault: VerdictFault) -> IoFault {
        match fault {
            VerdictFault::Run(fault) => IoFault::Run(fault),
            VerdictFault::Cert(fault) => IoFault::Cert(fault),
            VerdictFault::Refused(fault) => IoFault::Refused(fault),
            VerdictFault::Memory => IoFault::Memory,
            VerdictFault::Write => IoFault::Write,
        }
    }
}

impl From<WriteFault> for IoFault {
    ghost from_gives = { λ f e. e ≡ write_io_fault f };

    fn from(fault: WriteFault) -> IoFault {
        match fault {
            WriteFault::Memory => IoFault::Memory,
            WriteFault::Write => IoFault::Write,
        }
    }
}

impl From<ScriptFault> for IoFault {
    ghost from_gives = { λ f e. e ≡ script_io_fault f };

    fn from(fault: ScriptFault) -> IoFault {
        match fault {
            ScriptFault::Memory => IoFault::Memory,
            _ => IoFault::Script(fault),
        }
    }
}

impl From<ThreadsFault> for IoFault {
    ghost from_gives = { λ f e. e ≡ threads_io_fault f };

    fn from(fault: ThreadsFault) -> IoFault {
        match fault {
            ThreadsFault::Memory => IoFault::Memory,
            ThreadsFault::Book(trouble) => IoFault::Book(trouble),
        }
    }
}
