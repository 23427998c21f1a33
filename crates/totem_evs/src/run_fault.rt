//! Why a run could not be read.
ghost use Rattle.std.specs.Prelude.{◌≡◌};
ghost use Rattle.totem_evs.specs.declared.run_fault.RunFault.TheVariants.{Memory};
ghost use Rattle.totem_evs.specs.RunFaults.{fault_number, fault_name, run_fault};

use std::alloc::{AllocError, AllocFailed};
use thiserror::Error;
use totem_names::{ReadError, TextFault, WrittenProc};

/// Why a run could not be read (docs/SPECIFICATIONS.md, "Run text").
#[derive(Clone, Copy, Debug, PartialEq, Eq, Error)]
pub enum RunFault {
    #[error("the text does not begin with a line `totem-run 1`, `totem-run 2` or `totem-run 3`")]
    Header,
    #[error("unexpected byte")]
    Word,
    #[error("a number that is out of range or has leading zeros")]
    Number,
    #[error("logs not in ascending order of their processes")]
    Order,
    #[error("members not in ascending order")]
    Members,
    #[error("a closing word that does not fit the log's entries, or bytes after the last line")]
    End,
    #[error("the text ends before its last line")]
    Truncated,
    #[error("more than 32 logs, 32 members, or 1,000,000 entries of a log")]
    TooMany,
    #[error("process {0} has no log")]
    MissingLog(WrittenProc),
    #[error("reading failed")]
    Read,
    #[error("out of memory")]
    Memory,
}

impl RunFault {
    /// Returns the fault's number, counted from 1 in the order above.
    pub fn number(&self) -> u8
        ensures { result ≡ fault_number self.now }
    {
        match self {
            RunFault::Header => 1,
            RunFault::Word => 2,
            RunFault::Number => 3,
            RunFault::Order => 4,
            RunFault::Members => 5,
            RunFault::End => 6,
            RunFault::Truncated => 7,
            RunFault::TooMany => 8,
            RunFault::MissingLog(_) => 9,
            RunFault::Read => 10,
            RunFault::Memory => 11,
        }
    }

    /// Returns the fault's name.
    pub fn name(&self) -> &'static str
        ensures { result.now ≡ fault_name self.now }
    {
        match self {
            RunFault::Header => "Header",
            RunFault::Word => "Word",
            RunFault::Number => "Number",
            RunFault::Order => "Order",
            RunFault::Members => "Members",
            RunFault::End => "End",
            RunFault::Truncated => "Truncated",
            RunFault::TooMany => "TooMany",
            RunFault::MissingLog(_) => "MissingLog",
            RunFault::Read => "Read",
            RunFault::Memory => "Memory",
        }
    }
}

impl From<TextFault> for RunFault {
    ghost use Rattle.totem_evs.specs.RunFaults.{text_fault};

    ghost from_gives = { λ f e. e ≡ text_fault f };

    fn from(fault: TextFault) -> RunFault {
        match fault {
            TextFault::Header => RunFault::Header,
            TextFault::Word => RunFault::Word,
            TextFault::Number => RunFault::Number,
            TextFault::Order => RunFault::Order,
            TextFault::Members => RunFault::Members,
            TextFault::End => RunFault::End,
            TextFault::Truncated => RunFault::Truncated,
            TextFault::TooMany => RunFault::TooMany,
        }
    }
}

impl From<ReadError> for RunFault {
    ghost from_gives = { λ f e. e ≡ run_fault f };

    fn from(error: ReadError) -> RunFault {
        match error {
            ReadError::Memory => RunFault::Memory,
            ReadError::Read => RunFault::Read,
            ReadError::Text(fault) => RunFault::from(fault),
        }
    }
}

impl From<AllocError> for RunFault {
    ghost from_gives = { λ _ e. e ≡ Memory };

    fn from(_e: AllocError) -> RunFault {
        RunFault::Memory
    }
}

impl<T: Drop> From<AllocFailed<T>> for RunFault {
    ghost from_gives = { λ _ e. e ≡ Memory };

    fn from(e: AllocFailed<T>) -> RunFault {
        RunFault::from(AllocError::from(e))
    }
}
