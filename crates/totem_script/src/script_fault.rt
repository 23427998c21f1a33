//! Why a script makes no run.
ghost use Rattle.std.specs.Prelude.{◌≡◌};
ghost use Rattle.totem_script.specs.declared.script_fault.ScriptFault.TheVariants.{Memory};
ghost use Rattle.totem_script.specs.ScriptFaults.{fault_number, fault_name, of_line};

use crate::fault::LineFault;
use std::alloc::{AllocError, AllocFailed};
use thiserror::Error;

/// What is wrong with a line of a script. If there are several faults, it is the first of them in this order
/// (docs/PROTOCOL.md, "Scripts").
#[derive(Clone, Copy, Debug, PartialEq, Eq, Error)]
pub enum ScriptFault {
    #[error("the script does not begin with a line `totem-script 1` or `totem-script 2`")]
    Header,
    #[error("unexpected or missing word")]
    Word,
    #[error("expected a number in range, without leading zeros")]
    Number,
    #[error("expected one or more `ring` lines before all other commands")]
    Order,
    #[error("invalid process list")]
    Members,
    #[error("there is no such packet, or the process can't return")]
    Place,
    #[error("unexpected text after the last line")]
    End,
    #[error("the script ends too soon")]
    Truncated,
    #[error("more than 32 processes, 65,536 bytes, or 1,000,000 entries of a log")]
    TooMany,
    #[error("the script can't be read")]
    Read,
    #[error("out of memory")]
    Memory,
}

/// Why a script makes no run, and the number of the line, counted from 1, at which it was found. If the script ends
/// too early, that is the missing line. With `Read` and `Memory` it is the line that was under way.
#[derive(Clone, Copy, Debug, PartialEq, Eq, Error)]
#[error("line {line}: {kind}")]
pub struct FaultyLine {
    pub kind: ScriptFault,
    pub line: u32,
}

impl ScriptFault {
    /// Returns the fault's number, counted from 1 in the order above.
    pub fn number(&self) -> u8
        ensures { result ≡ fault_number self.now }
    {
        match self {
            ScriptFault::Header => 1,
            ScriptFault::Word => 2,
            ScriptFault::Number => 3,
            ScriptFault::Order => 4,
            ScriptFault::Members => 5,
            ScriptFault::Place => 6,
            ScriptFault::End => 7,
            ScriptFault::Truncated => 8,
            ScriptFault::TooMany => 9,
            ScriptFault::Read => 10,
            ScriptFault::Memory => 11,
        }
    }

    /// Returns the fault's name.
    pub fn name(&self) -> &'static str
        ensures { result.now ≡ fault_name self.now }
    {
        match self {
            ScriptFault::Header => "Header",
            ScriptFault::Word => "Word",
            ScriptFault::Number => "Number",
            ScriptFault::Order => "Order",
            ScriptFault::Members => "Members",
            ScriptFault::Place => "Place",
            ScriptFault::End => "End",
            ScriptFault::Truncated => "Truncated",
            ScriptFault::TooMany => "TooMany",
            ScriptFault::Read => "Read",
            ScriptFault::Memory => "Memory",
        }
    }
}

impl From<AllocError> for ScriptFault {
    ghost from_gives = { λ _ e. e ≡ Memory };

    fn from(_e: AllocError) -> ScriptFault {
        ScriptFault::Memory
    }
}

impl<T: Drop> From<AllocFailed<T>> for ScriptFault {
    ghost from_gives = { λ _ e. e ≡ Memory };

    fn from(e: AllocFailed<T>) -> ScriptFault {
        ScriptFault::from(AllocError::from(e))
    }
}

impl From<LineFault> for ScriptFault {
    ghost from_gives = { λ fault e. e ≡ of_line fault };

    fn from(fault: LineFault) -> ScriptFault {
        match fault {
            LineFault::Word => ScriptFault::Word,
            LineFault::Number => ScriptFault::Number,
            LineFault::Memory => ScriptFault::Memory,
        }
    }
}
