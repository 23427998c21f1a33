//! Why a certificate could not be read.
ghost use Rattle.std.specs.Prelude.{◌≡◌};
ghost use Rattle.totem_certificate.specs.CertFaults.{fault_number, fault_name, cert_fault};

use thiserror::Error;
use totem_names::{ReadError, TextFault};

/// Why a certificate could not be read (docs/SPECIFICATIONS.md, "Certificate text").
#[derive(Clone, Copy, Debug, PartialEq, Eq, Error)]
pub enum CertFault {
    #[error("the text does not begin with the line `totem-cert 1` or `totem-cert 2`")]
    Header,
    #[error("unexpected byte")]
    Word,
    #[error("a number that is out of range or has leading zeros")]
    Number,
    #[error("lines not in ascending order of their processes")]
    Order,
    #[error("the text ends before its last line")]
    Truncated,
    #[error("more than 32 lines, or 1,000,000 numbers in one")]
    TooMany,
    /// The reader of certificates never returns this. It is for callers that require the input to end after the certificate.
    #[error("bytes after the last line")]
    End,
    #[error("reading failed")]
    Read,
    #[error("out of memory")]
    Memory,
}

impl CertFault {
    /// Returns the fault's number, counted from 1 in the order above.
    pub fn number(&self) -> u8
        ensures { result ≡ fault_number self.now }
    {
        match self {
            CertFault::Header => 1,
            CertFault::Word => 2,
            CertFault::Number => 3,
            CertFault::Order => 4,
            CertFault::Truncated => 5,
            CertFault::TooMany => 6,
            CertFault::End => 7,
            CertFault::Read => 8,
            CertFault::Memory => 9,
        }
    }

    /// Returns the fault's name.
    pub fn name(&self) -> &'static str
        ensures { result.now ≡ fault_name self.now }
    {
        match self {
            CertFault::Header => "Header",
            CertFault::Word => "Word",
            CertFault::Number => "Number",
            CertFault::Order => "Order",
            CertFault::Truncated => "Truncated",
            CertFault::TooMany => "TooMany",
            CertFault::End => "End",
            CertFault::Read => "Read",
            CertFault::Memory => "Memory",
        }
    }
}

impl From<TextFault> for CertFault {
    ghost use Rattle.totem_certificate.specs.CertFaults.{text_fault};

    ghost from_gives = { λ f e. e ≡ text_fault f };

    // A certificate has no members: the fault of a list that is not ascending is Order.
    fn from(fault: TextFault) -> CertFault {
        match fault {
            TextFault::Header => CertFault::Header,
            TextFault::Word => CertFault::Word,
            TextFault::Number => CertFault::Number,
            TextFault::Order => CertFault::Order,
            TextFault::Members => CertFault::Order,
            TextFault::End => CertFault::End,
            TextFault::Truncated => CertFault::Truncated,
            TextFault::TooMany => CertFault::TooMany,
        }
    }
}

impl From<ReadError> for CertFault {
    ghost from_gives = { λ f e. e ≡ cert_fault f };

    fn from(error: ReadError) -> CertFault {
        match error {
            ReadError::Memory => CertFault::Memory,
            ReadError::Read => CertFault::Read,
            ReadError::Text(fault) => CertFault::from(fault),
        }
    }
}
