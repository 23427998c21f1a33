use thiserror::Error;

/// Why lines of numbers do not certify a run. The whole run is searched for each reason before the next one.
#[derive(Clone, Copy, Debug, PartialEq, Eq, Error)]
pub enum CertificateFault {
    #[error("the lines do not match the logs and their entries")]
    Count,
    #[error("the numbers of a log are not in ascending order")]
    NotRising,
    #[error("the number of a send is not below that of a delivery of its message")]
    SendNotBefore,
    #[error("two entries of one class have different numbers")]
    TwinsDiffer,
    #[error("two entries of different classes share a number")]
    SharedPosition,
}
