use thiserror::Error;

/// A set would have more than 32 processes.
#[derive(Clone, Copy, Debug, PartialEq, Eq, Error)]
#[error("there are more than 32 processes")]
pub struct TooMany;
