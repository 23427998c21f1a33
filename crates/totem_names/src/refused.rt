use std::error::Error;
use std::fmt;
use thiserror::Error as ThisError;

/// The first rule that a list breaks. Indices count from 0.
#[derive(Clone, Copy, Debug, PartialEq, Eq, ThisError)]
pub enum ListFault {
    #[error("the list is empty")]
    Empty,
    #[error("more than {0} elements")]
    TooMany(usize),
    #[error("the element at index {0} is not above the one before")]
    NotRising(usize),
    /// In a list for texts of version 1: the element is of another life than 1, or names one.
    #[error("the element at index {0} has or names a life other than 1")]
    Life(usize),
    /// In a list for texts of version 1 or 2: the element is quiet.
    #[error("the element at index {0} is quiet")]
    Silence(usize),
}

/// A value that was refused, with the first rule that it breaks.
#[derive(Debug, Drop)]
pub struct Refused<V> {
    pub fault: ListFault,
    pub value: V,
}

impl<V> fmt::Display for Refused<V> {
    fn fmt<W: fmt::Write>(&self, f: &mut fmt::Formatter<W>) -> fmt::Result {
        write!(f, "{}", self.fault)
    }
}

impl<V: fmt::Debug + Drop> Error for Refused<V> {}
