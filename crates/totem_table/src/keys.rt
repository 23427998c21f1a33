//! The keys of registers of changes.
use totem_names::{ConfId, Proc};

/// A change of configuration: the process that changes, and the configuration that it changes to.
#[derive(Clone, Copy, Debug, PartialEq, Eq, PartialOrd, Ord)]
pub struct Change {
    pub proc: Proc,
    pub conf: ConfId,
}
