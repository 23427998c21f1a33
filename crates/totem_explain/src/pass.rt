//! Which specifications an audit checks together (docs/SPECIFICATIONS.md, "Passes").
use totem_evs::SpecNo;

/// A pass of the audit, which goes on to the next one only if it found no fault.
#[derive(Clone, Copy, PartialEq, Eq, PartialOrd, Ord)]
pub enum Pass {
    A,
    B,
    C,
    D,
}

impl Pass {
    /// Returns the pass that checks a specification.
    pub fn of(spec: SpecNo) -> Pass {
        match spec {
            SpecNo::Twice
            | SpecNo::End
            | SpecNo::Misplaced
            | SpecNo::Configuration
            | SpecNo::Turns => Pass::A,
            SpecNo::Unsent => Pass::B,
            SpecNo::Cycle | SpecNo::Order => Pass::C,
            SpecNo::OwnDelivery
            | SpecNo::Atomicity
            | SpecNo::Causality
            | SpecNo::Gap
            | SpecNo::Safety
            | SpecNo::Installed => Pass::D,
        }
    }
}
