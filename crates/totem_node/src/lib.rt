//! Nodes and the scripts that move them, for callers: hands out all of totem_core, and of totem_script what makes a run. Has nothing
//! of its own.
//!
//! What may be relied on is said there. The crates of the product use those two themselves.
#![tactic(auto)]

pub use totem_core::{
    Input, NodeCore, NodeFault, Recovering, RingStep, State, StepOut, first_lives_stay,
};
pub use totem_ring::{Act, To};
pub use totem_script::{FaultyLine, ScriptFault, follow, simulate};
