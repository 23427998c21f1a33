//! Scripts: texts that say line by line what happens to some nodes (docs/PROTOCOL.md, "Scripts").
//!
//! What may be relied on:
//! - `read_command` returns the command of a line by the grammar, or the fault of its first unexpected byte (`command_of`,
//!   specs/Commands).
//! - `simulate` returns the run of the script: its lines folded over the defined node step, with a log for each life of each
//!   process (`simulate`, specs/Simulation, over `step` of totem_core). A fault is that of the first line that has one;
//!   `follow` does the same, and names the line.
//! - A process returns exactly if it has crashed and numbers and lives are left, and then begins its next life, alone on a ring:
//!   the laws `only_the_crashed_return`, `a_return_begins_the_next_life`.
//!
//! Here there are no threads, no losses by chance and no clock: a script has one run.
#![tactic(auto)]

mod actor;
mod cast;
mod command;
mod cutting;
mod fault;
mod groups;
mod keyword;
mod laws;
mod lines;
mod numbers;
mod parts;
mod playing;
mod posting;
mod process_list;
mod reading;
mod scene;
mod script_fault;
mod script_version;
mod submitting;

pub use command::Command;
pub use fault::LineFault;
pub use groups::Groups;
pub use keyword::Keyword;
pub use laws::{
    a_return_begins_the_next_life, a_run_has_its_scripts_version, only_the_crashed_return,
};
pub use parts::Parts;
pub use playing::{follow, simulate};
pub use process_list::ProcessList;
pub use reading::read_command;
pub use script_fault::{FaultyLine, ScriptFault};
pub use script_version::ScriptVersion;
