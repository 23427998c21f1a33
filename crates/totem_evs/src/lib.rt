//! Runs: what processes recorded, and what extended virtual synchrony requires of it.
//!
//! What may be relied on:
//! - `Members`, `Entries`, `Logs` and `Run` keep the rules of specs/Members and specs/Runs (`IsMembers`, `IsEntries`, `IsRun`).
//!   Their `new` refuses any other list and gives it back.
//! - `read_run` returns exactly the run that the bytes spell, or the first fault of the grammar (`ReadsRun`, specs/Reading);
//!   `RunReader` reads the same part by part (`ReadsNext`, `parts_make_the_run`). `write_run` writes `run_text` (specs/RunText).
//!   Spelling and grammar fit: `spelled_is_read`, `read_is_spelled`, `fault_byte_is_first`.
//! - What the specifications require is defined in specs/ and computed nowhere in this crate: `Meets` and `IsAnswered`
//!   (specs/Answers), `Breaks` (specs/Faults), `ArePending` and `AreWaiting` (specs/Unsettled), `Certified` (specs/Certificates).
//! - The defined answer means what it says (`answers_are_sound`): with a yes the run meets specifications 1 to 7, with a no each
//!   fault breaks its own. A certificate gives 1.1 and 6.1 (`certified_is_ordered`). In a certified run that meets 1.3, 1.4 and
//!   2.2, causal delivery between the sends and deliveries of each log gives it over chains of any length (`chains_are_fine`).
//!
//! The nodes, which know nothing of the audit, write their logs with these types: this crate and totem_names are all that both share.
#![tactic(auto)]

mod display;
mod ending;
mod entries;
mod entry;
mod fault;
mod form;
mod heads;
mod laws;
mod lines;
mod lives;
mod log;
mod logs;
mod members;
mod part;
mod part_laws;
mod part_reader;
mod pending;
mod reading;
mod repeats;
mod roll;
mod roster;
mod run;
mod run_fault;
mod run_reader;
mod spec;
mod stage;
mod text_laws;
mod unlogged;
mod whole_lines;
mod writing;

pub use ending::Ending;
pub use entries::Entries;
pub use entry::Entry;
pub use fault::{Fault, Places};
pub use form::Form;
pub use heads::{read_head, read_header};
pub use laws::{
    answers_are_sound, breaks_are_breaks, certified_is_ordered, chains_are_fine,
    each_log_is_ordered, twins_agree,
};
pub use log::Log;
pub use logs::Logs;
pub use members::Members;
pub use part::Part;
pub use part_laws::{part_is_spelled, parts_are_spelled, parts_make_the_run, text_is_of_parts};
pub use pending::{Pending, Waiting};
pub use reading::{read_end, read_run};
pub use run::Run;
pub use run_fault::RunFault;
pub use run_reader::{Next, RunReader};
pub use spec::SpecNo;
pub use text_laws::{
    a_fault_is_no_text, a_fault_is_of_a_part, cut_text_goes_on, end_is_of_a_closing_word,
    fault_byte_is_first, fault_is_first, header_is_in_the_first_line,
    members_is_of_a_member_that_does_not_rise, no_text_begins_another, number_is_of_a_number,
    order_is_of_a_log_that_does_not_rise, read_is_spelled, spelled_is_read,
    too_many_is_past_a_limit, word_is_the_rest,
};
pub use totem_names::{ListFault, Refused};
pub use writing::{WriteFault, put_header, write_run};
