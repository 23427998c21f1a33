//! Pass C: the certificate of a run, or a closed list of events that shows that the run has none (docs/SPECIFICATIONS.md,
//! "Positions").
//!
//! What may be relied on:
//! - `positions` returns the one certificate that the run has by its positions, or the closed list that breaks 1.1 or 6.1
//!   (`IsOrder`, specs/Answer, by `IsPositions` and `IsCycle` of totem_evs). It holds for every run.
//! - There is at most one of each, and never both: the laws `positions_are_one`, `closed_lists_are_one`,
//!   `closed_lists_exclude_certificates`.
//!
//! It re-exports totem_certificate, so whoever makes certificates can also read and write them.
#![tactic(auto)]

mod closed;
mod closed_list;
mod counted;
mod counts;
mod firsts;
mod heads;
mod laws;
mod numbering;
mod order;
mod step;
mod twins;
mod walk;

pub use laws::{closed_lists_are_one, closed_lists_exclude_certificates, positions_are_one};
pub use order::{Order, positions};
pub use totem_certificate::{
    CertFault, Certificate, Line, Lines, Numbers, NumbersFault, RefusedNumbers, a_fault_is_no_text,
    a_fault_is_of_a_line, cut_text_goes_on, fault_byte_is_first, fault_is_first,
    faults_are_its_own, header_is_in_the_first_line, no_text_begins_another, number_is_of_a_number,
    order_is_of_a_line_that_does_not_rise, put_cert, read_cert, read_is_spelled, spelled_is_read,
    too_many_is_past_a_limit, word_is_the_rest, write_cert,
};
