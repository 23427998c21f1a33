//! Certificates, which number the events of a run: what they are, and how they are read and written (docs/SPECIFICATIONS.md,
//! "Certificate text").
//!
//! What may be relied on:
//! - `Numbers`, `Lines` and `Certificate` keep the rules of the text (`IsNumbers`, `IsCertificate`, `IsCertificateIn`,
//!   specs/Keeping). Their `new` refuses any other list, and gives it back with the first rule that it breaks.
//! - `read_cert` returns exactly the certificate that the bytes spell, or the first fault of the grammar (`ReadsCert`,
//!   specs/Reading).
//! - `write_cert` and `put_cert` write `cert_text` (specs/CertText).
//! - Spelling and grammar fit, and a fault is that of the first byte after which no text goes on: the laws `read_is_spelled`,
//!   `spelled_is_read`, `no_text_begins_another`, `fault_byte_is_first`, `faults_are_its_own`.
//!
//! Whether a certificate certifies a run is not known here: totem_evs defines it, totem_judge_certificate decides it, totem_cert
//! finds one.
#![tactic(auto)]

mod cert_fault;
mod certificate;
mod form;
mod line;
mod lines;
mod lives;
mod numbers;
mod open_line;
mod reading;
mod text_laws;
mod writing;

pub use cert_fault::CertFault;
pub use certificate::Certificate;
pub use line::Line;
pub use lines::Lines;
pub use numbers::{Numbers, NumbersFault, RefusedNumbers};
pub use open_line::OpenLine;
pub use reading::read_cert;
pub use text_laws::{
    a_fault_is_no_text, a_fault_is_of_a_line, cut_text_goes_on, fault_byte_is_first,
    fault_is_first, faults_are_its_own, header_is_in_the_first_line, no_text_begins_another,
    number_is_of_a_number, order_is_of_a_line_that_does_not_rise, read_is_spelled, spelled_is_read,
    too_many_is_past_a_limit, word_is_the_rest,
};
pub use writing::{put_cert, write_cert};
