//! What a check of a run and a certificate answers, whichever checker is asked: `Checks` and `RefusesRightly` (specs/Checks) are the
//! contract of totem_check `check` and of totem_plain `check_plainly`. `matches_logs` and `all_rise` are the first two tests of a
//! certificate.
#![tactic(auto)]

mod accepted;
mod certificate_fault;
mod check_fault;
mod lines;

pub use accepted::Accepted;
pub use certificate_fault::CertificateFault;
pub use check_fault::CheckFault;
pub use lines::{all_rise, matches_logs, rises};
