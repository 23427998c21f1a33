//! Certificates judged: whether the numbers of a certificate order the events of a run, by one walk along them.
//!
//! What may be relied on, by the contract of `certified`:
//! - it accepts exactly if the certificate certifies the run (`Certified` of totem_evs, specs/Certificates);
//! - otherwise it names the first of `Count`, `NotRising`, `SendNotBefore`, `TwinsDiffer` and `SharedPosition` that applies
//!   (`Answers`, specs/Certifying);
//! - it is refused memory only if the lines match the logs and are ascending.
//!
//! This crate uses no table, pass or search of the audit.
#![tactic(auto)]

mod ascending;
mod certification;
mod class;
mod passed;
mod sends;
mod spread;
mod walk;

pub use certification::certified;
pub use totem_outcome::CertificateFault;
