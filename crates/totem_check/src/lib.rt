//! The checker: it judges a run and a certificate, whoever made the certificate (docs/SPECIFICATIONS.md, "The checker").
//!
//! `check` accepts exactly if the certificate certifies the run and the run meets specifications 1 to 7, and then lists what is
//! pending and who waits (`Checks`, specs/Checks); a refusal is right (`RefusesRightly`), and `Broken` names the first fault that the
//! audit would list (`IsFirstFault`). Out of memory says nothing.
//!
//! `judge` judges a run along an order of its events (`IsJudged`, specs/Judged): the checker after the tests of the certificate, and the
//! audit once it has found an order. `early_along` and `LastPass` are its parts, for an audit with workers.
//!
//! `check_plainly`, of totem_plain, has the contract of `check`, and tests each specification as it is defined, by plain loops.
//!
//! Module `checker` begins with what a yes depends on.
#![tactic(auto)]

mod checker;
mod early;
mod judgement;
mod last_pass;

pub use checker::check;
pub use early::{Early, early_along};
pub use judgement::{Judgement, judge};
pub use last_pass::LastPass;
pub use totem_judge_certificate::certified;
pub use totem_outcome::{Accepted, CertificateFault, CheckFault};
pub use totem_plain::check_plainly;
