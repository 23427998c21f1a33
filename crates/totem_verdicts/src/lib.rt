//! Verdicts over any three streams: reads runs and certificates, judges them, and writes reports, explanations and pictures; and
//! the auditor, which answers a command line (docs/SPECIFICATIONS.md, "Report text", and docs/PROGRAM.md).
//!
//! What may be relied on:
//! - `report_io`: with an outcome, the whole input is the text of one run, and what was written is the report of that run's answer in
//!   the form that is asked for, and nothing else (`Reports`, specs/AuditIo). With a yes the run meets specifications 1 to 7. `audit_io`
//!   writes the whole report (`Audits`).
//! - `check_by` and `check_io`: the same for a run and its certificate, with the checker's report (`ChecksText`, specs/CheckIo).
//! - `explain_io`: the outcome is that of the run's answer; of what is written the contract says less (`ExplainsRun`, specs/ExplainIo).
//!   `trace_io` judges nothing: what it writes, and whether it finds the message, no contract says (`TracesRun`).
//! - At each fault except a failed write nothing was written, and the fault is that of the reader, the checker or a stream.
//! - `judge_io` does what it is asked for, and each status comes only with these streams (`Judges`); for `answer` and `auditor` see `Answers`
//!   and `Ends`, beside it in specs/Endings. Which arguments ask for what, no contract says.
//!
//! totem_cluster, the whole program, answers `audit`, `explain` and `check` by these calls.
#![tactic(auto)]

mod alone;
mod answering;
mod audit_stream;
mod check_stream;
mod command_line;
mod explain_stream;
mod judging;
mod left_open;
mod message_name;
mod outcome;
mod rendering;
mod report;
mod run_words;
mod telling;
mod trace_stream;
mod verdict_fault;
mod words;

pub use alone::auditor;
pub use answering::answer;
pub use audit_stream::{audit_io, report_io};
pub use check_stream::{Checker, check_by, check_io};
pub use command_line::{listed, no_words};
pub use explain_stream::{Explanation, explain_io};
pub use judging::judge_io;
pub use outcome::Outcome;
pub use rendering::Rendering;
pub use report::Form;
pub use run_words::RunWords;
pub use telling::{
    put_cert_fault, put_check_fault, put_refusal, put_run_fault, put_text, tell, tell_fault,
};
pub use totem_audit::Workers;
pub use trace_stream::trace_io;
pub use verdict_fault::VerdictFault;
pub use words::{Asked, Words, read_words};
