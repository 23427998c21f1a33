//! The plain checker: the definitions as a program (docs/SPECIFICATIONS.md, "The checker").
//!
//! `check_plainly` has the contract of totem_check `check`, word for word, and the code is as short as the definitions. `one_log` and
//! `all_logs` ask what the definitions ask of one log and of all logs. Each specification that is not settled by the certificate is a module,
//! here or (1.3, 1.4, 2.3, 2.4) in totem_search, whose name ends with its number: totem_search tries the events of the run in rising places
//! until the first list that breaks it. All is looked for entry by entry, so a check may take time with the cube of the number of entries.
#![tactic(auto)]

mod all_logs;
mod atomicity_4;
mod causality_5;
mod certificate;
mod ends_2_1;
mod gap_6_3;
mod gathered;
mod installed_7_2;
mod left_open;
mod misplaced_2_2;
mod numbered;
mod one_log;
mod own_3;
mod passes;
mod plainly;
mod safety_7_1;

pub use plainly::check_plainly;
