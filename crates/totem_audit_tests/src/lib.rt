//! Tests of runs, certificates, the rules and the judge, passes, audits and checks, by public calls.
#![tactic(auto)]

#[cfg(test)]
mod audits;
#[cfg(test)]
mod checks;
#[cfg(test)]
mod faults;
#[cfg(test)]
mod jobs;
#[cfg(test)]
mod judging;
#[cfg(test)]
mod orders;
#[cfg(test)]
mod positions;
#[cfg(test)]
mod rules;
#[cfg(test)]
mod sources;
#[cfg(test)]
mod stitches;
#[cfg(test)]
mod texts;
#[cfg(test)]
mod values;
#[cfg(test)]
mod walks;
#[cfg(test)]
mod writing;
