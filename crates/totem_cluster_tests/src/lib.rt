//! The calls of totem_cluster and totem_audit that a program makes: from stream to stream, in threads, with workers and
//! gates. What the program prints is tested with the built one, by `tests/program` and `tests/hostile`.
#![tactic(auto)]

#[cfg(test)]
mod progress;
#[cfg(test)]
mod runs;
#[cfg(test)]
mod streams;
#[cfg(test)]
mod texts;
#[cfg(test)]
mod threads;
#[cfg(test)]
mod workers;
