//! Tests of networks, books, runs in threads and woven rings, by public calls.
#![tactic(auto)]

#[cfg(test)]
mod books;
#[cfg(test)]
mod network_threads;
#[cfg(test)]
mod networks;
#[cfg(test)]
mod recorded;
#[cfg(test)]
mod runs;
#[cfg(test)]
mod shared_books;
#[cfg(test)]
mod weaves;
