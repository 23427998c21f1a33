//! Calls that are refused memory and made again, calls that don't allocate, and forged bytes.
//!
//! If these tests run alone, nothing is refused. All but those of `forged` are made to be run while the k-th request for memory is
//! refused, for each k (`tests/hostile/run calls`), and pass for each k. Those of `starved` also pass if all later requests are
//! refused.
#![tactic(auto)]

/// Evaluates a call, and evaluates it once more if it was refused. Its arguments are borrowed, or made anew. A function has no other
/// code around it, because the call stands in it twice and costs twice as much to prove.
#[cfg(test)]
macro_rules! again {
    ($call:expr) => {
        match $call {
            Err(_) => $call,
            given => given,
        }
    };
}

#[cfg(test)]
mod answers;
#[cfg(test)]
mod copies;
#[cfg(test)]
mod forged;
#[cfg(test)]
mod gatherings;
#[cfg(test)]
mod recoveries;
#[cfg(test)]
mod samples;
#[cfg(test)]
mod scripts;
#[cfg(test)]
mod shared_books;
#[cfg(test)]
mod starved;
