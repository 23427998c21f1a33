//! Tests of names, packets, rings, gatherings, recoveries, nodes and scripts, by public calls.
#![tactic(auto)]

#[cfg(test)]
mod commits;
#[cfg(test)]
mod exchanges;
#[cfg(test)]
mod gatherings;
#[cfg(test)]
mod lives;
#[cfg(test)]
mod names;
#[cfg(test)]
mod nodes;
#[cfg(test)]
mod packet_bytes;
#[cfg(test)]
mod packet_sizes;
#[cfg(test)]
mod recoveries;
#[cfg(test)]
mod recovery_samples;
#[cfg(test)]
mod ring_samples;
#[cfg(test)]
mod rings;
#[cfg(test)]
mod simulations;
#[cfg(test)]
mod streams;
#[cfg(test)]
mod tables;
#[cfg(test)]
mod values;
