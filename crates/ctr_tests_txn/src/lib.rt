//! Tests of transactions over a store in memory: each call once, eight sessions that are locked before any of them writes,
//! ten thousand commits of one run, the low mark, and the ways in which a transaction ends.
//!
//! Who owns a disk, a store or transactions does nothing else: a play has them behind `&mut`, and keeps what it was answered.
#![tactic(auto)]

#[cfg(test)]
mod at_once;
#[cfg(test)]
mod calls;
#[cfg(test)]
mod commits;
#[cfg(test)]
mod eight;
#[cfg(test)]
mod fixed_disk;
#[cfg(test)]
mod generation;
#[cfg(test)]
mod hoard;
#[cfg(test)]
mod marks;
#[cfg(test)]
mod plays;
#[cfg(test)]
mod refused;
#[cfg(test)]
mod rollbacks;
#[cfg(test)]
mod steps;
#[cfg(test)]
mod turns;
