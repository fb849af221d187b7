//! Tests of what is kept in memory of transactions and pages: tables of transactions, snapshots, locks, frames. They
//! need public items alone, so they stand here and not in those crates, which would be proved twice.
//!
//! Who owns tables, locks or a pool does nothing else: the calls stand in a function that has them behind `&mut` and
//! answers plain data.
#![tactic(auto)]

#[cfg(test)]
mod locks;
#[cfg(test)]
mod pool;
#[cfg(test)]
mod seen;
#[cfg(test)]
mod snapshots;
#[cfg(test)]
mod tables;
