//! Tests of what holds bytes: a file in memory, real files in a folder, real streams. They need public items alone, so
//! they stand here and not in those crates, which would be proved twice.
//!
//! Who owns a disk does nothing else: the calls stand in a function that has it behind `&mut` and answers plain data.
#![tactic(auto)]

#[cfg(test)]
mod bytes;
#[cfg(test)]
mod files;
#[cfg(test)]
mod marks;
#[cfg(test)]
mod streams;
