//! Tests of the workers of a run, over turns in memory: that they run side by side, that each turn is behind its gate, and how each worker ends.
//!
//! What is shared is plain data: it keeps who had turns and what was wrong, and the tests ask it behind the run.
#![tactic(auto)]

#[cfg(test)]
mod ends;
#[cfg(test)]
mod meets;
#[cfg(test)]
mod notes;
#[cfg(test)]
mod seats;
