//! Tests of `run` with threads at hand, over disks in memory: that sessions come between each other's statements, and what the slow machine says of the tape.
#![tactic(auto)]

#[cfg(test)]
mod fold;
#[cfg(test)]
mod gates;
#[cfg(test)]
mod judged;
#[cfg(test)]
mod loads;
#[cfg(test)]
mod met;
#[cfg(test)]
mod play;
#[cfg(test)]
mod sessions;
