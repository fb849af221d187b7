//! How many pages were read and how many records were logged, counted at no cost: the counter takes no bytes, and counting is
//! no code.
#![tactic(auto)]

mod steps;

pub use steps::Steps;
