//! The language of the program of cases: its steps, words, numbers and scripts, scripts that are made from a number, and what is printed.
#![tactic(auto)]

mod generated;
mod lists;
mod numbers;
mod page;
mod script;
mod steps;
mod words;

pub use generated::{Length, Maker};
pub use lists::{add, one, set};
pub use numbers::{filling, hex_bytes, name_of, number, numbers_of, split_file, split_number};
pub use page::Page;
pub use script::add_line;
pub use steps::{Step, step_of};
pub use words::{actors_in, root_of, words_in};
