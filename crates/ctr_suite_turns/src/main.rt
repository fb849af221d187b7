//! Plays the sessions of scripts by turns, on stores in memory, from standard input, and prints what each turn logs and tells, and what
//! is open after each stop.
//!
//! A suite is text, one step a line; docs/TURNS.md tells the steps. What a case expects is the program's output, which `rt ci` compares
//! with the file `stdout`.
#![tactic(auto)]

mod player;
mod steps;

use ctr_suite::played;
use player::Player;
use std::io::{self, Read, Write};

fn main(rt: HostRuntime) -> io::Result<()> {
    let mut suite = Vec::new(rt.alloc());
    let _ = rt.stdin().read_to_end(&mut suite)?;
    io::writer(&rt).write_all(&played::<Player>(rt.alloc(), &suite))
}
