//! Plays generated scripts of sessions that meet, by generated orders of turns, on stores in memory, from standard input, and prints what the judge says of
//! them.
//!
//! A suite is text, one step a line; docs/TURNS.md tells the steps. What a case expects is the program's output, which `rt ci` compares
//! with the file `stdout`.
#![tactic(auto)]

mod generated;
mod meetings;
mod player;
mod steps;

use ctr_suite::played;
use player::Player;
use std::io::{self, Read, Write};

fn main(rt: HostRuntime) -> io::Result<()> {
    let mut suite = Vec::new(rt.alloc());
    let _ = rt.stdin().read_to_end(&mut suite)?;
    io::writer(&rt).write_all(&played::<Player>(rt.alloc(), &suite))
}
