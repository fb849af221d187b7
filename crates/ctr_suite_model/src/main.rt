//! Plays a suite of cases from standard input: scripts and tapes in the slow machine, and what is
//! printed of them. Each line is a step; what it gives is compared with the lines behind it that
//! begin with `|`.
#![tactic(auto)]

mod entry;
mod follow;
mod judge;
mod last;
mod lists;
mod machine;
mod page;
mod player;
mod printed;
mod run;
mod spelled;
mod steps;
mod trouble;
mod words;

use ctr_suite::played;
use player::Player;
use std::io::{self, Read, Write};

fn main(rt: HostRuntime) -> io::Result<()> {
    let mut suite = Vec::new(rt.alloc());
    let _ = rt.stdin().read_to_end(&mut suite)?;
    io::writer(&rt).write_all(&played::<Player>(rt.alloc(), &suite))
}
