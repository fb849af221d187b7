//! Plays a suite of cases from standard input over disks, sources and sinks in memory, and prints what came.
//!
//! A suite is text, one step a line; docs/CASES.md tells the steps. What a case expects is the program's
//! output, which `rt ci` compares with the file `stdout`.
#![tactic(auto)]

mod run;

use ctr_suite::played;
use ctr_suite_runs::Player;
use run::Commands;
use std::io::{self, Read, Write};

fn main(rt: HostRuntime) -> io::Result<()> {
    let mut suite = Vec::new(rt.alloc());
    let _ = rt.stdin().read_to_end(&mut suite)?;
    io::writer(&rt).write_all(&played::<Player<Commands>>(rt.alloc(), &suite))
}
