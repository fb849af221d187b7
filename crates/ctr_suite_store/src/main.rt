//! Plays calls on stores in memory, from standard input, opens what each stop leaves, and says to how many of the records
//! it folds.
//!
//! A case is a line with its name, its steps, one a line, and a question with what is wanted beside it; docs/STORES.md tells them.
//! An answer that is another one is told. What is expected is the program's output, which `rt ci` compares with the file `stdout`.
#![tactic(auto)]

mod cases;
mod generation;
mod opening;
mod page;
mod patches;
mod plain;
mod reading;
mod run;
mod runs;
mod steps;
mod stops;
mod suite;
mod words;

use page::Page;
use std::io::{self, Read, Write};
use suite::play_suite;

fn main(rt: HostRuntime) -> io::Result<()> {
    let mut suite = Vec::new(rt.alloc());
    let _ = rt.stdin().read_to_end(&mut suite)?;
    let mut page = Page::new(rt.alloc());
    play_suite(rt.alloc(), &suite, &mut page);
    io::writer(&rt).write_all(page.bytes())
}
