//! Plays calls of what stands on pages, on stores in memory, from standard input, and prints what each answers: pages that are
//! allocated, entries of the catalog, slots by key, versions off their rows, rows that are written and read along their versions.
//!
//! A case is a line with its name, and its steps, one a line, with what is wanted beside them; docs/PAGES.md tells them. An answer
//! that is another one is told. What is expected is the program's output, which `rt ci` compares with the file `stdout`.
#![tactic(auto)]

mod catalog;
mod files;
mod page;
mod pages;
mod play;
mod player;
mod reading;
mod reads;
mod rows;
mod steps;
mod suite;
mod told;
mod turns;
mod verbs;
mod versions;
mod words;
mod writes;

use player::Player;
use std::io::{self, Read, Write};
use suite::play_suite;

fn main(rt: HostRuntime) -> io::Result<()> {
    let mut suite = Vec::new(rt.alloc());
    let _ = rt.stdin().read_to_end(&mut suite)?;
    let mut player = Player::new(rt.alloc());
    play_suite(&mut player, &suite);
    io::writer(&rt).write_all(player.page.bytes())
}
