//! Plays a suite of cases from standard input: bytes of scripts and of statements alone, and what
//! they say or where they are refused; and generated scripts. Two lines are a case: `script` or `statement`
//! and the bytes, with escapes, or `load` with sessions, rounds and a seed; and behind `=` what is read or
//! generated, spelled in one way, or the place of the refusal.
#![tactic(auto)]

mod bytes;
mod player;
mod told;

use ctr_suite::played;
use player::Player;
use std::io::{self, Read, Write};

fn main(rt: HostRuntime) -> io::Result<()> {
    let mut suite = Vec::new(rt.alloc());
    let _ = rt.stdin().read_to_end(&mut suite)?;
    io::writer(&rt).write_all(&played::<Player>(rt.alloc(), &suite))
}
