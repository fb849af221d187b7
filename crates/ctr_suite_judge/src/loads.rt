// The generated script of a load.
ghost use Rattle.std.specs.Prelude.{◌≤◌};

use crate::setup::Setup;
use ctr_load::make;
use ctr_suite_steps::number;
use ctr_types::{OutOfMemory, Script};
use std::alloc::{AllocError, Global};

// The number behind a word; 0 where there is none.
fn number_behind(words: &[String], name: &str) -> u64 {
    let mut found = false;
    for word in words {
        if found {
            return number(word.as_bytes()).unwrap_or(0);
        }
        found = word.as_str() == name;
    }
    0
}

/// The sessions of a load.
pub fn sessions_of(setup: &Setup) -> u64 {
    number_behind(&setup.words, "--sessions")
}

// As many as a script may have.
fn fitting(sessions: u64) -> u8
    ensures { (1 ≤ result) × (result ≤ 8) }
{
    sessions.clamp(1, 8) as u8
}

/// The script of a load, by its words.
pub fn load_script(alloc: Global, setup: &Setup) -> Result<Script, OutOfMemory> {
    let count = number_behind(&setup.words, "--count").min(1_000_000);
    let seed = number_behind(&setup.words, "--seed");
    make(alloc, fitting(sessions_of(setup)), count, seed)
}

/// How many statements the script of a load has; 0 for another command.
pub fn statements_of(alloc: Global, setup: &Setup) -> Result<u64, AllocError> {
    if !setup.is_command("load") {
        return Ok(0);
    }
    let Ok(script) = load_script(alloc, setup) else {
        return Err(AllocError);
    };
    let count = script.lines.len() as u64;
    drop(script);
    Ok(count)
}
