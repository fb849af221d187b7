//! The program `ctr`: a command over the files of a folder, from standard input to standard output.
#![tactic(auto)]

ghost use Rattle.std.specs.Prelude.{◌≡◌, ◌∷◌, List, String, IfOk};
ghost use Rattle.std.specs.String.{string_bytes};
ghost use Rattle.std.specs.Process.{exit_status};
ghost use Rattle.ctr_top.specs.Endings.{status_of};

use ctr_file::FileDisk;
use ctr_io::{ReadSource, WriteSink};
use ctr_top::{Ended, OpenGate};
use std::alloc::{AllocError, Global};
use std::env;
use std::io::{self, ErrorKind};
use std::mem::forget;
use std::process::ExitCode;

/// The status of a faulty command line.
const USAGE: u8 = 2;

/// The status of a program to which memory was refused.
const NO_MEMORY: u8 = 8;

// The words behind the program's name.
fn words_behind(rt: &HostRuntime) -> io::Result<Vec<String>> {
    let mut words = env::args(rt)?;
    let _name = words.next();
    Ok(words.collect(rt.alloc())?)
}

// The folder that the second word names. Where there is none, no call reaches the disk.
fn folder_of(alloc: Global, words: &[String]) -> Result<String, AllocError>
    ensures second { IfOk result (λ folder. (command word : String Global) (rest : List (String Global)) → words.now ≡ command ∷ word ∷ rest → string_bytes folder ≡ string_bytes word) }
{
    match words.get(1) {
        Some(word) => word.clone(),
        None => Ok(String::new(alloc)),
    }
}

// The status with which the program ends is that of the command.
fn exit_code<D>(ended: &Ended<D>) -> ExitCode
    ensures { exit_status result ≡ status_of ended.now.ending }
{
    ExitCode::from(ended.ending.status())
}

fn main(rt: HostRuntime) -> ExitCode {
    let words = match words_behind(&rt) {
        Ok(words) => words,
        // A word that isn't UTF-8 is no command's.
        Err(error) if error.kind() == ErrorKind::InvalidData => {
            let _ = println!(rt; "ctr: usage");
            return ExitCode::from(USAGE);
        }
        Err(_) => {
            let _ = println!(rt; "ctr: out of memory");
            return ExitCode::from(NO_MEMORY);
        }
    };
    let Ok(folder) = folder_of(rt.alloc(), &words) else {
        let _ = println!(rt; "ctr: out of memory");
        return ExitCode::from(NO_MEMORY);
    };
    let disk = FileDisk::new(rt, rt.alloc(), folder);
    let mut source = ReadSource::new(rt.stdin());
    let mut sink = WriteSink::new(io::writer(&rt));
    let ended = ctr_top::run(
        &rt,
        rt.alloc(),
        &words,
        disk,
        &mut source,
        &mut sink,
        &OpenGate,
    );
    let code = exit_code(&ended);
    // The process ends here, and its memory with it: a long tape isn't freed entry by entry.
    forget(ended.left.tape);
    code
}
