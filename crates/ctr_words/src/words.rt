// The words of a command line, by the reader of command lines.
ghost use Rattle.std.specs.Prelude.{◌≡◌, map, true, false, IfOk, IfErr, Some, IfSome, codes, nat_le, ◌&&◌, None, if◌then◌else◌, option_and_then};
ghost use Rattle.std.specs.String.{string_bytes};
ghost use Rattle.clap.specs.Words.{app_of, found_of, rows_of, rule_of, subcommand_rows_of};
ghost use Rattle.clap.specs.declared.builder.command.Command.TheViews.{out-Command as fields_of};
ghost use Rattle.ctr_words.specs.Words.{value_rule, frames_rule, threads_rule, keys_rule, number_rule, with_pace, load_command, simple_command, has_folder};
ghost use Rattle.ctr_words.specs.Words.{number_of_option, number_or, frames_asked, keys_asked, asks_threads, load_asked, command_named};
ghost use Rattle.ctr_words.specs.Words.{command_asked, AsksForNothing, AreInRange};
ghost use Rattle.ctr_words.specs.Read.{is_number, IsRunRead};

use clap::error::ErrorKind;
use clap::{Arg, ArgAction, ArgMatches, Command};
use std::alloc::{AllocError, Global};

/// How many frames a run's pool of pages has, if the words don't say.
pub const FRAMES: u16 = 64;

/// How many keys of rows are remembered at most, if the words don't say; they can't ask for more.
pub const KEYS: u32 = 1_048_576;

/// What the program is asked to do.
#[derive(Clone, Copy, Debug, PartialEq, Eq)]
pub enum Subcommand {
    /// Makes the empty database.
    Init,
    /// Runs the script of the source, over a pool of so many frames: 8 to 4,096; its sessions side by side, where threads are asked for; so
    /// many keys of rows are remembered at most: 0 to 1,048,576.
    Run {
        frames: u16,
        threads: bool,
        keys: u32,
    },
    /// Runs a generated script of so many sessions, 1 to 8, and so many rounds, up to 1,000,000, drawn from a seed, over a pool of so many
    /// frames: 8 to 4,096; its sessions side by side, where threads are asked for; so many keys of rows are remembered at most: 0 to 1,048,576.
    Load {
        frames: u16,
        threads: bool,
        keys: u32,
        sessions: u8,
        count: u64,
        seed: u64,
    },
    /// Counts what the database holds.
    Report,
}

/// The most rounds of a generated script.
const MOST_ROUNDS: u64 = 1_000_000;

/// Why the words ask for nothing.
#[derive(Clone, Copy, Debug, PartialEq, Eq)]
pub enum WordsError {
    /// The words are no command.
    Usage,
    /// Memory was refused.
    OutOfMemory,
}

// An option with a value.
fn value_option<'a>(alloc: Global, name: &'a str) -> Arg<'a>
    ensures { (rule_of result ≡ value_rule name.now) × (result.global ≡ false) }
{
    Arg::new(alloc, name).long(name).action(ArgAction::Set)
}

// The option of a run, and of a load.
fn frames_option<'a>(alloc: Global) -> Arg<'a>
    ensures { (rule_of result ≡ frames_rule) × (result.global ≡ false) }
{
    value_option(alloc, "frames").value_parser(clap::value_parser!(u16).range(8..=4096))
}

// The other option of both.
fn threads_option<'a>(alloc: Global) -> Arg<'a>
    ensures { (rule_of result ≡ threads_rule) × (result.global ≡ false) }
{
    Arg::new(alloc, "threads")
        .long("threads")
        .action(ArgAction::SetTrue)
}

// The last option of both.
fn keys_option<'a>(alloc: Global) -> Arg<'a>
    ensures { (rule_of result ≡ keys_rule) × (result.global ≡ false) }
{
    value_option(alloc, "keys").value_parser(clap::value_parser!(u64).range(0..=1_048_576))
}

// The number of a load's sessions.
fn sessions_option<'a>(alloc: Global) -> Arg<'a>
    ensures { (rule_of result ≡ number_rule (codes "sessions") 1 8) × (result.global ≡ false) }
{
    value_option(alloc, "sessions")
        .required(true)
        .value_parser(clap::value_parser!(u64).range(1..=8))
}

// The number of its rounds.
fn count_option<'a>(alloc: Global) -> Arg<'a>
    ensures { (rule_of result ≡ number_rule (codes "count") 0 1000000) × (result.global ≡ false) }
{
    value_option(alloc, "count")
        .required(true)
        .value_parser(clap::value_parser!(u64).range(0..=1_000_000))
}

// Its seed.
fn seed_option<'a>(alloc: Global) -> Arg<'a>
    ensures { (rule_of result ≡ number_rule (codes "seed") 0 18446744073709551615) × (result.global ≡ false) }
{
    value_option(alloc, "seed")
        .required(true)
        .value_parser(clap::value_parser!(u64))
}

// A command with the options of a run and of a load.
fn with_pace<'a>(over: Command<'a>, alloc: Global) -> Result<Command<'a>, AllocError>
    ensures { IfOk result (λ c. (app_of c ≡ with_pace (app_of over.entry)) × ((fields_of over.entry).has_globals ≡ false → (fields_of c).has_globals ≡ false)) }
{
    let beside = over.arg(threads_option(alloc))?;
    let paced = beside.arg(frames_option(alloc))?;
    paced.arg(keys_option(alloc))
}

// The command of a load.
fn load<'a>(alloc: Global) -> Result<Command<'a>, AllocError>
    ensures { IfOk result (λ c. (app_of c ≡ load_command) × ((fields_of c).has_globals ≡ false)) }
{
    let over = Command::new(alloc, "load").arg(Arg::new(alloc, "DIR").required(true))?;
    let of_sessions = over.arg(sessions_option(alloc))?;
    let of_rounds = of_sessions.arg(count_option(alloc))?;
    let drawn = of_rounds.arg(seed_option(alloc))?;
    with_pace(drawn, alloc)
}

// The program's command line.
fn simple<'a>(alloc: Global) -> Result<Command<'a>, AllocError>
    ensures { IfOk result (λ c. app_of c ≡ simple_command) }
{
    let init = Command::new(alloc, "init").arg(Arg::new(alloc, "DIR").required(true))?;
    let over = Command::new(alloc, "run").arg(Arg::new(alloc, "DIR").required(true))?;
    let run = with_pace(over, alloc)?;
    let report = Command::new(alloc, "report").arg(Arg::new(alloc, "DIR").required(true))?;
    Command::new(alloc, "ctr")
        .no_binary_name(true)
        .subcommand_required(true)
        .subcommand(init)?
        .subcommand(run)?
        .subcommand(load(alloc)?)?
        .subcommand(report)
}

// The second word is there and doesn't begin with -.
fn is_over_folder(words: &[String]) -> bool
    ensures { result ≡ has_folder (map string_bytes words.now) }
{
    match words.get(1) {
        Some(word) => word.as_bytes().first() != Some(&b'-'),
        None => false,
    }
}

// The frames that a run asks for.
fn frames(matches: &ArgMatches<'_>) -> u16
    ensures { is_number (rows_of (found_of matches.now)) ≡ true → result ≡ frames_asked (rows_of (found_of matches.now)) }
{
    matches.get_one("frames").unwrap_or(FRAMES)
}

// Whether threads are asked for.
fn threads(matches: &ArgMatches<'_>) -> bool
    ensures { result ≡ asks_threads (rows_of (found_of matches.now)) }
{
    matches.get_one("threads").unwrap_or(false)
}

// A number that lies in a range.
fn within(number: Option<u64>, least: u64, most: u64) -> Option<u64>
    ensures { result ≡ option_and_then (λ n. if nat_le least n && nat_le n most then Some n else None) number }
{
    match number {
        Some(n) if least <= n && n <= most => Some(n),
        _ => None,
    }
}

// The number of an option, in a range.
fn number(matches: &ArgMatches<'_>, name: &str, least: u64, most: u64) -> Option<u64>
    ensures { result ≡ number_of_option name.now least most (rows_of (found_of matches.now)) }
{
    within(matches.get_one(name), least, most)
}

// The number of an option, in a range; another where there is none.
fn number_or(matches: &ArgMatches<'_>, name: &str, least: u64, most: u64, otherwise: u64) -> u64
    ensures { result ≡ number_or name.now least most otherwise (rows_of (found_of matches.now)) }
{
    number(matches, name, least, most).unwrap_or(otherwise)
}

// The keys that are asked for.
fn keys(matches: &ArgMatches<'_>) -> u32
    ensures { result ≡ keys_asked (rows_of (found_of matches.now)) }
{
    number_or(matches, "keys", 0, u64::from(KEYS), u64::from(KEYS)) as u32
}

// A load, with its numbers.
fn load_met(matches: &ArgMatches<'_>) -> Option<Subcommand>
    ensures { result ≡ load_asked (rows_of (found_of matches.now)) }
{
    let sessions = number(matches, "sessions", 1, 8)?;
    let count = number(matches, "count", 0, MOST_ROUNDS)?;
    let seed = number(matches, "seed", 0, u64::MAX)?;
    let frames = number_or(matches, "frames", 8, 4096, u64::from(FRAMES));
    Some(Subcommand::Load {
        frames: frames as u16,
        threads: threads(matches),
        keys: keys(matches),
        sessions: sessions as u8,
        count,
        seed,
    })
}

// The command of this name, with its matches.
fn named(name: &str, matches: &ArgMatches<'_>) -> Option<Subcommand>
    ensures { IsRunRead (name.now, rows_of (found_of matches.now)) → result ≡ command_named (name.now, rows_of (found_of matches.now)) }
{
    match name {
        "init" => Some(Subcommand::Init),
        "run" => Some(Subcommand::Run {
            frames: frames(matches),
            threads: threads(matches),
            keys: keys(matches),
        }),
        "load" => load_met(matches),
        "report" => Some(Subcommand::Report),
        _ => None,
    }
}

// The command that was met.
fn met(matches: &ArgMatches<'_>) -> Option<Subcommand>
    ensures { IfSome (subcommand_rows_of matches.now) IsRunRead → result ≡ option_and_then command_named (subcommand_rows_of matches.now) }
{
    let (name, below) = matches.subcommand()?;
    named(name, below)
}

// The command that the words are, if they are one.
fn parse(alloc: Global, words: &[String]) -> Result<Option<Subcommand>, AllocError>
    ensures { IfOk result (λ asked. asked ≡ command_asked (map string_bytes words.now)) }
{
    if !is_over_folder(words) {
        return Ok(None);
    }
    let command = simple(alloc)?;
    match command.try_get_matches_from(words) {
        Ok(matches) => Ok(met(&matches)),
        Err(error) => match error.kind() {
            ErrorKind::OutOfMemory => Err(AllocError),
            _ => Ok(None),
        },
    }
}

/// What the words behind the program's name ask for: `init DIR`, `run DIR [--threads] [--frames N] [--keys K]`,
/// `load DIR --sessions S --count C --seed X [--threads] [--frames N] [--keys K]` or `report DIR`.
/// Words that are no command are refused with `Usage`.
pub fn command(alloc: Global, words: &[String]) -> Result<Subcommand, WordsError>
    ensures asked { IfOk result (λ s. command_asked (map string_bytes words.now) ≡ Some s) }
    ensures unasked { IfErr result (AsksForNothing (command_asked (map string_bytes words.now))) }
    ensures fits { IfOk result AreInRange }
{
    match parse(alloc, words) {
        Ok(Some(subcommand)) => Ok(subcommand),
        Ok(None) => Err(WordsError::Usage),
        Err(_) => Err(WordsError::OutOfMemory),
    }
}
