// How a command ends, with its status and its cause.
ghost use Rattle.std.specs.Prelude.{◌≡◌};
ghost use Rattle.ctr_top.specs.Endings.{status_of, cause_of, asked_as, opened_as, read_as, ran_as, made_as};

use ctr_database::running::RunEnd;
use ctr_disk::Stop;
use ctr_log::OpenError;
use ctr_model::Cause;
use ctr_script::ScriptError;
use ctr_store::CreateError;
use ctr_types::Damage;
use ctr_words::WordsError;

/// How a command ends.
#[derive(Clone, Copy, Debug, PartialEq, Eq)]
pub enum Ending {
    /// The work came to its end, and its text was put.
    Finished,
    /// The bytes are no script: the first place, line and byte from 1, at which they are none.
    Refused { line: u64, at: u64 },
    /// The script has too many bytes.
    TooLong,
    /// The words are no command.
    Usage,
    NoDatabase,
    /// A check of the files failed.
    Damaged(Damage),
    DiskFault,
    ReadFault,
    /// The work came to its end, and its text couldn't be put.
    WriteFault,
    /// Memory was refused before the first statement.
    OutOfMemory,
    /// `init` finds a database.
    Exists,
    /// A number is too near the end of its type to go on.
    Worn { number: u64 },
}

impl Ending {
    /// The exit status.
    pub fn status(&self) -> u8
        ensures { result ≡ status_of self.now }
    {
        match self {
            Ending::Finished => 0,
            Ending::Refused { .. } | Ending::TooLong => 1,
            Ending::Usage => 2,
            Ending::NoDatabase => 3,
            Ending::Damaged(_) => 4,
            Ending::DiskFault => 5,
            Ending::ReadFault => 6,
            Ending::WriteFault => 7,
            Ending::OutOfMemory => 8,
            Ending::Exists => 9,
            Ending::Worn { .. } => 10,
        }
    }

    /// What the last line tells beside the status.
    pub fn cause(&self) -> Cause
        ensures { result ≡ cause_of self.now }
    {
        match self {
            Ending::Refused { line, at } => Cause::Script {
                line: *line,
                at: *at,
            },
            Ending::Damaged(damage) => Cause::Damaged(*damage),
            Ending::Worn { number } => Cause::Worn { number: *number },
            _ => Cause::Plain,
        }
    }
}

/// The ending of words that ask for nothing.
pub fn not_asked(error: WordsError) -> Ending
    ensures { result ≡ asked_as error }
{
    match error {
        WordsError::Usage => Ending::Usage,
        WordsError::OutOfMemory => Ending::OutOfMemory,
    }
}

/// The ending of a run whose database wasn't opened.
pub fn not_opened(error: OpenError) -> Ending
    ensures { result ≡ opened_as error }
{
    match error {
        OpenError::NoDatabase => Ending::NoDatabase,
        OpenError::Damaged(damage) => Ending::Damaged(damage),
        OpenError::Worn { number } => Ending::Worn { number },
        OpenError::Fault => Ending::DiskFault,
        OpenError::OutOfMemory => Ending::OutOfMemory,
    }
}

/// The ending of a run whose script wasn't read.
pub fn not_read(error: ScriptError) -> Ending
    ensures { result ≡ read_as error }
{
    match error {
        ScriptError::Refused { line, at } => Ending::Refused { line, at },
        ScriptError::TooLong => Ending::TooLong,
        ScriptError::ReadFault => Ending::ReadFault,
        ScriptError::OutOfMemory => Ending::OutOfMemory,
    }
}

/// The ending of a run whose script was read.
pub fn ended(end: RunEnd) -> Ending
    ensures { result ≡ ran_as end }
{
    match end {
        RunEnd::Finished => Ending::Finished,
        RunEnd::Unopened(error) => not_opened(error),
        RunEnd::Stopped(Stop::Fault) => Ending::DiskFault,
        RunEnd::Stopped(Stop::Damaged(damage)) => Ending::Damaged(damage),
        RunEnd::Stopped(Stop::Worn { lsn }) => Ending::Worn { number: lsn },
    }
}

/// The ending of a making.
pub fn made(end: Result<(), CreateError>) -> Ending
    ensures { result ≡ made_as end }
{
    match end {
        Ok(()) => Ending::Finished,
        Err(CreateError::Exists) => Ending::Exists,
        Err(CreateError::Fault) => Ending::DiskFault,
    }
}
