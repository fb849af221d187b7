// What sessions do and are answered, and the tape on which it stands.
use crate::{List, Name, Plain, Rows};
use std::alloc::{AllocError, Global};

/// Who takes a turn.
#[derive(Clone, Copy, Debug, PartialEq, Eq)]
pub enum Actor {
    /// A session, numbered from 1 to 8.
    Session(u8),
    Flusher,
    Cleaner,
    Undo,
}

/// How a turn ended.
#[derive(Clone, Copy, Debug, PartialEq, Eq)]
pub enum Turn {
    /// The actor did something, or waits.
    Went,
    /// A background actor found nothing to do.
    Idle,
    /// Memory was refused to a background actor, and it found nothing else to do.
    Short,
    /// A session's statements are finished, or nothing is left to undo.
    Over,
    /// The engine has stopped.
    Stopped,
}

/// One act of a session under the engine's lock, or of recovery.
#[derive(Debug, PartialEq, Eq, Drop)]
pub enum Act {
    Begin,
    Read,
    Lock,
    Write,
    Ask,
    Answer,
    Rollback,
    /// Recovery no longer holds the name of a table.
    Release { name: Name },
}

/// The answer to an act.
#[derive(Debug, PartialEq, Eq, Drop)]
pub enum Reply {
    /// The snapshot is the first n commits that were answered in this run.
    Began { n: u64 },
    Granted,
    Rows { rows: Rows },
    Done,
    /// The commit number k was given, from 1 in each run.
    Asked { k: u64 },
    /// The transaction took no lock, and ends without a commit number.
    ReadOnly,
    Answered { k: u64 },
    RolledBack,
    Released,
    Refused { refusal: Refusal },
}

/// Why an act was refused.
#[derive(Clone, Copy, Debug, PartialEq, Eq)]
pub enum Refusal {
    NoTransaction,
    InTransaction,
    NoTable,
    TableExists,
    /// By recovery, which is 0, or by a session.
    TableBusy { by: u8 },
    SchemaChanged { commit: u64 },
    /// The position from 1 of the first bad value or assignment, or 0 for a bad WHERE.
    BadValue { at: u64 },
    RowLocked { by: u8 },
    RowChanged { commit: u64 },
    OutOfMemory,
    Duplicate,
    NotFound,
    OutOfRange,
    CatalogFull { limit: u32 },
    Full { limit: u32 },
}

/// One act with its answer.
#[derive(Debug, PartialEq, Eq, Drop)]
pub struct Entry {
    /// 1 to 8, or 0 for recovery.
    pub session: u8,
    /// From 1 within the session, or 0 for recovery.
    pub statement: u64,
    pub act: Act,
    pub reply: Reply,
    /// The disk's moment at the end of the step that made the entry.
    pub moment: u64,
}

/// Entries in the order in which they were made.
#[derive(Debug, PartialEq, Eq, Drop)]
pub struct Tape {
    pub entries: List<Entry>,
}

impl Plain for Act {
    fn copy(&self, alloc: Global) -> Result<Self, AllocError> {
        match self {
            Act::Begin => Ok(Act::Begin),
            Act::Read => Ok(Act::Read),
            Act::Lock => Ok(Act::Lock),
            Act::Write => Ok(Act::Write),
            Act::Ask => Ok(Act::Ask),
            Act::Answer => Ok(Act::Answer),
            Act::Rollback => Ok(Act::Rollback),
            Act::Release { name } => Ok(Act::Release {
                name: name.copy(alloc)?,
            }),
        }
    }

    fn same(&self, other: &Self) -> bool {
        match (self, other) {
            (Act::Begin, Act::Begin) => true,
            (Act::Read, Act::Read) => true,
            (Act::Lock, Act::Lock) => true,
            (Act::Write, Act::Write) => true,
            (Act::Ask, Act::Ask) => true,
            (Act::Answer, Act::Answer) => true,
            (Act::Rollback, Act::Rollback) => true,
            (Act::Release { name: a }, Act::Release { name: b }) => a.same(b),
            _ => false,
        }
    }
}

impl Plain for Refusal {
    fn copy(&self, _alloc: Global) -> Result<Self, AllocError> {
        Ok(*self)
    }

    fn same(&self, other: &Self) -> bool {
        *self == *other
    }
}

impl Plain for Reply {
    fn copy(&self, alloc: Global) -> Result<Self, AllocError> {
        match self {
            Reply::Began { n } => Ok(Reply::Began { n: *n }),
            Reply::Granted => Ok(Reply::Granted),
            Reply::Rows { rows } => Ok(Reply::Rows {
                rows: rows.copy(alloc)?,
            }),
            Reply::Done => Ok(Reply::Done),
            Reply::Asked { k } => Ok(Reply::Asked { k: *k }),
            Reply::ReadOnly => Ok(Reply::ReadOnly),
            Reply::Answered { k } => Ok(Reply::Answered { k: *k }),
            Reply::RolledBack => Ok(Reply::RolledBack),
            Reply::Released => Ok(Reply::Released),
            Reply::Refused { refusal } => Ok(Reply::Refused { refusal: *refusal }),
        }
    }

    fn same(&self, other: &Self) -> bool {
        match (self, other) {
            (Reply::Began { n: a }, Reply::Began { n: b }) => *a == *b,
            (Reply::Granted, Reply::Granted) => true,
            (Reply::Rows { rows: a }, Reply::Rows { rows: b }) => a.same(b),
            (Reply::Done, Reply::Done) => true,
            (Reply::Asked { k: a }, Reply::Asked { k: b }) => *a == *b,
            (Reply::ReadOnly, Reply::ReadOnly) => true,
            (Reply::Answered { k: a }, Reply::Answered { k: b }) => *a == *b,
            (Reply::RolledBack, Reply::RolledBack) => true,
            (Reply::Released, Reply::Released) => true,
            (Reply::Refused { refusal: a }, Reply::Refused { refusal: b }) => a.same(b),
            _ => false,
        }
    }
}
