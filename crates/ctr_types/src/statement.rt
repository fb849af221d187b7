// Statements and scripts.
use crate::{List, Name, Plain, Schema, Value};
use std::alloc::{AllocError, Global};

/// A statement of the language.
#[derive(Debug, PartialEq, Eq, Drop)]
pub enum Statement {
    Begin,
    Commit,
    Rollback,
    Create {
        table: Name,
        schema: Schema,
    },
    DropTable {
        table: Name,
    },
    Insert {
        table: Name,
        values: List<Value>,
    },
    /// The rows of a table, or the one row of a key.
    Select {
        table: Name,
        at: Option<KeyIs>,
    },
    /// All right sides read the row as it was before the statement.
    Update {
        table: Name,
        sets: List<Set>,
        at: KeyIs,
    },
    Delete {
        table: Name,
        at: KeyIs,
    },
}

/// `WHERE column = key`. The column is the table's first, or the statement is refused.
#[derive(Debug, PartialEq, Eq, Drop)]
pub struct KeyIs {
    pub column: Name,
    pub key: i64,
}

/// One assignment of an UPDATE.
#[derive(Debug, PartialEq, Eq, Drop)]
pub struct Set {
    pub column: Name,
    pub to: SetTo,
}

/// The right side of an assignment.
#[derive(Debug, PartialEq, Eq, Drop)]
pub enum SetTo {
    Is(Value),
    /// A column of the row plus a number.
    Sum(Name, i64),
}

/// One statement of a session, numbered from 1 to 8.
#[derive(Debug, PartialEq, Eq, Drop)]
pub struct Line {
    pub session: u8,
    pub statement: Statement,
}

/// Statements in order of the script's lines.
#[derive(Debug, PartialEq, Eq, Drop)]
pub struct Script {
    pub lines: List<Line>,
}

impl Plain for KeyIs {
    fn copy(&self, alloc: Global) -> Result<Self, AllocError> {
        Ok(KeyIs {
            column: self.column.copy(alloc)?,
            key: self.key,
        })
    }

    fn same(&self, other: &Self) -> bool {
        self.column.same(&other.column) && self.key == other.key
    }
}
