// Values, rows and schemas.
use crate::{List, Name, Plain, Text};
use std::alloc::{AllocError, Global};

/// What a column holds.
#[derive(Clone, Copy, Debug, PartialEq, Eq)]
pub enum Kind {
    /// A whole number of 64 bits, with a sign.
    Int,
    /// A text of up to so many bytes, 1 to 64.
    Chars(u8),
}

/// A column of a table.
#[derive(Debug, PartialEq, Eq, Drop)]
pub struct Column {
    pub name: Name,
    pub kind: Kind,
}

/// The columns of a table in order, 1 to 8 of them. The first is the key, an INT.
#[derive(Debug, PartialEq, Eq, Drop)]
pub struct Schema {
    pub columns: List<Column>,
}

/// One value of a row.
#[derive(Debug, PartialEq, Eq, Drop)]
pub enum Value {
    Int(i64),
    /// Printable ASCII, up to 64 bytes.
    Chars(Text),
}

/// The values of a row in order of the columns, the key first.
#[derive(Debug, PartialEq, Eq, Drop)]
pub struct Row {
    pub values: List<Value>,
}

/// Rows in order of their keys.
#[derive(Debug, PartialEq, Eq, Drop)]
pub struct Rows {
    pub rows: List<Row>,
}

impl Plain for Kind {
    fn copy(&self, _alloc: Global) -> Result<Self, AllocError> {
        Ok(*self)
    }

    fn same(&self, other: &Self) -> bool {
        match (self, other) {
            (Kind::Int, Kind::Int) => true,
            (Kind::Chars(a), Kind::Chars(b)) => a == b,
            _ => false,
        }
    }
}

impl Plain for Column {
    fn copy(&self, alloc: Global) -> Result<Self, AllocError> {
        Ok(Column {
            name: self.name.copy(alloc)?,
            kind: self.kind,
        })
    }

    fn same(&self, other: &Self) -> bool {
        self.name.same(&other.name) && self.kind.same(&other.kind)
    }
}

impl Plain for Schema {
    fn copy(&self, alloc: Global) -> Result<Self, AllocError> {
        Ok(Schema {
            columns: self.columns.copy(alloc)?,
        })
    }

    fn same(&self, other: &Self) -> bool {
        self.columns.same(&other.columns)
    }
}

impl Plain for Value {
    fn copy(&self, alloc: Global) -> Result<Self, AllocError> {
        match self {
            Value::Int(n) => Ok(Value::Int(*n)),
            Value::Chars(text) => Ok(Value::Chars(text.copy(alloc)?)),
        }
    }

    fn same(&self, other: &Self) -> bool {
        match (self, other) {
            (Value::Int(a), Value::Int(b)) => a == b,
            (Value::Chars(a), Value::Chars(b)) => a.same(b),
            _ => false,
        }
    }
}

impl Plain for Row {
    fn copy(&self, alloc: Global) -> Result<Self, AllocError> {
        Ok(Row {
            values: self.values.copy(alloc)?,
        })
    }

    fn same(&self, other: &Self) -> bool {
        self.values.same(&other.values)
    }
}

impl Plain for Rows {
    fn copy(&self, alloc: Global) -> Result<Self, AllocError> {
        Ok(Rows {
            rows: self.rows.copy(alloc)?,
        })
    }

    fn same(&self, other: &Self) -> bool {
        self.rows.same(&other.rows)
    }
}
