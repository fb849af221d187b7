// Tables, and changes to them.
ghost use Rattle.std.specs.Prelude.{◌≡◌, ◌==◌, ℤ, OnOk};
ghost use Rattle.ctr_model.specs.Database.{at_table, with_row, without_row, changed, after};

use crate::Map;
use ctr_types::{Name, Plain, Row, Schema};
use std::alloc::{AllocError, Global};
use std::marker::Model;

/// The key of a row.
#[derive(Clone, Copy, Debug, PartialEq, Eq, PartialOrd, Ord)]
pub struct Key {
    number: i64,
}

impl Model for Key {
    ghost use Rattle.std.specs.Prelude.{ℤ};

    ghost Value = { ℤ };

    ghost view = { λ k. k.number };

    ghost inverse = { λ z. record { number = z } };
}

impl Key {
    pub fn new(number: i64) -> Key
        ensures { result ≡ number }
    {
        Key { number }
    }

    pub fn number(&self) -> i64
        ensures { result ≡ self.now }
    {
        self.number
    }
}

/// A table: its columns, and its rows by key.
#[derive(Debug, Drop)]
pub struct Table {
    pub schema: Schema,
    pub rows: Map<Key, Row>,
}

/// One change of a transaction.
#[derive(Debug, PartialEq, Eq, Drop)]
pub enum Change {
    /// The row of a key, new or in place of the one before.
    Put { table: Name, key: i64, row: Row },
    /// The row of a key goes.
    Remove { table: Name, key: i64 },
    /// A new table, empty.
    Create { table: Name, schema: Schema },
    /// The table goes, with its rows.
    Drop { table: Name },
}

impl Plain for Key {
    fn copy(&self, _alloc: Global) -> Result<Self, AllocError> {
        Ok(*self)
    }

    fn same(&self, other: &Self) -> bool {
        self.number == other.number
    }
}

impl Plain for Table {
    fn copy(&self, alloc: Global) -> Result<Self, AllocError> {
        Ok(Table {
            schema: self.schema.copy(alloc)?,
            rows: self.rows.copy(alloc)?,
        })
    }

    fn same(&self, other: &Self) -> bool {
        self.schema.same(&other.schema) && self.rows.same(&other.rows)
    }
}

impl Plain for Change {
    fn copy(&self, alloc: Global) -> Result<Self, AllocError> {
        match self {
            Change::Put { table, key, row } => Ok(Change::Put {
                table: table.copy(alloc)?,
                key: *key,
                row: row.copy(alloc)?,
            }),
            Change::Remove { table, key } => Ok(Change::Remove {
                table: table.copy(alloc)?,
                key: *key,
            }),
            Change::Create { table, schema } => Ok(Change::Create {
                table: table.copy(alloc)?,
                schema: schema.copy(alloc)?,
            }),
            Change::Drop { table } => Ok(Change::Drop {
                table: table.copy(alloc)?,
            }),
        }
    }

    fn same(&self, other: &Self) -> bool {
        match (self, other) {
            (
                Change::Put { table, key, row },
                Change::Put {
                    table: other_table,
                    key: other_key,
                    row: other_row,
                },
            ) => table.same(other_table) && key == other_key && row.same(other_row),
            (
                Change::Remove { table, key },
                Change::Remove {
                    table: other_table,
                    key: other_key,
                },
            ) => table.same(other_table) && key == other_key,
            (
                Change::Create { table, schema },
                Change::Create {
                    table: other_table,
                    schema: other_schema,
                },
            ) => table.same(other_table) && schema.same(other_schema),
            (Change::Drop { table }, Change::Drop { table: other_table }) => {
                table.same(other_table)
            }
            _ => false,
        }
    }
}

/// Applies changes in order. Where memory is refused, the database may have some of them.
pub fn apply_all(
    alloc: Global,
    database: &mut Map<Name, Table>,
    changes: &[Change],
) -> Result<(), AllocError>
    ensures { OnOk result (database.new ≡ after changes.now database.old) }
{
    let Some((first, rest)) = changes.split_first() else {
        return Ok(());
    };
    apply(alloc, database, first)?;
    apply_all(alloc, database, rest)
}

fn apply(alloc: Global, database: &mut Map<Name, Table>, change: &Change) -> Result<(), AllocError>
    ensures { OnOk result (database.new ≡ changed change.now database.old) }
{
    match change {
        Change::Put { table, key, row } => put_row(alloc, database, table, Key::new(*key), row),
        Change::Remove { table, key } => remove_row(alloc, database, table, Key::new(*key)),
        Change::Create { table, schema } => {
            let empty = Table {
                schema: schema.copy(alloc)?,
                rows: Map::new(alloc),
            };
            database.put(table.copy(alloc)?, empty)
        }
        Change::Drop { table } => {
            database.remove(table);
            Ok(())
        }
    }
}

fn put_row(
    alloc: Global,
    database: &mut Map<Name, Table>,
    name: &Name,
    key: Key,
    row: &Row,
) -> Result<(), AllocError>
    ensures { OnOk result (database.new ≡ at_table name.now (with_row key row.now) database.old) }
{
    let Some(table) = database.get(name) else {
        return Ok(());
    };
    let mut table = table.copy(alloc)?;
    table.rows.put(key, row.copy(alloc)?)?;
    database.put(name.copy(alloc)?, table)
}

fn remove_row(
    alloc: Global,
    database: &mut Map<Name, Table>,
    name: &Name,
    key: Key,
) -> Result<(), AllocError>
    ensures { OnOk result (database.new ≡ at_table name.now (without_row key) database.old) }
{
    let Some(table) = database.get(name) else {
        return Ok(());
    };
    let mut table = table.copy(alloc)?;
    table.rows.remove(&key);
    database.put(name.copy(alloc)?, table)
}
