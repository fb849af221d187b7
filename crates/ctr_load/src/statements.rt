// The statements of a generated script.
ghost use Rattle.std.specs.Prelude.{◌≡◌, IfOk, codes};
ghost use Rattle.ctr_types.specs.Names.{IsName};
ghost use Rattle.ctr_load.specs.Statements.{load_columns, create_load, key_is as key_is_of, insert_of, update_of, delete_of, select_of};

use ctr_types::{
    Column, KeyIs, Kind, List, Name, OutOfMemory, Schema, Set, SetTo, Statement, Text, Value,
};
use std::alloc::Global;

// The name of these bytes.
fn name(alloc: Global, bytes: &[u8]) -> Result<Name, OutOfMemory>
    requires { IsName bytes.now }
    ensures { IfOk result (λ name. name ≡ bytes.now) }
{
    let Some(name) = Name::new(Text::from_slice(alloc, bytes)?) else {
        unreachable!()
    };
    Ok(name)
}

fn column(alloc: Global, bytes: &[u8], kind: Kind) -> Result<Column, OutOfMemory>
    requires { IsName bytes.now }
    ensures { IfOk result (λ c. c ≡ record { name = bytes.now; kind = kind }) }
{
    Ok(Column {
        name: name(alloc, bytes)?,
        kind,
    })
}

fn columns(alloc: Global) -> Result<List<Column>, OutOfMemory>
    ensures { IfOk result (λ columns. columns ≡ load_columns) }
{
    let key = column(alloc, b"k", Kind::Int)?;
    let number = column(alloc, b"v", Kind::Int)?;
    let text = column(alloc, b"s", Kind::Chars(12))?;
    Ok(List::from_vec(vec![in alloc; key, number, text]?))
}

/// The table is made.
pub fn create(alloc: Global) -> Result<Statement, OutOfMemory>
    ensures { IfOk result (λ s. s ≡ create_load) }
{
    Ok(Statement::Create {
        table: name(alloc, b"load")?,
        schema: Schema {
            columns: columns(alloc)?,
        },
    })
}

fn key_is(alloc: Global, key: i64) -> Result<KeyIs, OutOfMemory>
    ensures { IfOk result (λ at. at ≡ key_is_of key) }
{
    Ok(KeyIs {
        column: name(alloc, b"k")?,
        key,
    })
}

/// The row of a key is added, with this number.
pub fn insert(alloc: Global, key: i64, number: i64) -> Result<Statement, OutOfMemory>
    ensures { IfOk result (λ s. s ≡ insert_of key number) }
{
    let table = name(alloc, b"load")?;
    let text = Value::Chars(Text::from_slice(alloc, b"row")?);
    let values = vec![in alloc; Value::Int(key), Value::Int(number), text]?;
    Ok(Statement::Insert {
        table,
        values: List::from_vec(values),
    })
}

fn add_number(alloc: Global, number: i64) -> Result<Set, OutOfMemory>
    ensures { IfOk result (λ s. s ≡ record { column = codes "v"; to = SetTo.Sum (codes "v") number }) }
{
    let column = name(alloc, b"v")?;
    Ok(Set {
        column,
        to: SetTo::Sum(name(alloc, b"v")?, number),
    })
}

/// The number of a key's row rises by this one.
pub fn update(alloc: Global, key: i64, number: i64) -> Result<Statement, OutOfMemory>
    ensures { IfOk result (λ s. s ≡ update_of key number) }
{
    let table = name(alloc, b"load")?;
    let set = add_number(alloc, number)?;
    Ok(Statement::Update {
        table,
        sets: List::from_vec(vec![in alloc; set]?),
        at: key_is(alloc, key)?,
    })
}

/// The row of a key goes.
pub fn delete(alloc: Global, key: i64) -> Result<Statement, OutOfMemory>
    ensures { IfOk result (λ s. s ≡ delete_of key) }
{
    Ok(Statement::Delete {
        table: name(alloc, b"load")?,
        at: key_is(alloc, key)?,
    })
}

/// The row of a key is read.
pub fn select(alloc: Global, key: i64) -> Result<Statement, OutOfMemory>
    ensures { IfOk result (λ s. s ≡ select_of key) }
{
    Ok(Statement::Select {
        table: name(alloc, b"load")?,
        at: Some(key_is(alloc, key)?),
    })
}
