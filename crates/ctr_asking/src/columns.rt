// Which values and assignments suit the columns that the bytes of an entry of the catalog say: the definitions of the same names.
ghost use Rattle.std.specs.Prelude.{◌≡◌, ◌<◌, ◌≤◌, ◌+◌, ◌*◌, [], length};
ghost use Rattle.ctr_bytes.specs.Fields.{field};
ghost use Rattle.ctr_model.specs.State.{same_name};
ghost use Rattle.ctr_model.specs.Refusals.{fits, bad_from, is_first_column, kind_of, is_int, suits, bad_right_side, is_bad_set, is_assigned, bad_set_after, bad_where, bad_value};
ghost use Rattle.ctr_page.specs.Columns.{columns_in, name_in};
ghost use Rattle.ctr_page.specs.declared.table.TheConstants.{ENTRY_SIZE};
ghost use Rattle.ctr_walk.specs.Columns.{HaveNames};
ghost use Rattle.ctr_asking.specs.Values.{columns_behind};

use ctr_bytes::get_u8;
use ctr_page::CatalogEntry;
use ctr_types::{KeyIs, Kind, Name, Set, SetTo, Statement, Value};

/// Where an entry has its first column, behind the number of them.
const FIRST_COLUMN_AT: usize = 35;

/// The bytes of a column: the length of its name, the name with zeros up to 16 bytes, its kind.
const COLUMN_BYTES: usize = 18;

fn fits(kind: Kind, value: &Value) -> bool
    ensures { result ≡ fits kind value.now }
{
    match (kind, value) {
        (Kind::Int, Value::Int(_)) => true,
        (Kind::Chars(most), Value::Chars(text)) => text.len() <= most as usize,
        (Kind::Int, Value::Chars(_)) => false,
        (Kind::Chars(_), Value::Int(_)) => false,
    }
}

// Whether a column of an entry has the name.
fn is_named(entry: &CatalogEntry, column: u8, name: &Name) -> bool
    requires whole { length entry.now.bytes ≡ ENTRY_SIZE }
    requires named { HaveNames entry.now.bytes }
    requires there { column < field 1 34 entry.now.bytes }
    ensures { result ≡ same_name name.now (name_in (35 + 18 * column) entry.now.bytes) }
{
    let bytes = entry.bytes.as_slice();
    let at = FIRST_COLUMN_AT + COLUMN_BYTES * column as usize;
    let front = at + 1;
    name.as_slice() == &bytes[front..front + get_u8(bytes, at) as usize]
}

fn is_first_column(name: &Name, entry: &CatalogEntry) -> bool
    requires whole { length entry.now.bytes ≡ ENTRY_SIZE }
    requires named { HaveNames entry.now.bytes }
    ensures { result ≡ is_first_column name.now (columns_in entry.now.bytes) }
{
    entry.count() > 0 && is_named(entry, 0, name)
}

fn kind_of(name: &Name, entry: &CatalogEntry) -> Option<Kind>
    requires whole { length entry.now.bytes ≡ ENTRY_SIZE }
    requires named { HaveNames entry.now.bytes }
    ensures { result ≡ kind_of name.now (columns_in entry.now.bytes) }
{
    let count = entry.count();
    for i in 0..count {
        if is_named(entry, i, name) {
            return Some(entry.kind(i));
        }
    }
    None
}

// The position of the first bad value, where these are for the columns from one on.
fn bad_from(entry: &CatalogEntry, column: u8, values: &[Value]) -> Option<u64>
    requires whole { length entry.now.bytes ≡ ENTRY_SIZE }
    requires named { HaveNames entry.now.bytes }
    requires there { column ≤ field 1 34 entry.now.bytes }
    ensures { result ≡ bad_from (column + 1) (columns_behind column entry.now.bytes) values.now }
{
    let there = column < entry.count();
    match (there, values.split_first()) {
        (false, None) => None,
        (false, Some(_)) => Some(column as u64 + 1),
        (true, None) => Some(column as u64 + 1),
        (true, Some((value, values))) => {
            if fits(entry.kind(column), value) {
                bad_from(entry, column + 1, values)
            } else {
                Some(column as u64 + 1)
            }
        }
    }
}

fn is_int(kind: Option<Kind>) -> bool
    ensures { result ≡ is_int kind }
{
    match kind {
        Some(Kind::Int) => true,
        Some(Kind::Chars(_)) => false,
        None => false,
    }
}

fn suits(kind: Option<Kind>, value: &Value) -> bool
    ensures { result ≡ suits kind value.now }
{
    match kind {
        Some(kind) => fits(kind, value),
        None => false,
    }
}

fn bad_right_side(entry: &CatalogEntry, column: &Name, to: &SetTo) -> bool
    requires whole { length entry.now.bytes ≡ ENTRY_SIZE }
    requires named { HaveNames entry.now.bytes }
    ensures { result ≡ bad_right_side (columns_in entry.now.bytes) column.now to.now }
{
    match to {
        SetTo::Is(value) => !suits(kind_of(column, entry), value),
        SetTo::Sum(other, _) => {
            !(is_int(kind_of(column, entry)) && is_int(kind_of(other, entry)))
        }
    }
}

// Whether one of the assignments is to the column.
fn is_assigned(name: &Name, sets: &[Set]) -> bool
    ensures { result ≡ is_assigned name.now sets.now }
{
    sets.iter().any(|set| set.column == *name)
}

fn is_bad_set(entry: &CatalogEntry, before: &[Set], set: &Set) -> bool
    requires whole { length entry.now.bytes ≡ ENTRY_SIZE }
    requires named { HaveNames entry.now.bytes }
    ensures { result ≡ is_bad_set (columns_in entry.now.bytes) before.now set.now }
{
    kind_of(&set.column, entry).is_none()
        || is_first_column(&set.column, entry)
        || is_assigned(&set.column, before)
        || bad_right_side(entry, &set.column, &set.to)
}

// The position of the first bad assignment.
fn bad_set(entry: &CatalogEntry, sets: &[Set]) -> Option<u64>
    requires whole { length entry.now.bytes ≡ ENTRY_SIZE }
    requires named { HaveNames entry.now.bytes }
    ensures { result ≡ bad_set_after (columns_in entry.now.bytes) [] sets.now }
{
    for i in 0..sets.len() {
        if is_bad_set(entry, &sets[..i], &sets[i]) {
            return Some(i as u64 + 1);
        }
    }
    None
}

fn bad_where(entry: &CatalogEntry, at: &KeyIs) -> Option<u64>
    requires whole { length entry.now.bytes ≡ ENTRY_SIZE }
    requires named { HaveNames entry.now.bytes }
    ensures { result ≡ bad_where (columns_in entry.now.bytes) at.now }
{
    if is_first_column(&at.column, entry) {
        None
    } else {
        Some(0)
    }
}

/// The position, from 1, of the first bad value or assignment of a statement on the table of an entry that passes its checks, or 0
/// for a WHERE on another column than the first.
pub(crate) fn bad_value(entry: &CatalogEntry, statement: &Statement) -> Option<u64>
    requires whole { length entry.now.bytes ≡ ENTRY_SIZE }
    requires named { HaveNames entry.now.bytes }
    ensures { result ≡ bad_value (columns_in entry.now.bytes) statement.now }
{
    match statement {
        Statement::Insert { values, .. } => bad_from(entry, 0, values.as_slice()),
        Statement::Select { at: Some(at), .. } => bad_where(entry, at),
        Statement::Select { at: None, .. } => None,
        Statement::Update { sets, at, .. } => {
            if let Some(position) = bad_where(entry, at) {
                return Some(position);
            }
            bad_set(entry, sets.as_slice())
        }
        Statement::Delete { at, .. } => bad_where(entry, at),
        Statement::Begin | Statement::Commit | Statement::Rollback => None,
        Statement::Create { .. } => None,
        Statement::DropTable { .. } => None,
    }
}
