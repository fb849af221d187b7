// The databases that a disk may hold, and how they are told apart.
use ctr_model::{Map, Point, State, Table};
use ctr_suite_steps::{Page, add, one};
use ctr_types::{Column, Kind, Name, OutOfMemory, Plain};
use std::alloc::Global;

/// What is right: the databases after each number of commits, from 0, and which of them the disk may hold.
#[derive(Drop)]
pub struct Right {
    pub list: Vec<Map<Name, Table>>,
    /// The fewest and the most commits that may be there.
    pub least: usize,
    pub most: usize,
    /// That there is no database is right too.
    pub none: bool,
}

impl Right {
    /// No database.
    pub fn nothing(alloc: Global) -> Right {
        Right {
            list: Vec::new(alloc),
            least: 0,
            most: 0,
            none: true,
        }
    }

    /// A database without tables.
    pub fn empty(alloc: Global, none: bool) -> Result<Right, OutOfMemory> {
        Ok(Right {
            list: one(alloc, Map::new(alloc))?,
            least: 0,
            most: 0,
            none,
        })
    }

    /// The databases to which a tape has led, with at least so many commits.
    pub fn after(alloc: Global, point: &Point, least: usize) -> Result<Right, OutOfMemory> {
        let mut list = Vec::new(alloc);
        add_led(alloc, &mut list, &point.state)?;
        let most = point.state.asked.len();
        Ok(Right {
            list,
            least,
            most,
            none: false,
        })
    }

    pub fn copy(&self, alloc: Global) -> Result<Right, OutOfMemory> {
        let mut list = Vec::new(alloc);
        add_copies(alloc, &mut list, &self.list)?;
        Ok(Right {
            list,
            least: self.least,
            most: self.most,
            none: self.none,
        })
    }

    /// Whether a disk may hold this number of commits.
    pub fn has(&self, number: usize) -> bool {
        self.least <= number && number <= self.most && number < self.list.len()
    }
}

type Databases = Vec<Map<Name, Table>>;

fn add_copies(
    alloc: Global,
    list: &mut Databases,
    databases: &[Map<Name, Table>],
) -> Result<(), OutOfMemory> {
    for database in databases {
        add(list, database.copy(alloc)?)?;
    }
    Ok(())
}

// The databases after each number of the commits that were asked for.
fn add_led(alloc: Global, list: &mut Databases, state: &State) -> Result<(), OutOfMemory> {
    for number in 0..=state.asked.len() {
        add(list, state.rows_at(alloc, number as u64)?)?;
    }
    Ok(())
}

// A literal that suits a column, or a text that is longer by one byte.
fn put_literal(page: &mut Page, column: &Column, is_long: bool) {
    match column.kind {
        Kind::Int => page.put(b"7"),
        Kind::Chars(most) => {
            page.put(b"'");
            for _ in 0..most {
                page.put(b"x");
            }
            if is_long {
                page.put(b"x");
            }
            page.put(b"'");
        }
    }
}

// An INSERT of the longest texts, of which that of one column is too long.
fn put_insert(page: &mut Page, name: &Name, columns: &[Column], long: Option<usize>) {
    page.put(b"1> INSERT INTO ");
    page.put(name.as_slice());
    page.put(b" VALUES (");
    for (at, column) in columns.iter().enumerate() {
        if at > 0 {
            page.put(b", ");
        }
        put_literal(page, column, long == Some(at));
    }
    page.put(b");\n");
}

fn put_table(page: &mut Page, name: &Name, table: &Table) {
    page.put(b"1> SELECT * FROM ");
    page.put(name.as_slice());
    page.put(b";\n");
    let columns = table.schema.columns.as_slice();
    put_insert(page, name, columns, None);
    for (at, column) in columns.iter().enumerate() {
        if matches!(column.kind, Kind::Chars(_)) {
            put_insert(page, name, columns, Some(at));
        }
    }
}

// Whether a database has a table of this name and schema.
fn has_schema(database: &Map<Name, Table>, name: &Name, table: &Table) -> bool {
    match database.get(name) {
        Some(other) => other.schema.same(&table.schema),
        None => false,
    }
}

fn put_tables(page: &mut Page, database: &Map<Name, Table>, before: Option<&Map<Name, Table>>) {
    for (name, table) in database.entries() {
        if !before.is_some_and(|other| has_schema(other, name, table)) {
            put_table(page, name, table);
        }
    }
}

/// A script whose replies tell databases apart, each of which comes from the one before it by a commit: it reads each
/// table, and tries its columns' kinds and lengths by rows that it never commits. Names of columns aren't told by the
/// language as far as the program reads it.
pub fn probing(alloc: Global, list: &[Map<Name, Table>]) -> Page {
    let mut page = Page::new(alloc);
    page.put(b"1> BEGIN;\n");
    let mut before = None;
    for database in list {
        put_tables(&mut page, database, before);
        before = Some(database);
    }
    page
}
