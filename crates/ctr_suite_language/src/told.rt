// What was read, spelled in one way: keywords in capitals, blanks only between words.
use ctr_types::{Column, KeyIs, Kind, Line, Set, SetTo, Statement, Value};
use std::alloc::{AllocError, Global};

/// A page that grows.
#[derive(Drop)]
pub struct Page {
    alloc: Global,
    bytes: Vec<u8>,
}

impl Page {
    pub fn new(alloc: Global) -> Page {
        Page {
            alloc,
            bytes: Vec::new(alloc),
        }
    }

    pub fn bytes(&self) -> &[u8] {
        &self.bytes
    }

    pub fn into_bytes(self) -> Vec<u8> {
        let Page { alloc: _, bytes } = self;
        bytes
    }

    pub fn add(&mut self, text: &str) -> Result<(), AllocError> {
        self.bytes.extend_from_slice(text.as_bytes())
    }

    pub fn add_bytes(&mut self, bytes: &[u8]) -> Result<(), AllocError> {
        self.bytes.extend_from_slice(bytes)
    }

    pub fn add_number(&mut self, number: u64) -> Result<(), AllocError> {
        let text = format!(in self.alloc; "{number}")?;
        self.add(text.as_str())
    }

    fn add_signed(&mut self, number: i64) -> Result<(), AllocError> {
        let text = format!(in self.alloc; "{number}")?;
        self.add(text.as_str())
    }
}

fn tell_text(page: &mut Page, text: &[u8]) -> Result<(), AllocError> {
    page.add("'")?;
    for byte in text {
        if *byte == b'\'' {
            page.add("'")?;
        }
        page.add_bytes([*byte].as_slice())?;
    }
    page.add("'")
}

fn tell_value(page: &mut Page, value: &Value) -> Result<(), AllocError> {
    match value {
        Value::Int(number) => page.add_signed(*number),
        Value::Chars(text) => tell_text(page, text.as_slice()),
    }
}

fn tell_values(page: &mut Page, values: &[Value]) -> Result<(), AllocError> {
    for (i, value) in values.iter().enumerate() {
        if i > 0 {
            page.add(",")?;
        }
        tell_value(page, value)?;
    }
    Ok(())
}

fn tell_kind(page: &mut Page, kind: &Kind) -> Result<(), AllocError> {
    match kind {
        Kind::Int => page.add(" INT"),
        Kind::Chars(most) => {
            page.add(" TEXT(")?;
            page.add_number(*most as u64)?;
            page.add(")")
        }
    }
}

fn tell_columns(page: &mut Page, columns: &[Column]) -> Result<(), AllocError> {
    for (i, column) in columns.iter().enumerate() {
        if i > 0 {
            page.add(",")?;
        }
        page.add_bytes(column.name.as_slice())?;
        tell_kind(page, &column.kind)?;
        if i == 0 {
            page.add(" PRIMARY KEY")?;
        }
    }
    Ok(())
}

fn tell_key(page: &mut Page, at: &KeyIs) -> Result<(), AllocError> {
    page.add(" WHERE ")?;
    page.add_bytes(at.column.as_slice())?;
    page.add("=")?;
    page.add_signed(at.key)
}

fn tell_set(page: &mut Page, set: &Set) -> Result<(), AllocError> {
    page.add_bytes(set.column.as_slice())?;
    page.add("=")?;
    match &set.to {
        SetTo::Is(value) => tell_value(page, value),
        SetTo::Sum(column, number) => {
            page.add_bytes(column.as_slice())?;
            page.add("+")?;
            page.add_signed(*number)
        }
    }
}

fn tell_sets(page: &mut Page, sets: &[Set]) -> Result<(), AllocError> {
    for (i, set) in sets.iter().enumerate() {
        if i > 0 {
            page.add(",")?;
        }
        tell_set(page, set)?;
    }
    Ok(())
}

fn tell_named(page: &mut Page, words: &str, name: &[u8]) -> Result<(), AllocError> {
    page.add(words)?;
    page.add_bytes(name)
}

/// A statement.
pub fn tell_statement(page: &mut Page, statement: &Statement) -> Result<(), AllocError> {
    match statement {
        Statement::Begin => page.add("BEGIN"),
        Statement::Commit => page.add("COMMIT"),
        Statement::Rollback => page.add("ROLLBACK"),
        Statement::Create { table, schema } => {
            tell_named(page, "CREATE TABLE ", table.as_slice())?;
            page.add("(")?;
            tell_columns(page, schema.columns.as_slice())?;
            page.add(")")
        }
        Statement::DropTable { table } => tell_named(page, "DROP TABLE ", table.as_slice()),
        Statement::Insert { table, values } => {
            tell_named(page, "INSERT INTO ", table.as_slice())?;
            page.add(" VALUES(")?;
            tell_values(page, values.as_slice())?;
            page.add(")")
        }
        Statement::Select { table, at } => {
            tell_named(page, "SELECT * FROM ", table.as_slice())?;
            match at {
                Some(at) => tell_key(page, at),
                None => Ok(()),
            }
        }
        Statement::Update { table, sets, at } => {
            tell_named(page, "UPDATE ", table.as_slice())?;
            page.add(" SET ")?;
            tell_sets(page, sets.as_slice())?;
            tell_key(page, at)
        }
        Statement::Delete { table, at } => {
            tell_named(page, "DELETE FROM ", table.as_slice())?;
            tell_key(page, at)
        }
    }
}

/// The lines of a script.
pub fn tell_lines(page: &mut Page, lines: &[Line]) -> Result<(), AllocError> {
    for line in lines {
        page.add_number(line.session as u64)?;
        page.add(">")?;
        tell_statement(page, &line.statement)?;
        page.add(";")?;
    }
    Ok(())
}
