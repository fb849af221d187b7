// Scripts of sessions that meet each other, and orders of turns, made from a number.
use ctr_suite_cases::{CLEANER, Page, Trouble, add_line};
use ctr_types::{Line, List};
use rand_core::{Rng, SeedableRng};
use rand_xoshiro::Xoshiro256PlusPlus;
use std::alloc::{AllocError, Global};

/// The tables: the first three may be there before a script, with rows of 10, of 200 and of 201 bytes behind the key.
const TABLES: [&str; 4] = ["a", "b", "c", "d"];

/// Their columns, and values behind the first two of them.
const COLUMNS: [&str; 4] = [
    "k INT PRIMARY KEY, v INT, t TEXT(1)",
    "k INT PRIMARY KEY, v INT, t TEXT(63), x TEXT(63), y TEXT(63)",
    "k INT PRIMARY KEY, v INT, t TEXT(63), x TEXT(63), y TEXT(64)",
    "k INT PRIMARY KEY, v INT, t TEXT(1)",
];

const VALUES: [&str; 4] = ["'t'", "'t', 'x', 'y'", "'t', 'x', 'y'", "'t'"];

/// The keys: three in one bucket, and two in another.
const KEYS: [&str; 5] = ["0", "8", "16", "1", "-7"];

// A statement, or that memory was refused.
type Made = Result<String, AllocError>;

/// What a script is made from.
#[derive(Drop)]
pub struct Maker {
    alloc: Global,
    rng: Xoshiro256PlusPlus,
    sessions: u64,
    /// Whether the cleaner has turns.
    pub cleans: bool,
    /// The lines so far, as a script has them, and how many.
    pub text: Page,
    pub lines: List<Line>,
}

impl Maker {
    pub fn new(alloc: Global, number: u64, cleans: bool) -> Maker {
        let mut rng = Xoshiro256PlusPlus::seed_from_u64(number);
        let sessions = rng.next_u64() % 7 + 2;
        Maker {
            alloc,
            rng,
            sessions,
            cleans,
            text: Page::new(alloc),
            lines: List::new(alloc),
        }
    }

    /// A number below this one.
    pub fn below(&mut self, most: u64) -> u64 {
        if most == 0 {
            return 0;
        }
        self.rng.next_u64() % most
    }

    fn table(&mut self) -> usize {
        match self.below(10) {
            0..=2 => 0,
            3..=5 => 1,
            6..=8 => 2,
            _ => 3,
        }
    }

    fn key(&mut self) -> &'static str {
        KEYS[(self.below(5) % 5) as usize]
    }

    // A line of a session.
    fn put_line(&mut self, session: u64, statement: &str) -> Result<(), Trouble> {
        let line = format!(in self.alloc; "{session}> {statement};")?;
        self.text.add(line.as_bytes());
        self.text.add(b"\n");
        add_line(self.alloc, &mut self.lines, line.as_bytes())
    }

    fn put_made(&mut self, session: u64, made: Made) -> Result<(), Trouble> {
        let statement = made?;
        self.put_line(session, statement.as_str())
    }

    fn insert(&mut self) -> Made {
        let alloc = self.alloc;
        let at = self.table() % 4;
        let (table, values, key) = (TABLES[at], VALUES[at], self.key());
        match self.below(12) {
            0 => format!(in alloc; "INSERT INTO {table} VALUES ({key}, 'x', {values})"),
            1 => format!(in alloc;
                "INSERT INTO {table} VALUES ({key}, 9223372036854775807, {values})"
            ),
            _ => {
                let value = self.below(100);
                format!(in alloc; "INSERT INTO {table} VALUES ({key}, {value}, {values})")
            }
        }
    }

    fn update(&mut self) -> Made {
        let alloc = self.alloc;
        let (table, key) = (TABLES[self.table() % 4], self.key());
        match self.below(10) {
            0 => format!(in alloc; "UPDATE {table} SET v = 'x' WHERE k = {key}"),
            1 => format!(in alloc; "UPDATE {table} SET v = 1 WHERE v = {key}"),
            2 => format!(in alloc; "UPDATE {table} SET v = 9223372036854775807 WHERE k = {key}"),
            3 => format!(in alloc;
                "UPDATE {table} SET v = v + 9223372036854775807 WHERE k = {key}"
            ),
            _ => format!(in alloc; "UPDATE {table} SET v = v + 1, t = 'z' WHERE k = {key}"),
        }
    }

    fn delete(&mut self) -> Made {
        let alloc = self.alloc;
        let (table, key) = (TABLES[self.table() % 4], self.key());
        format!(in alloc; "DELETE FROM {table} WHERE k = {key}")
    }

    fn select(&mut self) -> Made {
        let alloc = self.alloc;
        let (table, key) = (TABLES[self.table() % 4], self.key());
        match self.below(2) {
            0 => format!(in alloc; "SELECT * FROM {table}"),
            _ => format!(in alloc; "SELECT * FROM {table} WHERE k = {key}"),
        }
    }

    fn schema(&mut self) -> Made {
        let alloc = self.alloc;
        let at = self.table() % 4;
        let (table, columns) = (TABLES[at], COLUMNS[at]);
        match self.below(3) {
            0 => format!(in alloc; "DROP TABLE {table}"),
            _ => format!(in alloc; "CREATE TABLE {table} ({columns})"),
        }
    }

    // A statement within a transaction, mostly.
    fn put_statement(&mut self, session: u64) -> Result<(), Trouble> {
        let made = match self.below(24) {
            0..=6 => self.insert(),
            7..=12 => self.update(),
            13..=15 => self.delete(),
            16..=19 => self.select(),
            20..=22 => self.schema(),
            _ => return self.put_line(session, "BEGIN"),
        };
        self.put_made(session, made)
    }

    fn put_transaction(&mut self, session: u64) -> Result<(), Trouble> {
        if self.below(12) > 0 {
            self.put_line(session, "BEGIN")?;
        }
        for _ in 0..self.below(6) {
            self.put_statement(session)?;
        }
        match self.below(8) {
            0..=1 => self.put_line(session, "ROLLBACK"),
            2 => Ok(()),
            _ => self.put_line(session, "COMMIT"),
        }
    }

    fn put_session(&mut self, session: u64) -> Result<(), Trouble> {
        for _ in 0..self.below(3).saturating_add(1) {
            self.put_transaction(session)?;
        }
        Ok(())
    }

    /// Makes the script: a few transactions of each session, one session's lines behind another's.
    pub fn make_script(&mut self) -> Result<(), Trouble> {
        for session in 1..self.sessions.saturating_add(1) {
            self.put_session(session)?;
        }
        Ok(())
    }

    /// An order of turns, mostly longer than the script wants. Where the cleaner has turns, every third is mostly its.
    pub fn order(&mut self) -> Result<Vec<u8>, AllocError> {
        let mut order = Vec::new(self.alloc);
        let lines = self.lines.len() as u64;
        for _ in 0..self.below(lines.saturating_mul(4)) {
            let s = self.below(self.sessions) % 8;
            order.push(b'1' + s as u8)?;
            if self.cleans && self.below(2) == 0 {
                order.push(CLEANER)?;
            }
        }
        Ok(order)
    }
}
