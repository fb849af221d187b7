// Scripts of sessions that meet each other, and lists of actors, made from a number.
use crate::page::Page;
use ctr_types::{Actor, OutOfMemory};
use rand_core::{Rng, SeedableRng};
use rand_xoshiro::Xoshiro256PlusPlus;
use std::alloc::Global;

/// The names of tables: the first two are there before a script, the third is not.
const TABLES: [&str; 3] = ["a", "b", "c"];

/// How long a script may be: the most transactions of a session, and the most statements of each.
#[derive(Clone, Copy)]
pub struct Length {
    pub transactions: u64,
    pub statements: u64,
}

/// What a script is made from.
#[derive(Drop)]
pub struct Maker {
    alloc: Global,
    rng: Xoshiro256PlusPlus,
    sessions: u64,
    length: Length,
    page: Page,
    lines: u64,
}

impl Maker {
    pub fn new(alloc: Global, number: u64, length: Length) -> Maker {
        let mut rng = Xoshiro256PlusPlus::seed_from_u64(number);
        let sessions = rng.next_u64() % 7 + 2;
        Maker {
            alloc,
            rng,
            sessions,
            length,
            page: Page::new(alloc),
            lines: 0,
        }
    }

    /// How many sessions the script has.
    pub fn sessions(&self) -> u64 {
        self.sessions
    }

    // A number below this one.
    fn below(&mut self, most: u64) -> u64 {
        if most == 0 {
            return 0;
        }
        self.rng.next_u64() % most
    }

    fn table(&mut self) -> &'static str {
        match self.below(10) {
            0..=5 => TABLES[0],
            6..=8 => TABLES[1],
            _ => TABLES[2],
        }
    }

    // A line of a session.
    fn put_line(&mut self, session: u64, text: &str) {
        self.page
            .put_text(format!(in self.alloc; "{session}> {text};\n"));
        self.lines = self.lines.saturating_add(1);
    }

    fn put_insert(&mut self, session: u64) {
        let alloc = self.alloc;
        let table = self.table();
        let key = self.below(5);
        let made = match self.below(12) {
            0 => format!(in alloc; "INSERT INTO {table} VALUES ({key}, 'x', 'y')"),
            1 => format!(in alloc; "INSERT INTO {table} VALUES ({key}, 9223372036854775807, 'y')"),
            _ => {
                let value = self.below(100);
                format!(in alloc; "INSERT INTO {table} VALUES ({key}, {value}, 'y')")
            }
        };
        self.put_made(session, made);
    }

    fn put_made(&mut self, session: u64, made: Result<String, std::alloc::AllocError>) {
        match made {
            Ok(text) => self.put_line(session, text.as_str()),
            Err(_) => self.page.put_text(made),
        }
    }

    fn put_update(&mut self, session: u64) {
        let alloc = self.alloc;
        let table = self.table();
        let key = self.below(5);
        let made = match self.below(8) {
            0 => format!(in alloc; "UPDATE {table} SET v = 'x' WHERE k = {key}"),
            1 => format!(in alloc; "UPDATE {table} SET v = 1 WHERE v = {key}"),
            2 => format!(in alloc; "UPDATE {table} SET v = 9223372036854775807 WHERE k = {key}"),
            3 => format!(in alloc;
                "UPDATE {table} SET v = v + 9223372036854775807 WHERE k = {key}"
            ),
            _ => format!(in alloc; "UPDATE {table} SET v = v + 1, t = 'z' WHERE k = {key}"),
        };
        self.put_made(session, made);
    }

    fn put_schema(&mut self, session: u64) {
        let alloc = self.alloc;
        let table = self.table();
        let made = if self.below(3) == 0 {
            format!(in alloc; "DROP TABLE {table}")
        } else {
            format!(in alloc; "CREATE TABLE {table} (k INT PRIMARY KEY, v INT, t TEXT(1))")
        };
        self.put_made(session, made);
    }

    fn put_read(&mut self, session: u64) {
        let alloc = self.alloc;
        let table = self.table();
        let key = self.below(5);
        let made = if self.below(2) == 0 {
            format!(in alloc; "SELECT * FROM {table}")
        } else {
            format!(in alloc; "SELECT * FROM {table} WHERE k = {key}")
        };
        self.put_made(session, made);
    }

    // A statement within a transaction, mostly.
    fn put_statement(&mut self, session: u64) {
        match self.below(20) {
            0..=4 => self.put_insert(session),
            5..=10 => self.put_update(session),
            11..=12 => {
                let alloc = self.alloc;
                let table = self.table();
                let key = self.below(5);
                self.put_made(
                    session,
                    format!(in alloc; "DELETE FROM {table} WHERE k = {key}"),
                );
            }
            13..=15 => self.put_read(session),
            16..=18 => self.put_schema(session),
            _ => self.put_line(session, "BEGIN"),
        }
    }

    fn put_transaction(&mut self, session: u64) {
        if self.below(12) > 0 {
            self.put_line(session, "BEGIN");
        }
        for _ in 0..self.below(self.length.statements.saturating_add(1)) {
            self.put_statement(session);
        }
        match self.below(8) {
            0 => self.put_line(session, "ROLLBACK"),
            1 => {}
            _ => self.put_line(session, "COMMIT"),
        }
    }

    /// The script: a few transactions of each session, one session's lines behind another's.
    pub fn script(&mut self) -> Result<Vec<u8>, OutOfMemory> {
        for session in 1..=self.sessions {
            for _ in 0..self.below(self.length.transactions).saturating_add(1) {
                self.put_transaction(session);
            }
        }
        if self.page.is_cut() {
            return Err(OutOfMemory);
        }
        Ok(self.page.bytes().to_vec(self.alloc)?)
    }

    fn actor(&mut self) -> Actor {
        match self.below(20) {
            0 => Actor::Flusher,
            1 => Actor::Cleaner,
            2 => Actor::Undo,
            3 => Actor::Session(0),
            _ => Actor::Session((self.below(self.sessions).saturating_add(1) % 256) as u8),
        }
    }

    /// A list of actors, mostly longer than the script wants.
    pub fn actors(&mut self) -> Result<Vec<Actor>, OutOfMemory> {
        let mut actors = Vec::new(self.alloc);
        for _ in 0..self.below(self.lines.saturating_mul(4)) {
            actors.push(self.actor())?;
        }
        Ok(actors)
    }

    /// How many frames the run has: 8, or 64.
    pub fn frames(&mut self) -> u64 {
        match self.below(2) {
            0 => 8,
            _ => 64,
        }
    }

    /// A number below this one, for what else a run wants.
    pub fn number(&mut self, most: u64) -> u64 {
        self.below(most)
    }
}
