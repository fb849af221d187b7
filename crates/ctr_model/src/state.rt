// The state of the model.
ghost use Rattle.std.specs.Prelude.{◌≡◌, IfOk, OnOk};
ghost use Rattle.ctr_model.specs.Database.{after_all};
ghost use Rattle.ctr_model.specs.State.{at_rest, rows_at, view, begun};

use crate::{Change, Map, Table, apply_all};
use ctr_types::{List, Name, Plain};
use std::alloc::{AllocError, Global};

/// The lock of a key in a table.
#[derive(Debug, PartialEq, Eq, Drop)]
pub struct KeyLock {
    pub table: Name,
    pub key: i64,
}

/// What a session is in from its BEGIN until its commit is answered or it is rolled back.
#[derive(Debug, Drop)]
pub struct Transaction {
    /// It sees the rows after so many of the commits answered in this run.
    pub snapshot: u64,
    /// Its own changes, in order.
    pub own: List<Change>,
    /// Whether a lock was granted to it.
    pub writer: bool,
    /// The locks of keys that it was granted, in order.
    pub locks: List<KeyLock>,
    /// The tables that it has read or locked a key of.
    pub uses: List<Name>,
    /// The names of tables that it was granted.
    pub holds: List<Name>,
    /// Its commit number, once it has asked.
    pub asked: Option<u64>,
}

/// Committed rows, and the transactions that are open.
#[derive(Debug, Drop)]
pub struct State {
    /// The database that the run began with.
    pub base: Map<Name, Table>,
    /// The changes of the transactions that asked to commit, in the order in which they asked.
    pub asked: List<List<Change>>,
    /// How many of them are answered.
    pub answered: u64,
    /// The sessions in a transaction, by number.
    pub sessions: Map<u8, Transaction>,
    /// The names of tables that recovery holds.
    pub stuck: List<Name>,
}

impl Plain for KeyLock {
    fn copy(&self, alloc: Global) -> Result<Self, AllocError> {
        Ok(KeyLock {
            table: self.table.copy(alloc)?,
            key: self.key,
        })
    }

    fn same(&self, other: &Self) -> bool {
        self.table.same(&other.table) && self.key == other.key
    }
}

impl Plain for Transaction {
    fn copy(&self, alloc: Global) -> Result<Self, AllocError> {
        Ok(Transaction {
            snapshot: self.snapshot,
            own: self.own.copy(alloc)?,
            writer: self.writer,
            locks: self.locks.copy(alloc)?,
            uses: self.uses.copy(alloc)?,
            holds: self.holds.copy(alloc)?,
            asked: self.asked,
        })
    }

    fn same(&self, other: &Self) -> bool {
        self.snapshot == other.snapshot
            && self.own.same(&other.own)
            && self.writer == other.writer
            && self.locks.same(&other.locks)
            && self.uses.same(&other.uses)
            && self.holds.same(&other.holds)
            && self.asked == other.asked
    }
}

impl Plain for State {
    fn copy(&self, alloc: Global) -> Result<Self, AllocError> {
        Ok(State {
            base: self.base.copy(alloc)?,
            asked: self.asked.copy(alloc)?,
            answered: self.answered,
            sessions: self.sessions.copy(alloc)?,
            stuck: self.stuck.copy(alloc)?,
        })
    }

    fn same(&self, other: &Self) -> bool {
        self.base.same(&other.base)
            && self.asked.same(&other.asked)
            && self.answered == other.answered
            && self.sessions.same(&other.sessions)
            && self.stuck.same(&other.stuck)
    }
}

impl State {
    /// The state in which a run begins over a database, with the names that recovery holds.
    pub fn at_rest(alloc: Global, base: Map<Name, Table>, stuck: List<Name>) -> State
        ensures { result ≡ at_rest base stuck }
    {
        State {
            base,
            asked: List::new(alloc),
            answered: 0,
            sessions: Map::new(alloc),
            stuck,
        }
    }

    /// The rows after the first so many of the transactions that asked to commit.
    pub fn rows_at(&self, alloc: Global, number: u64) -> Result<Map<Name, Table>, AllocError>
        ensures { IfOk result (λ database. database ≡ rows_at self.now number) }
    {
        let asked = self.asked.as_slice();
        let mut database = self.base.copy(alloc)?;
        let prefix = if number < asked.len() as u64 {
            &asked[..number as usize]
        } else {
            asked
        };
        commit_all(alloc, &mut database, prefix)?;
        Ok(database)
    }

    /// What a transaction sees: the rows at its snapshot with its own changes.
    pub fn view(&self, alloc: Global, me: &Transaction) -> Result<Map<Name, Table>, AllocError>
        ensures { IfOk result (λ database. database ≡ view self.now me.now) }
    {
        let mut database = self.rows_at(alloc, me.snapshot)?;
        apply_all(alloc, &mut database, me.own.as_slice())?;
        Ok(database)
    }
}

impl Transaction {
    /// A transaction as BEGIN makes it.
    pub fn begun(alloc: Global, snapshot: u64) -> Transaction
        ensures { result ≡ begun snapshot }
    {
        Transaction {
            snapshot,
            own: List::new(alloc),
            writer: false,
            locks: List::new(alloc),
            uses: List::new(alloc),
            holds: List::new(alloc),
            asked: None,
        }
    }
}

// Applies the changes of transactions in order.
fn commit_all(
    alloc: Global,
    database: &mut Map<Name, Table>,
    transactions: &[List<Change>],
) -> Result<(), AllocError>
    ensures { OnOk result (database.new ≡ after_all transactions.now database.old) }
{
    let Some((first, rest)) = transactions.split_first() else {
        return Ok(());
    };
    apply_all(alloc, database, first.as_slice())?;
    commit_all(alloc, database, rest)
}
