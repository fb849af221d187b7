// Rows that are gathered, by their keys.
ghost use Rattle.std.specs.Prelude.{◌≡◌, [], map, OnOk};
ghost use Rattle.std.specs.Ordering.{int_cmp};
ghost use Rattle.std.specs.FinMap.Entries.{put};
ghost use Rattle.ctr_reading.specs.Reading.{GivesRows};

use ctr_model::Key;
use ctr_types::{List, OutOfMemory, Row, Rows};
use std::alloc::Global;
use std::collections::BTreeMap;
use std::marker::Model;

/// Rows by their keys, in the order of these.
#[derive(Drop)]
pub(crate) struct Gathered {
    rows: BTreeMap<Key, Row>,
}

impl Model for Gathered {
    ghost use Rattle.std.specs.Prelude.{List, ℤ};
    ghost use Rattle.std.specs.Ordering.{int_cmp};
    ghost use Rattle.std.specs.BTreeMap.{IsOrdered};
    ghost use Rattle.ctr_types.specs.declared.value.Row.{Row};

    ghost Value = { List (ℤ × Row) };

    ghost view = { λ a. a.rows.entries };

    ghost invariant = { λ a. IsOrdered int_cmp a.rows };
}

impl Gathered {
    /// None. It takes no memory.
    pub(crate) fn new(alloc: Global) -> Gathered
        ensures { result ≡ [] }
    {
        Gathered {
            rows: BTreeMap::new(alloc),
        }
    }

    /// The row of a key, new or in place of the one before.
    pub(crate) fn put(&mut self, key: Key, row: Row) -> Result<(), OutOfMemory>
        ensures { OnOk result (self.new ≡ put int_cmp key row self.old) }
    {
        self.rows.insert(key, row)?;
        Ok(())
    }

    /// The rows in the order of their keys. Memory runs out only where there are any.
    pub(crate) fn into_rows(self, alloc: Global) -> Result<Rows, OutOfMemory>
        ensures { GivesRows (map (λ e. e.1) self) result }
    {
        let Gathered { rows } = self;
        let mut list = List::new(alloc);
        for row in rows.into_values() {
            list.push(row)?;
        }
        Ok(Rows { rows: list })
    }
}
