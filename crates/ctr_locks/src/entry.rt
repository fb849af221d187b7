// What a session has of one entry of the catalog.
ghost use Rattle.std.specs.Prelude.{◌≡◌, true, [], OnOk, is_some};
ghost use Rattle.std.specs.Ordering.{int_cmp};
ghost use Rattle.std.specs.FinMap.Entries.{find};
ghost use Rattle.ctr_locks.specs.Held.{is_key_locked, SameKeys, LocksOne};

use ctr_model::Key;
use ctr_types::OutOfMemory;
use std::alloc::Global;
use std::collections::BTreeMap;
use std::marker::Model;

/// The keys that it has locked or has room to lock.
#[derive(Drop)]
pub struct EntryKeys {
    keys: BTreeMap<Key, bool>,
}

impl Model for EntryKeys {
    ghost use Rattle.std.specs.Prelude.{List, ℤ, Bool};
    ghost use Rattle.std.specs.Ordering.{int_cmp};
    ghost use Rattle.std.specs.BTreeMap.{IsOrdered};

    ghost Value = { List (ℤ × Bool) };

    ghost view = { λ a. a.keys.entries };

    ghost invariant = { λ a. IsOrdered int_cmp a.keys };
}

impl EntryKeys {
    /// No key. It takes no memory.
    pub fn new(alloc: Global) -> EntryKeys
        ensures { result ≡ [] }
    {
        EntryKeys {
            keys: BTreeMap::new(alloc),
        }
    }

    /// Whether a key is locked.
    pub fn is_locked(&self, key: Key) -> bool
        ensures { result ≡ is_key_locked key self.now }
    {
        match self.keys.get(&key) {
            Some(locked) => *locked,
            None => false,
        }
    }

    /// Takes room for the lock of a key.
    pub fn make_room(&mut self, key: Key) -> Result<(), OutOfMemory>
        ensures same { SameKeys self.old self.new }
        ensures room { OnOk result (is_some (find int_cmp key self.new) ≡ true) }
    {
        if self.keys.get(&key).is_none() {
            self.keys.insert(key, false)?;
        }
        Ok(())
    }

    /// Locks a key. It takes no memory.
    pub fn lock(&mut self, key: Key)
        requires { is_some (find int_cmp key self.old) ≡ true }
        ensures { LocksOne key self.old self.new }
    {
        let Some(locked) = self.keys.get_mut(&key) else {
            return;
        };
        *locked = true;
    }

    /// Gives back the memory of so many keys, or of all; false where none is left.
    pub fn give_back(&mut self, most: usize) -> bool {
        for _ in 0..most {
            if self.keys.pop_first().is_none() {
                return false;
            }
        }
        true
    }
}
