// What a session has of all entries and names.
ghost use Rattle.std.specs.Prelude.{◌≡◌, OnOk};
ghost use Rattle.ctr_locks.specs.Held.{holds_nothing, locks_key, keeps_others_off, SameHeld, LocksEntryKey, UsesName, HoldsName, HasEntry, HasRoomForKey, HasRoomForName};

use crate::entry::EntryKeys;
use crate::held::NameHeld;
use ctr_model::Key;
use ctr_types::{Name, OutOfMemory, Plain};
use std::alloc::Global;
use std::collections::BTreeMap;
use std::marker::Model;

/// By entry its keys, and by name its use and its hold. What isn't there it doesn't have.
#[derive(Drop)]
pub struct SessionLocks {
    entries: BTreeMap<u8, EntryKeys>,
    names: BTreeMap<Name, NameHeld>,
}

impl Model for SessionLocks {
    ghost use Rattle.std.specs.Ordering.{nat_cmp};
    ghost use Rattle.std.specs.BTreeMap.{IsOrdered};
    ghost use Rattle.ctr_model.specs.Database.{name_cmp};
    ghost use Rattle.ctr_locks.specs.Held.{LocksOfSession};

    ghost Value = { LocksOfSession };

    ghost view = { λ a. record { keys = a.entries.entries; names = a.names.entries } };

    ghost invariant = { λ a. IsOrdered nat_cmp a.entries × IsOrdered name_cmp a.names };
}

impl SessionLocks {
    /// Nothing. It takes no memory.
    pub fn new(alloc: Global) -> SessionLocks
        ensures { result ≡ holds_nothing }
    {
        SessionLocks {
            entries: BTreeMap::new(alloc),
            names: BTreeMap::new(alloc),
        }
    }

    /// Whether it has the lock of a key.
    pub fn has_key(&self, entry: u8, key: Key) -> bool
        ensures { result ≡ locks_key entry key self.now }
    {
        match self.entries.get(&entry) {
            Some(keys) => keys.is_locked(key),
            None => false,
        }
    }

    /// Whether it keeps others from a name, which they want for a change of schema or not.
    pub fn keeps_off(&self, schema: bool, name: &Name) -> bool
        ensures { result ≡ keeps_others_off schema name.now self.now }
    {
        match self.names.get(name) {
            Some(name) => name.held || (schema && name.used),
            None => false,
        }
    }

    /// Takes room for the lock of a key.
    pub fn make_key_room(&mut self, alloc: Global, entry: u8, key: Key) -> Result<(), OutOfMemory>
        ensures same { SameHeld self.old self.new }
        ensures room { OnOk result (HasRoomForKey entry key self.new) }
    {
        self.make_entry(alloc, entry)?;
        let Some(keys) = self.entries.get_mut(&entry) else {
            return Ok(());
        };
        keys.make_room(key)?;
        Ok(())
    }

    // An entry without keys, where there is none.
    fn make_entry(&mut self, alloc: Global, entry: u8) -> Result<(), OutOfMemory>
        ensures same { SameHeld self.old self.new }
        ensures room { OnOk result (HasEntry entry self.new) }
    {
        if self.entries.get(&entry).is_none() {
            self.entries.insert(entry, EntryKeys::new(alloc))?;
        }
        Ok(())
    }

    /// Takes room for a use and a hold of a name.
    pub fn make_name_room(&mut self, alloc: Global, name: &Name) -> Result<(), OutOfMemory>
        ensures same { SameHeld self.old self.new }
        ensures room { OnOk result (HasRoomForName name.now self.new) }
    {
        if self.names.get(name).is_none() {
            let none = NameHeld {
                used: false,
                held: false,
            };
            self.names.insert(name.copy(alloc)?, none)?;
        }
        Ok(())
    }

    /// Locks a key. It takes no memory.
    pub fn lock(&mut self, entry: u8, key: Key)
        requires { HasRoomForKey entry key self.old }
        ensures { LocksEntryKey entry key self.old self.new }
    {
        let Some(keys) = self.entries.get_mut(&entry) else {
            return;
        };
        keys.lock(key);
    }

    /// Uses a table. It takes no memory.
    pub fn use_name(&mut self, name: &Name)
        requires { HasRoomForName name.now self.old }
        ensures { UsesName name.now self.old self.new }
    {
        let Some(name) = self.names.get_mut(name) else {
            return;
        };
        name.used = true;
    }

    /// Holds a name. It takes no memory.
    pub fn hold_name(&mut self, name: &Name)
        requires { HasRoomForName name.now self.old }
        ensures { HoldsName name.now self.old self.new }
    {
        let Some(name) = self.names.get_mut(name) else {
            return;
        };
        name.held = true;
    }

    /// Gives back the memory of so many keys of an entry, or of an entry; false where no entry is left.
    pub fn give_back(&mut self, most: usize) -> bool {
        let Some((entry, _)) = self.entries.first_key_value() else {
            return false;
        };
        let entry = *entry;
        let Some(keys) = self.entries.get_mut(&entry) else {
            return false;
        };
        if !keys.give_back(most) {
            let _ = self.entries.remove(&entry);
        }
        true
    }
}
