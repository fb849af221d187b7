// The locks of all sessions.
ghost use Rattle.std.specs.Prelude.{◌≡◌, true, false, [], OnOk, OnErr};
ghost use Rattle.ctr_locks.specs.Held.{locks_key, first_that, busy_among, locked_among, held_by_session, held_told, IsInOrder, OneHolder, IsHolder, HasRoomForKey, HasRoomForName, OfSession, SameHeld, LocksEntryKey, UsesName, HoldsName, FreesAll, IsSessionThere};

use crate::held::Held;
use crate::released::Released;
use crate::session::SessionLocks;
use ctr_model::Key;
use ctr_types::{Name, OutOfMemory};
use std::alloc::Global;
use std::collections::BTreeMap;
use std::marker::Model;

/// By session, what each has. A call costs a look-up in one session's entries and keys, or in each session's, and
/// never a walk through them.
#[derive(Drop)]
pub struct KeyLocks {
    sessions: BTreeMap<u8, SessionLocks>,
    // what sessions had, which nobody is kept off by
    released: Released,
}

impl Model for KeyLocks {
    ghost use Rattle.std.specs.Prelude.{List, ℕ};
    ghost use Rattle.std.specs.Ordering.{nat_cmp};
    ghost use Rattle.std.specs.BTreeMap.{IsOrdered};
    ghost use Rattle.ctr_locks.specs.Held.{LocksOfSession, OneHolder};

    ghost Value = { List (ℕ × LocksOfSession) };

    ghost view = { λ a. a.sessions.entries };

    ghost invariant = { λ a. IsOrdered nat_cmp a.sessions × OneHolder a.sessions.entries };
}

impl KeyLocks {
    /// No session has anything. It takes no memory.
    pub fn new(alloc: Global) -> KeyLocks
        ensures { result ≡ [] }
    {
        KeyLocks {
            sessions: BTreeMap::new(alloc),
            released: Released::new(alloc),
        }
    }

    /// The session that has the lock of a key, of all sessions.
    pub fn locked(&self, entry: u8, key: Key) -> Option<u8>
        ensures first { result ≡ first_that (locks_key entry key) self.now }
        ensures holder { IsHolder result entry key self.now }
        ensures one { OneHolder self.now }
        ensures ordered { IsInOrder self.now }
    {
        first_with(&self.sessions, entry, key)
    }

    /// The other session that has the lock of a key.
    pub fn locked_to(&self, s: u8, entry: u8, key: Key) -> Option<u8>
        ensures { result ≡ locked_among s entry key self.now }
    {
        for (other, locks) in self.sessions.iter() {
            if *other != s && locks.has_key(entry, key) {
                return Some(*other);
            }
        }
        None
    }

    /// The lowest other session that keeps a session from a name, which it wants for a change of schema or not.
    pub fn busy(&self, s: u8, schema: bool, name: &Name) -> Option<u8>
        ensures { result ≡ busy_among schema s name.now self.now }
    {
        for (other, locks) in self.sessions.iter() {
            if *other != s && locks.keeps_off(schema, name) {
                return Some(*other);
            }
        }
        None
    }

    /// The sessions stand in order of number, each once. The call does nothing: what it ensures always holds.
    pub fn stands_in_order(&self)
        ensures { IsInOrder self.now }
    {
        let _ = &self.sessions;
    }

    // A session that has nothing is there.
    fn make_session(&mut self, alloc: Global, s: u8) -> Result<(), OutOfMemory>
        ensures same { OfSession s SameHeld self.old self.new }
        ensures there { OnOk result (IsSessionThere s self.new) }
    {
        if self.sessions.get(&s).is_none() {
            self.released.make_room();
            self.sessions.insert(s, SessionLocks::new(alloc))?;
        }
        Ok(())
    }

    // The memory of some keys is given back that nobody has locked any more.
    fn give_back(&mut self)
        ensures { self.new ≡ self.old }
    {
        self.released.give_back();
    }

    // The memory of all such keys.
    fn give_back_all(&mut self)
        ensures { self.new ≡ self.old }
    {
        self.released.give_back_all();
    }

    // Takes room for the lock of a key.
    fn take_key_room(
        &mut self,
        alloc: Global,
        s: u8,
        entry: u8,
        key: Key,
    ) -> Result<(), OutOfMemory>
        ensures same { OfSession s SameHeld self.old self.new }
        ensures room { OnOk result (HasRoomForKey entry key (held_by_session s self.new)) }
    {
        self.make_session(alloc, s)?;
        let Some(locks) = self.sessions.get_mut(&s) else {
            return Ok(());
        };
        locks.make_key_room(alloc, entry, key)?;
        Ok(())
    }

    /// Takes room for the lock of a key, so that `try_lock` of it takes no memory.
    pub fn reserve_key(
        &mut self,
        alloc: Global,
        s: u8,
        entry: u8,
        key: Key,
    ) -> Result<(), OutOfMemory>
        ensures same { OfSession s SameHeld self.old self.new }
        ensures room { OnOk result (HasRoomForKey entry key (held_by_session s self.new)) }
    {
        self.give_back();
        if self.take_key_room(alloc, s, entry, key).is_ok() {
            return Ok(());
        }
        self.give_back_all();
        self.take_key_room(alloc, s, entry, key)
    }

    /// Takes room for a use and a hold of a name, so that `use_table` and `hold_name` take no memory.
    pub fn reserve_name(&mut self, alloc: Global, s: u8, name: &Name) -> Result<(), OutOfMemory>
        ensures same { OfSession s SameHeld self.old self.new }
        ensures room { OnOk result (HasRoomForName name.now (held_by_session s self.new)) }
    {
        self.make_session(alloc, s)?;
        let Some(locks) = self.sessions.get_mut(&s) else {
            return Ok(());
        };
        locks.make_name_room(alloc, name)?;
        Ok(())
    }

    /// Locks a key where no other session has its lock. It takes no memory.
    pub fn try_lock(&mut self, s: u8, entry: u8, key: Key) -> Result<(), Held>
        requires { HasRoomForKey entry key (held_by_session s self.old) }
        ensures locks { OnOk result (OfSession s (LocksEntryKey entry key) self.old self.new) }
        ensures err { OnErr result (self.new ≡ self.old) }
        ensures held { held_told result ≡ locked_among s entry key self.old }
    {
        if let Some(by) = self.locked_to(s, entry, key) {
            return Err(Held { by });
        }
        let Some(locks) = self.sessions.get_mut(&s) else {
            return Ok(());
        };
        locks.lock(entry, key);
        Ok(())
    }

    /// Uses a table whose name no other session holds. It takes no memory.
    pub fn use_table(&mut self, s: u8, name: &Name) -> Result<(), Held>
        requires { HasRoomForName name.now (held_by_session s self.old) }
        ensures uses { OnOk result (OfSession s (UsesName name.now) self.old self.new) }
        ensures err { OnErr result (self.new ≡ self.old) }
        ensures held { held_told result ≡ busy_among false s name.now self.old }
    {
        if let Some(by) = self.busy(s, false, name) {
            return Err(Held { by });
        }
        let Some(locks) = self.sessions.get_mut(&s) else {
            return Ok(());
        };
        locks.use_name(name);
        Ok(())
    }

    /// Holds a name that no other session holds or uses. It takes no memory.
    pub fn hold_name(&mut self, s: u8, name: &Name) -> Result<(), Held>
        requires { HasRoomForName name.now (held_by_session s self.old) }
        ensures holds { OnOk result (OfSession s (HoldsName name.now) self.old self.new) }
        ensures err { OnErr result (self.new ≡ self.old) }
        ensures held { held_told result ≡ busy_among true s name.now self.old }
    {
        if let Some(by) = self.busy(s, true, name) {
            return Err(Held { by });
        }
        let Some(locks) = self.sessions.get_mut(&s) else {
            return Ok(());
        };
        locks.hold_name(name);
        Ok(())
    }

    /// What a session has is free, and no other's changes. It takes no memory, and no longer the more the session has: that memory is given back as
    /// room is taken for locks of keys.
    pub fn release_all(&mut self, s: u8)
        ensures { OfSession s FreesAll self.old self.new }
    {
        let locks = self.sessions.remove(&s);
        self.released.keep(locks);
    }
}

// The first session that has the lock of a key.
fn first_with(sessions: &BTreeMap<u8, SessionLocks>, entry: u8, key: Key) -> Option<u8>
    ensures { result ≡ first_that (locks_key entry key) sessions.now.entries }
{
    for (session, locks) in sessions.iter() {
        if locks.has_key(entry, key) {
            return Some(*session);
        }
    }
    None
}
