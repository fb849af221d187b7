// A map in the order of its keys, which contracts see as the list of its entries.
ghost use Rattle.std.specs.Prelude.{◌≡◌, ◌<◌, ◌≤◌, ◌↔◌, List, [], ◌∷◌, ◌++◌, length, map, is_some, true, IsTrue, IfOk, OnOk, OnErr};
ghost use Rattle.std.specs.Option.{option_copied};
ghost use Rattle.std.specs.FinMap.Entries.{put, find};
ghost use Rattle.ctr_model.specs.Maps.{without, IsKeyPlace, HasKeyAt};

use ctr_types::{Plain, copy_all, same_all};
use std::alloc::{AllocError, Global};
use std::cmp::Ordering;
use std::marker::Model;

/// Keys with a value each, in the order of the keys. A plain list: a look-up goes over it.
#[derive(Debug, Drop)]
pub struct Map<K, V> {
    entries: Vec<(K, V)>,
}

impl<K, V> Model for Map<K, V> {
    ghost use Rattle.std.specs.Prelude.{List};

    ghost Value = { List (K × V) };

    ghost view = { λ m. m.entries.items };
}

impl<K: Ord, V> Map<K, V> {
    /// The empty map. It takes no memory.
    pub fn new(alloc: Global) -> Self
        ensures { result ≡ [] }
    {
        Map {
            entries: Vec::new(alloc),
        }
    }

    pub fn entries(&self) -> &[(K, V)]
        ensures { result.now ≡ self.now }
    {
        &self.entries
    }

    /// The value of a key.
    pub fn get(&self, key: &K) -> Option<&V>
        ensures { option_copied result ≡ find K.cmp key.now self.now }
    {
        found(&self.entries, key)
    }

    /// The value of a key, new or in place of the one before. Where memory is refused, nothing changes.
    pub fn put(&mut self, key: K, value: V) -> Result<(), AllocError>
    where
        K: Drop,
        V: Drop,
        ensures ok { OnOk result (self.new ≡ put K.cmp key value self.old) }
        ensures err { OnErr result (self.new ≡ self.old) }
    {
        let place = place_of(&self.entries, &key);
        if place.taken {
            self.entries[place.at].1 = value;
            return Ok(());
        }
        self.entries.insert(place.at, (key, value))?;
        Ok(())
    }

    /// Takes the entry of a key out, where it is there.
    pub fn remove(&mut self, key: &K)
    where
        K: Drop,
        V: Drop,
        ensures { self.new ≡ without K.cmp key.now self.old }
    {
        self.entries
            .retain(|entry| key.cmp(&entry.0) != Ordering::Equal);
    }
}

impl<K: Plain + Ord, V: Plain> Plain for Map<K, V> {
    fn copy(&self, alloc: Global) -> Result<Self, AllocError> {
        Ok(Map {
            entries: copy_all(alloc, &self.entries)?,
        })
    }

    fn same(&self, other: &Self) -> bool {
        same_all(&self.entries, &other.entries)
    }
}

fn found<'a, K: Ord, V>(entries: &'a [(K, V)], key: &K) -> Option<&'a V>
    ensures { option_copied result ≡ find K.cmp key.now entries.now }
{
    let (first, rest) = entries.split_first()?;
    if key.cmp(&first.0) == Ordering::Equal {
        return Some(&first.1);
    }
    found(rest, key)
}

// Where a key stands, or would stand.
#[derive(Clone, Copy)]
struct Place {
    at: usize,
    taken: bool,
}

fn place_of<K: Ord, V>(entries: &[(K, V)], key: &K) -> Place
    ensures at { IsKeyPlace K.cmp key.now entries.now result.at }
    ensures taken { IsTrue result.taken ↔ HasKeyAt K.cmp key.now entries.now result.at }
    ensures within { result.at ≤ length entries.now }
    ensures before_end { result.taken ≡ true → result.at < length entries.now }
{
    let Some((first, rest)) = entries.split_first() else {
        return Place {
            at: 0,
            taken: false,
        };
    };
    match key.cmp(&first.0) {
        Ordering::Less => Place {
            at: 0,
            taken: false,
        },
        Ordering::Equal => Place { at: 0, taken: true },
        Ordering::Greater => {
            let behind = place_of(rest, key);
            Place {
                at: behind.at + 1,
                taken: behind.taken,
            }
        }
    }
}
