// A list of transactions with their heads, in the order in which they were added.
ghost use Rattle.std.specs.Prelude.{◌≡◌, ◌≤◌, ◌<◌, ◌+◌, ◌^◌, ◌++◌, [], ◌∷◌, None, length, map, slice_get, ℕ, is_some, if◌then◌else◌, IfOk, OnOk};
ghost use Rattle.ctr_snap.specs.Seeing.{least};
ghost use Rattle.ctr_meta.specs.Tables.{heads_at, is_in, heads_in, without_xid, with_heads};

use ctr_rec::{OutOfMemory, Xid};
use indexmap::IndexMap;
use indexmap::map::Slice;
use std::alloc::Global;
use std::marker::Model;

/// Transactions with their heads. Each is found without a search.
#[derive(Drop)]
pub struct Xids {
    heads: IndexMap<Xid, u64>,
}

impl Model for Xids {
    ghost use Rattle.ctr_meta.specs.XidList.{XidList};
    ghost use Rattle.indexmap.specs.IndexMap.{spare};

    ghost Value = { XidList };

    ghost view = { λ a. record { entries = a.heads.entries; spare = spare a.heads } };
}

impl Xids {
    /// No transactions. It takes no memory.
    pub fn new(alloc: Global) -> Xids
        ensures { result.entries ≡ [] }
    {
        Xids {
            heads: IndexMap::new(alloc),
        }
    }

    /// How many there are.
    pub fn len(&self) -> usize
        ensures len { result ≡ length self.now.entries }
        ensures small { result < 2 ^ 63 }
    {
        self.heads.len()
    }

    /// The heads of one that is in the list.
    pub fn get(&self, x: Xid) -> Option<u64>
        ensures { result ≡ heads_at x self.now.entries }
    {
        self.heads.get(&x).copied()
    }

    /// Whether one is in the list.
    pub fn has(&self, x: Xid) -> bool
        ensures { result ≡ is_in x self.now.entries }
    {
        self.heads.contains_key(&x)
    }

    /// One of them with its heads, by its place in their order; none behind the last.
    pub fn at(&self, place: usize) -> Option<(Xid, u64)>
        ensures { result ≡ slice_get self.now.entries place }
    {
        match self.heads.get_index(place) {
            Some((x, heads)) => Some((*x, *heads)),
            None => None,
        }
    }

    /// Takes room for so many more.
    pub fn reserve(&mut self, more: usize) -> Result<(), OutOfMemory>
        ensures same { self.new.entries ≡ self.old.entries }
        ensures room { OnOk result (more ≤ self.new.spare) }
        ensures kept { self.old.spare ≤ self.new.spare }
    {
        self.heads.reserve(more)?;
        Ok(())
    }

    /// Adds one behind the others.
    pub fn add(&mut self, x: Xid, heads: u64)
        requires new { heads_at x self.old.entries ≡ None }
        requires room { 0 < self.old.spare }
        ensures entries { self.new.entries ≡ self.old.entries ++ (x, heads) ∷ [] }
        ensures spare { self.old.spare ≤ self.new.spare + 1 }
        ensures len { length self.new.entries ≡ length self.old.entries + 1 }
    {
        let _ = self.heads.insert(x, heads).unwrap();
    }

    /// Takes one out; the others keep their order.
    pub fn remove(&mut self, x: Xid) -> Option<u64>
        ensures heads { result ≡ heads_at x self.old.entries }
        ensures entries { self.new.entries ≡ without_xid x self.old.entries }
        ensures spare { self.old.spare ≤ self.new.spare }
        ensures len { length self.new.entries + (if is_some result then 1 else 0) ≡ length self.old.entries }
    {
        self.heads.shift_remove(&x)
    }

    /// Sets the heads of one that is in the list.
    pub fn set(&mut self, x: Xid, heads: u64)
        ensures entries { self.new.entries ≡ with_heads x heads self.old.entries }
        ensures spare { self.old.spare ≤ self.new.spare }
        ensures len { length self.new.entries ≡ length self.old.entries }
    {
        let Some(value) = self.heads.get_mut(&x) else {
            return;
        };
        *value = heads;
    }

    /// Takes all out.
    pub fn clear(&mut self)
        ensures entries { self.new.entries ≡ [] }
        ensures spare { length self.old.entries + self.old.spare ≤ self.new.spare }
    {
        self.heads.clear();
    }

    /// All of them, in their order.
    pub fn pairs(&self, alloc: Global) -> Result<Vec<(Xid, u64)>, OutOfMemory>
        ensures { IfOk result (λ v. v.items ≡ self.now.entries) }
    {
        let pairs = self
            .heads
            .iter()
            .map(|(x, heads)| (*x, *heads))
            .collect(alloc)?;
        Ok(pairs)
    }

    /// All of them without their heads, in their order.
    pub fn xids(&self, alloc: Global) -> Result<Vec<Xid>, OutOfMemory>
        ensures { IfOk result (λ v. v.items ≡ map (λ (p : ℕ × ℕ). p.0) self.now.entries) }
    {
        let xids = self.heads.iter().map(|(x, _)| *x).collect(alloc)?;
        Ok(xids)
    }

    /// The least of a number and all of them.
    pub fn least(&self, mark: Xid) -> Xid
        ensures { result ≡ least mark (map (λ (p : ℕ × ℕ). p.0) self.now.entries) }
    {
        least_in(self.heads.as_slice(), mark)
    }
}

fn least_in(heads: Slice<'_, Xid, u64>, mark: Xid) -> Xid
    ensures { result ≡ least mark (map (λ (p : ℕ × ℕ). p.0) heads.entry) }
{
    let Some(((x, _), rest)) = heads.split_first() else {
        return mark;
    };
    least_in(rest, mark.min(*x))
}
