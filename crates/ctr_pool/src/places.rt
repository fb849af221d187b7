// Where the frames of pages stand.
ghost use Rattle.std.specs.Prelude.{◌≡◌, ◌==◌, ◌<◌, ◌+◌, ℕ, [], Some, None, true, length, is_some, slice_index_or, if◌then◌else◌, IfOk};
ghost use Rattle.ctr_pool.specs.Kept.{place_of};

use crate::finding::find;
use ctr_rec::{OutOfMemory, PageNo};
use std::alloc::Global;
use std::marker::Model;

/// Pages with the places of their frames, in order of the pages. One is found in steps that grow with the logarithm of their number.
#[derive(Debug, Drop)]
pub struct Places {
    entries: Vec<(PageNo, usize)>,
}

impl Model for Places {
    ghost use Rattle.std.specs.Prelude.{◌-◌, vec_len, vec_capacity};
    ghost use Rattle.ctr_pool.specs.Kept.{PlaceList, AreOrdered};

    ghost Value = { PlaceList };

    ghost view = { λ a. record { entries = a.entries.items; spare = vec_capacity a.entries - vec_len a.entries } };

    ghost invariant = { λ a. AreOrdered a.entries.items };
}

impl Places {
    /// No page, with room for so many.
    pub fn new(alloc: Global, most: usize) -> Result<Places, OutOfMemory>
        ensures none { IfOk result (λ a. a.entries ≡ []) }
        ensures room { IfOk result (λ a. a.spare ≡ most) }
    {
        let entries = Vec::with_capacity(alloc, most)?;
        Ok(Places { entries })
    }

    /// How many pages.
    pub fn len(&self) -> usize
        ensures { result ≡ length self.now.entries }
    {
        self.entries.len()
    }

    /// The place of a page's frame.
    pub fn of(&self, page: PageNo) -> Option<usize>
        ensures { result ≡ place_of page self.now.entries }
    {
        match find(&self.entries, page) {
            Ok(rank) => Some(self.entries[rank].1),
            Err(_) => None,
        }
    }

    /// Which entry is the first behind a page.
    pub fn behind(&self, page: PageNo) -> usize {
        match find(&self.entries, page) {
            Ok(rank) => rank + 1,
            Err(rank) => rank,
        }
    }

    /// An entry: a page and the place of its frame.
    pub fn entry(&self, rank: usize) -> (PageNo, usize)
        requires { rank < length self.now.entries }
        ensures is { (d : ℕ × ℕ) → result ≡ slice_index_or self.now.entries rank d }
        ensures place { place_of result.0 self.now.entries ≡ Some result.1 }
    {
        self.entries[rank]
    }

    /// Adds a page.
    pub fn add(&mut self, page: PageNo, at: usize)
        requires new { place_of page self.old.entries ≡ None }
        requires room { 0 < self.old.spare }
        ensures places { (q : ℕ) → place_of q self.new.entries ≡ (if page == q then Some at else place_of q self.old.entries) }
        ensures len { length self.new.entries ≡ length self.old.entries + 1 }
        ensures room { self.new.spare + 1 ≡ self.old.spare }
    {
        let Err(rank) = find(&self.entries, page) else {
            unreachable!();
        };
        self.entries.insert(rank, (page, at)).unwrap();
    }

    /// Takes a page out.
    pub fn remove(&mut self, page: PageNo)
        ensures places { (q : ℕ) → place_of q self.new.entries ≡ (if page == q then None else place_of q self.old.entries) }
        ensures len { length self.new.entries + (if is_some (place_of page self.old.entries) then 1 else 0) ≡ length self.old.entries }
        ensures room { length self.new.entries + self.new.spare ≡ length self.old.entries + self.old.spare }
    {
        let Ok(rank) = find(&self.entries, page) else {
            return;
        };
        let _ = self.entries.remove(rank);
    }

    /// Gives a page's frame another place.
    pub fn change(&mut self, page: PageNo, at: usize)
        requires { is_some (place_of page self.old.entries) ≡ true }
        ensures places { (q : ℕ) → place_of q self.new.entries ≡ (if page == q then Some at else place_of q self.old.entries) }
        ensures len { length self.new.entries ≡ length self.old.entries }
        ensures room { self.new.spare ≡ self.old.spare }
    {
        let Ok(rank) = find(&self.entries, page) else {
            unreachable!();
        };
        self.entries[rank] = (page, at);
    }
}
