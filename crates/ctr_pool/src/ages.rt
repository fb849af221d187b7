// The changed pages, by the LSNs of their first changes.
ghost use Rattle.std.specs.Prelude.{◌≡◌, ◌==◌, ◌≤◌, ◌<◌, ◌+◌, ℕ, [], Some, None, length, slice_index_or, if◌then◌else◌, IfOk, IfSome, IfNone};
ghost use Rattle.ctr_pool.specs.Kept.{age_of, first_age, AreByAge};

use crate::Lsn;
use ctr_rec::{OutOfMemory, PageNo};
use std::alloc::Global;
use std::marker::Model;

/// Pages with changes that aren't saved, the one that is changed the longest first.
#[derive(Debug, Drop)]
pub struct Ages {
    entries: Vec<(PageNo, Lsn)>,
}

impl Model for Ages {
    ghost use Rattle.std.specs.Prelude.{◌-◌, vec_len, vec_capacity};
    ghost use Rattle.ctr_pool.specs.Kept.{AgeList, AreByAge};

    ghost Value = { AgeList };

    ghost view = { λ a. record { entries = a.entries.items; spare = vec_capacity a.entries - vec_len a.entries } };

    ghost invariant = { λ a. AreByAge a.entries.items };
}

impl Ages {
    /// No page, with room for so many.
    pub fn new(alloc: Global, most: usize) -> Result<Ages, OutOfMemory>
        ensures none { IfOk result (λ a. a.entries ≡ []) }
        ensures room { IfOk result (λ a. most ≤ a.spare) }
    {
        let entries = Vec::with_capacity(alloc, most)?;
        Ok(Ages { entries })
    }

    /// How many pages.
    pub fn len(&self) -> usize
        ensures { result ≡ length self.now.entries }
    {
        self.entries.len()
    }

    /// The page that is changed the longest.
    pub fn first(&self) -> Option<(PageNo, Lsn)>
        ensures first { result ≡ first_age self.now.entries }
        ensures some { IfSome result (λ a. age_of a.0 self.now.entries ≡ Some a.1) }
        ensures least { IfSome result (λ a. (p s : ℕ) → age_of p self.now.entries ≡ Some s → a.1 ≤ s) }
        ensures none { IfNone result ((p : ℕ) → age_of p self.now.entries ≡ None) }
    {
        if self.entries.is_empty() {
            return None;
        }
        Some(self.entries[0])
    }

    /// Adds a page.
    pub fn add(&mut self, page: PageNo, since: Lsn)
        requires new { age_of page self.old.entries ≡ None }
        requires room { 0 < self.old.spare }
        ensures ages { (q : ℕ) → age_of q self.new.entries ≡ (if page == q then Some since else age_of q self.old.entries) }
        ensures len { length self.new.entries ≡ length self.old.entries + 1 }
        ensures room { self.new.spare + 1 ≡ self.old.spare }
    {
        let at = place(&self.entries, since);
        self.entries.insert(at, (page, since)).unwrap();
    }

    /// Takes the first out.
    pub fn take_first(&mut self)
        ensures ages { (e : ℕ × ℕ) (q : ℕ) → first_age self.old.entries ≡ Some e → age_of q self.new.entries ≡ (if e.0 == q then None else age_of q self.old.entries) }
        ensures len { (e : ℕ × ℕ) → first_age self.old.entries ≡ Some e → length self.new.entries + 1 ≡ length self.old.entries }
        ensures room { length self.new.entries + self.new.spare ≡ length self.old.entries + self.old.spare }
    {
        if self.entries.is_empty() {
            return;
        }
        let _ = self.entries.remove(0);
    }
}

// Where an entry of an LSN stands among these. It mostly is the newest, so the search begins at the end.
fn place(entries: &[(PageNo, Lsn)], since: Lsn) -> usize
    requires { AreByAge entries.now }
    ensures within { result ≤ length entries.now }
    ensures below { (k : ℕ) (d : ℕ × ℕ) → k < result → (slice_index_or entries.now k d).1 ≤ since }
    ensures above { (k : ℕ) (d : ℕ × ℕ) → result ≤ k → k < length entries.now → since ≤ (slice_index_or entries.now k d).1 }
{
    let mut at = entries.len();
    while at > 0 {
        let before = entries[at - 1].1;
        if before <= since {
            return at;
        }
        at -= 1;
    }
    0
}
