// What is remembered of a bucket of a table.
ghost use Rattle.std.specs.Prelude.{◌≡◌, ◌≤◌, ◌<◌, false, []};

use ctr_page::Place;
use ctr_rec::{Kind, PageNo};
use indexmap::{IndexMap, IndexSet};
use std::alloc::Global;

/// What is remembered of a bucket: its chain from a page on, as far as it was read.
#[derive(Drop)]
pub struct Remembered {
    /// The table's entry of the catalog.
    pub entry: u8,
    pub bucket: u8,
    /// Whether anything is remembered.
    pub known: bool,
    /// What the columns behind the key hold: so many of these.
    pub kinds: [Kind; 7],
    pub count: usize,
    /// The first page of the chain.
    pub first: PageNo,
    /// The first page that was read: the first of the chain, or one that another was put in front of.
    pub head: PageNo,
    /// The page behind those that were read; 0 at the end of the chain.
    pub rest: PageNo,
    /// The pages that were read.
    pub pages: IndexSet<PageNo>,
    /// Where each of their keys stands.
    pub places: IndexMap<i64, Place>,
    /// Those of the pages that have a free slot.
    pub spare: IndexSet<PageNo>,
    ghost there: { (entry < 32) × (bucket < 8) × (count ≤ 7) },
}

impl Remembered {
    /// Nothing. It takes no memory.
    pub fn new(alloc: Global) -> Remembered
        ensures { result.known ≡ false }
    {
        Remembered {
            entry: 0,
            bucket: 0,
            known: false,
            kinds: [Kind::Int; 7],
            count: 0,
            first: 0,
            head: 0,
            rest: 0,
            pages: IndexSet::new(alloc),
            places: IndexMap::new(alloc),
            spare: IndexSet::new(alloc),
        }
    }

    /// Forgets all, and gives its memory back.
    pub fn forget(&mut self)
        ensures unknown { self.new.known ≡ false }
        ensures empty { (self.new.pages.keys ≡ []) × (self.new.places.entries ≡ []) }
    {
        self.known = false;
        let alloc = *self.places.allocator();
        self.pages = IndexSet::new(alloc);
        self.places = IndexMap::new(alloc);
        self.spare = IndexSet::new(alloc);
    }

    /// How many keys it has.
    pub fn len(&self) -> usize {
        self.places.len()
    }
}
