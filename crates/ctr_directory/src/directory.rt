// What is remembered of all buckets.
ghost use Rattle.std.specs.Prelude.{◌≡◌, ◌≤◌, ◌<◌, ◌+◌, ◌/◌, ℕ, ℤ, List, length, IfSome, true, vec_len};
ghost use Rattle.ctr_page.specs.declared.table.TheConstants.{PAGE_SIZE};
ghost use Rattle.ctr_page.specs.Places.{bucket_of as bucket_by};
ghost use Rattle.ctr_directory.specs.Exact.{IsExact};
ghost use Rattle.ctr_directory.specs.Chains.{IsRemembered, Knows, KnowsFull, ChangesPage};

use crate::remembered::Remembered;
use crate::slots::Span;
use ctr_page::{Place, bucket_of};
use ctr_rec::PageNo;
use std::alloc::Global;

/// The most buckets of a database: 8 of each of 32 tables.
const BUCKETS: usize = 256;

/// How many keys a new directory may remember, in all: they take some 64 MiB, of 32 bytes each at most twice over.
pub const MOST_KEYS: usize = 1 << 20;

/// What is remembered of the buckets of tables. It is exact where it says anything.
#[derive(Drop)]
pub struct Directory {
    /// By their numbers, up to the last one that was asked for.
    pub buckets: Vec<Remembered>,
    /// At which use each bucket was used last, by its number; 0 where it never was.
    pub used_at: [u64; BUCKETS],
    /// How many times a bucket was used.
    pub uses: u64,
    /// How many keys may be remembered, in all. No call leaves more; within `read` and `changed` there may be one page's keys more.
    pub most: usize,
    /// How many keys are remembered, in all: the sum over the buckets, as each call leaves it.
    pub keys: usize,
}

fn number_of(entry: u8, bucket: u8) -> usize
    requires { (entry < 32) × (bucket < 8) }
    ensures { result < 256 }
{
    entry as usize * 8 + bucket as usize
}

impl Directory {
    /// Nothing is remembered. It takes no memory yet.
    pub fn new(alloc: Global) -> Directory
        ensures { (counted : ℕ) (pages : ℕ → List ℕ) → IsExact counted pages result }
    {
        Directory {
            buckets: Vec::new(alloc),
            used_at: [0; BUCKETS],
            uses: 0,
            most: MOST_KEYS,
            keys: 0,
        }
    }

    // Makes room for what is remembered of a bucket, by its number; false where memory is refused.
    fn reach(&mut self, number: usize) -> bool
        ensures there { result ≡ true → number < vec_len self.new.buckets }
        ensures kept { (counted : ℕ) (pages : ℕ → List ℕ) → IsExact counted pages self.old → IsExact counted pages self.new }
    {
        let alloc = *self.buckets.allocator();
        for _ in self.buckets.len()..BUCKETS {
            if self.buckets.len() > number {
                return true;
            }
            match self.buckets.push(Remembered::new(alloc)) {
                Ok(()) => {}
                Err(_) => return false,
            }
        }
        self.buckets.len() > number
    }

    /// Forgets all.
    pub fn forget(&mut self)
        ensures { (counted : ℕ) (pages : ℕ → List ℕ) → IsExact counted pages self.new }
    {
        for i in 0..self.buckets.len() {
            self.buckets[i].forget();
        }
        self.keys = 0;
    }

    // How many keys are remembered, added up over the buckets.
    fn len(&self) -> usize {
        let mut keys: usize = 0;
        for bucket in self.buckets.iter() {
            keys = keys.saturating_add(bucket.len());
        }
        keys
    }

    // The number of the bucket that was used longest ago, of those that have keys.
    fn oldest(&self) -> usize {
        let mut oldest = 0;
        let mut least = u64::MAX;
        for (i, bucket) in self.buckets.iter().enumerate() {
            let at = match self.used_at.get(i) {
                Some(at) => *at,
                None => 0,
            };
            if bucket.len() > 0 && at <= least {
                oldest = i;
                least = at;
            }
        }
        oldest
    }

    // Forgets one bucket, by its number.
    fn forget_bucket(&mut self, number: usize)
        ensures { (counted : ℕ) (pages : ℕ → List ℕ) → IsExact counted pages self.old → IsExact counted pages self.new }
    {
        if number >= self.buckets.len() {
            return;
        }
        let had = self.buckets[number].len();
        self.buckets[number].forget();
        self.keys = self.keys.saturating_sub(had);
    }

    // Forgets the bucket that was used longest ago, one after another, until there is no more than is allowed. Each round forgets a
    // bucket that has keys, so that there are no more rounds than buckets.
    fn limit(&mut self)
        ensures { (counted : ℕ) (pages : ℕ → List ℕ) → IsExact counted pages self.old → IsExact counted pages self.new }
    {
        for _ in 0..self.buckets.len() {
            if self.keys <= self.most {
                return;
            }
            let number = self.oldest();
            self.forget_bucket(number);
        }
    }

    /// So many keys may be remembered from now on, in all. What is too much is forgotten at once: the bucket that was used longest
    /// ago, one after another.
    pub fn allow(&mut self, most: usize)
        ensures { (counted : ℕ) (pages : ℕ → List ℕ) → IsExact counted pages self.old → IsExact counted pages self.new }
    {
        self.most = most;
        self.limit();
    }

    /// A bucket is used: of all buckets it is the last that is forgotten where there is too much.
    pub fn used(&mut self, entry: u8, bucket: u8)
        requires { (entry < 32) × (bucket < 8) }
        ensures { (counted : ℕ) (pages : ℕ → List ℕ) → IsExact counted pages self.old → IsExact counted pages self.new }
    {
        let number = number_of(entry, bucket);
        self.uses = self.uses.saturating_add(1);
        self.used_at[number] = self.uses;
    }

    // Only for a bucket that is known anything is done: its keys are taken from the count as it was, and added as it is.
    fn change_all(&mut self, number: PageNo, span: Span, counted: u32, before: &[u8], page: &[u8])
        requires some { 4 ≤ counted }
        requires whole { (length before.now ≡ PAGE_SIZE) × (length page.now ≡ PAGE_SIZE) }
        ensures { (a b : ℕ → List ℕ) → ChangesPage number span before.now page.now a b → IsExact counted a self.old → IsExact counted b self.new }
    {
        let mut keys = self.keys;
        for i in 0..self.buckets.len() {
            if !self.buckets[i].known {
                continue;
            }
            let had = self.buckets[i].len();
            self.buckets[i].changed(number, span, counted, before, page);
            keys = keys
                .saturating_sub(had)
                .saturating_add(self.buckets[i].len());
        }
        self.keys = keys;
    }

    /// A page has other bytes, of which those outside of the span are as they were. A bucket of which what is remembered isn't exact any more is forgotten.
    pub fn changed(&mut self, number: PageNo, span: Span, counted: u32, before: &[u8], page: &[u8])
        requires some { 4 ≤ counted }
        requires whole { (length before.now ≡ PAGE_SIZE) × (length page.now ≡ PAGE_SIZE) }
        ensures { (a b : ℕ → List ℕ) → ChangesPage number span before.now page.now a b → IsExact counted a self.old → IsExact counted b self.new }
    {
        self.change_all(number, span, counted, before, page);
        self.limit();
    }

    /// The place of a key of a table, or that no slot of its bucket has it; none where not all of the bucket's chain is remembered.
    pub fn find(&self, entry: u8, key: i64) -> Option<Option<Place>>
        requires { entry < 32 }
        ensures { (counted : ℕ) (pages : ℕ → List ℕ) → IsExact counted pages self.now → IfSome result (Knows counted pages entry (bucket_by key) key) }
    {
        let bucket = bucket_of(key);
        let number = number_of(entry, bucket);
        if number >= self.buckets.len() {
            return None;
        }
        let found = &self.buckets[number];
        if found.entry != entry || found.bucket != bucket {
            return None;
        }
        found.find(key)
    }

    /// Whether no slot of a table's bucket is free, where all of the bucket's chain is remembered; false where it isn't.
    pub fn is_full(&self, entry: u8, bucket: u8) -> bool
        requires { (entry < 32) × (bucket < 8) }
        ensures { (counted : ℕ) (pages : ℕ → List ℕ) → IsExact counted pages self.now → result ≡ true → KnowsFull counted pages entry bucket }
    {
        let number = number_of(entry, bucket);
        if number >= self.buckets.len() {
            return false;
        }
        let found = &self.buckets[number];
        if found.entry != entry || found.bucket != bucket {
            return false;
        }
        found.is_full()
    }

    /// The page that is to be read next, so that all of a bucket's chain is remembered: the one of the catalog that has the table's
    /// entry where nothing is yet; none where all is.
    pub fn wanted(&self, entry: u8, bucket: u8) -> Option<PageNo>
        requires { (entry < 32) × (bucket < 8) }
    {
        let number = number_of(entry, bucket);
        if number < self.buckets.len() {
            let found = &self.buckets[number];
            if found.known && found.entry == entry && found.bucket == bucket {
                return found.wanted();
            }
        }
        Some(1 + (entry / 16) as PageNo)
    }

    /// Whether something is remembered of a bucket.
    pub fn knows(&self, entry: u8, bucket: u8) -> bool
        requires { (entry < 32) × (bucket < 8) }
    {
        let number = number_of(entry, bucket);
        if number >= self.buckets.len() {
            return false;
        }
        let found = &self.buckets[number];
        found.known && found.entry == entry && found.bucket == bucket
    }

    // Begins to remember a bucket, by the page of the catalog that has its table's entry.
    fn begin(&mut self, entry: u8, bucket: u8, counted: u32, page: &[u8])
        requires some { 4 ≤ counted }
        requires there { (entry < 32) × (bucket < 8) }
        requires whole { length page.now ≡ PAGE_SIZE }
        ensures { (pages : ℕ → List ℕ) → pages (1 + entry / 16) ≡ page.now → IsExact counted pages self.old → IsExact counted pages self.new }
    {
        let number = number_of(entry, bucket);
        if !self.reach(number) {
            return;
        }
        self.buckets[number].begin(entry, bucket, counted, page);
    }

    fn put(&mut self, at: usize, number: PageNo, counted: u32, page: &[u8])
        requires some { 4 ≤ counted }
        requires there { at < vec_len self.old.buckets }
        requires whole { length page.now ≡ PAGE_SIZE }
        ensures { (pages : ℕ → List ℕ) → pages number ≡ page.now → IsExact counted pages self.old → IsExact counted pages self.new }
    {
        self.buckets[at].add(number, counted, page);
    }

    // A page of a bucket's chain is read.
    fn add(&mut self, entry: u8, bucket: u8, number: PageNo, counted: u32, page: &[u8])
        requires some { 4 ≤ counted }
        requires there { (entry < 32) × (bucket < 8) }
        requires whole { length page.now ≡ PAGE_SIZE }
        ensures { (pages : ℕ → List ℕ) → pages number ≡ page.now → IsExact counted pages self.old → IsExact counted pages self.new }
    {
        let at = number_of(entry, bucket);
        if at >= self.buckets.len() {
            return;
        }
        self.put(at, number, counted, page);
        self.keys = self.len();
        self.limit();
    }

    /// The page that was wanted is read. One that isn't counted is passed over.
    pub fn read(&mut self, entry: u8, bucket: u8, number: PageNo, counted: u32, page: &[u8])
        requires some { 4 ≤ counted }
        requires there { (entry < 32) × (bucket < 8) }
        requires whole { length page.now ≡ PAGE_SIZE }
        ensures { (pages : ℕ → List ℕ) → (number < counted → pages number ≡ page.now) → IsExact counted pages self.old → IsExact counted pages self.new }
    {
        if number >= counted {
            return;
        }
        self.used(entry, bucket);
        if self.knows(entry, bucket) {
            return self.add(entry, bucket, number, counted, page);
        }
        if number == 1 + (entry / 16) as PageNo {
            self.begin(entry, bucket, counted, page);
        }
    }
}
