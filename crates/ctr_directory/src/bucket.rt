// A bucket is remembered as its pages are read and as they change.
ghost use Rattle.std.specs.Prelude.{◌≡◌, ◌≢◌, ◌≤◌, ◌<◌, ◌+◌, ◌/◌, ◌==◌, ℕ, List, true, None, length, take, nat_eq, if◌then◌else◌, IfSome};
ghost use Rattle.indexmap.specs.IndexSet.{contains, index_set_len};
ghost use Rattle.ctr_page.specs.declared.checks.Chain.TheVariants.{Rows};
ghost use Rattle.ctr_page.specs.declared.table.TheConstants.{PAGE_SIZE};
ghost use Rattle.ctr_page.specs.Reading.{header_in};
ghost use Rattle.ctr_directory.specs.Chains.{kinds_kept, checks_of, keys_in, BucketSaid, IsRememberedBucket, IsRemembered, RowPagePasses, Knows, KnowsFull, SparesTell, ChangesPage};
ghost use Rattle.ctr_directory.specs.declared.slots.Span.{Span as AnySpan};
ghost use Rattle.ctr_directory.specs.Keys.{KeysLead};

use crate::remembered::Remembered;
use crate::slots::{Span, renew};
use crate::spare::note;
use ctr_page::{Chain, EntryState, Place, check_entry, check_header, read_entry, read_header};
use ctr_rec::{Kind, PageNo};

/// The bytes of a page that is new.
const WHOLE: Span = Span { from: 0, to: 4096 };

fn same_kinds(a: &[Kind], b: &[Kind]) -> bool
    ensures { result ≡ true → a.now ≡ b.now }
{
    match (a.split_first(), b.split_first()) {
        (None, None) => true,
        (Some((x, xs)), Some((y, ys))) => *x == *y && same_kinds(xs, ys),
        _ => false,
    }
}

// What the catalog says of a bucket.
#[derive(Clone, Copy)]
pub(crate) struct Said {
    kinds: [Kind; 7],
    count: usize,
    first: PageNo,
}

fn read_said(entry: u8, bucket: u8, counted: u32, page: &[u8]) -> Option<Said>
    requires some { 0 < counted }
    requires there { (entry < 32) × (bucket < 8) }
    requires whole { length page.now ≡ PAGE_SIZE }
    ensures said { IfSome result (λ s. BucketSaid counted entry bucket page.now (take s.count s.kinds) s.first) }
    ensures few { IfSome result (λ s. s.count ≤ 7) }
{
    let at = entry % 16;
    if check_entry(counted, at, page).is_err() {
        return None;
    }
    let table = read_entry(page, at);
    if table.state == EntryState::FREE {
        return None;
    }
    Some(Said {
        kinds: table.kinds(),
        count: table.count() as usize - 1,
        first: table.first(bucket),
    })
}

impl Remembered {
    // What the columns behind the key hold.
    fn kinds(&self) -> &[Kind]
        ensures value { result.now ≡ kinds_kept self.now }
        ensures few { length result.now ≤ 7 }
    {
        &self.kinds[..self.count]
    }

    fn chain(&self) -> Chain
        ensures { result ≡ Rows self.now.entry self.now.bucket }
    {
        Chain::Rows {
            entry: self.entry,
            bucket: self.bucket,
        }
    }

    /// Begins to remember a bucket, of which no page was read yet, by the page of the catalog that has its table's entry; where
    /// this fails its check or is free, nothing is remembered.
    pub fn begin(&mut self, entry: u8, bucket: u8, counted: u32, page: &[u8])
        requires some { 4 ≤ counted }
        requires there { (entry < 32) × (bucket < 8) }
        requires whole { length page.now ≡ PAGE_SIZE }
        ensures { (pages : ℕ → List ℕ) → pages (1 + entry / 16) ≡ page.now → IsRemembered counted pages self.new }
    {
        self.forget();
        let Some(said) = read_said(entry, bucket, counted, page) else {
            return;
        };
        let kinds = said.kinds;
        self.entry = entry;
        self.bucket = bucket;
        self.kinds = kinds;
        self.count = said.count;
        self.first = said.first;
        self.head = said.first;
        self.rest = said.first;
        self.known = true;
    }

    // The page of the catalog changed: whether it says the same but for the first page.
    fn reread(&mut self, counted: u32, page: &[u8]) -> bool
        requires some { 0 < counted }
        requires whole { length page.now ≡ PAGE_SIZE }
        ensures said { result ≡ true → BucketSaid counted self.old.entry self.old.bucket page.now (kinds_kept self.old) self.new.first }
        ensures same { self.new ≡ record self.old { first = self.new.first } }
    {
        let Some(said) = read_said(self.entry, self.bucket, counted, page) else {
            return false;
        };
        if !same_kinds(&said.kinds[..said.count], self.kinds()) {
            return false;
        }
        self.first = said.first;
        true
    }

    // One page more is read: where it leads, or none where it can't be remembered.
    fn take_page(&mut self, number: PageNo, counted: u32, page: &[u8]) -> Option<PageNo>
        requires some { 4 ≤ counted }
        requires whole { length page.now ≡ PAGE_SIZE }
        ensures next { IfSome result (λ next. next ≡ (header_in page.now).next) }
        ensures passes { IfSome result (λ _. RowPagePasses (checks_of counted self.old) page.now) }
        ensures added { IfSome result (λ _. (q : ℕ) → contains nat_eq self.new.pages q ≡ (if number == q then true else contains nat_eq self.old.pages q)) }
        ensures long { IfSome result (λ _. (index_set_len self.new.pages ≡ index_set_len self.old.pages + 1) × (index_set_len self.new.pages + 3 ≤ counted)) }
        ensures leads { IfSome result (λ _. (pages : ℕ → List ℕ) → pages number ≡ page.now → KeysLead (keys_in self.old.pages (kinds_kept self.old) pages) self.old.places
            → KeysLead (keys_in self.new.pages (kinds_kept self.old) pages) self.new.places) }
        ensures spares { IfSome result (λ _. (pages : ℕ → List ℕ) → pages number ≡ page.now → SparesTell self.old.pages self.old.spare (kinds_kept self.old) pages
            → SparesTell self.new.pages self.new.spare (kinds_kept self.old) pages) }
        ensures same { self.new ≡ record self.old { pages = self.new.pages; places = self.new.places; spare = self.new.spare } }
    {
        if check_header(self.chain(), counted, page).is_err() {
            return None;
        }
        let next = read_header(page).next;
        if self.pages.len() >= counted as usize - 4 {
            return None;
        }
        match self.pages.insert(number) {
            Ok(true) => {}
            _ => return None,
        }
        let kinds = &self.kinds[..self.count];
        match renew(&mut self.places, number, kinds, counted, WHOLE, &[], page) {
            Ok(()) => {}
            Err(_) => return None,
        }
        match note(&mut self.spare, number, kinds, page) {
            Ok(()) => Some(next),
            Err(_) => None,
        }
    }

    // The first page of the chain is read, which was put in front of the others.
    fn put_before(&mut self, counted: u32, page: &[u8]) -> bool
        requires some { 4 ≤ counted }
        requires whole { length page.now ≡ PAGE_SIZE }
        requires first { self.old.first ≢ 0 }
        ensures { (pages : ℕ → List ℕ) → pages self.old.first ≡ page.now → result ≡ true → IsRememberedBucket counted pages self.old → IsRememberedBucket counted pages self.new }
    {
        let number = self.first;
        match self.take_page(number, counted, page) {
            Some(next) if next == self.head => {
                self.head = number;
                true
            }
            _ => false,
        }
    }

    // The page behind the others is read.
    fn put_behind(&mut self, counted: u32, page: &[u8]) -> bool
        requires some { 4 ≤ counted }
        requires whole { length page.now ≡ PAGE_SIZE }
        requires rest { self.old.rest ≢ 0 }
        ensures { (pages : ℕ → List ℕ) → pages self.old.rest ≡ page.now → result ≡ true → IsRememberedBucket counted pages self.old → IsRememberedBucket counted pages self.new }
    {
        let number = self.rest;
        match self.take_page(number, counted, page) {
            Some(next) => {
                self.rest = next;
                true
            }
            None => false,
        }
    }

    /// The page that is to be read next, so that all of the chain is; none where it is, or where nothing is remembered.
    pub fn wanted(&self) -> Option<PageNo>
        ensures none { result ≡ None → self.now.known ≡ true → (self.now.head ≡ self.now.first) × (self.now.rest ≡ 0) }
    {
        if !self.known {
            return None;
        }
        if self.head != self.first {
            return Some(self.first);
        }
        if self.rest != 0 {
            return Some(self.rest);
        }
        None
    }

    fn put(&mut self, number: PageNo, counted: u32, page: &[u8]) -> bool
        requires some { 4 ≤ counted }
        requires whole { length page.now ≡ PAGE_SIZE }
        ensures { (pages : ℕ → List ℕ) → pages number ≡ page.now → result ≡ true → IsRememberedBucket counted pages self.old → IsRememberedBucket counted pages self.new }
    {
        if number == 0 {
            return false;
        }
        if self.head != self.first {
            return number == self.first && self.put_before(counted, page);
        }
        number == self.rest && self.put_behind(counted, page)
    }

    /// The page that was wanted is read. Where it can't be remembered, the bucket is forgotten.
    pub fn add(&mut self, number: PageNo, counted: u32, page: &[u8])
        requires some { 4 ≤ counted }
        requires whole { length page.now ≡ PAGE_SIZE }
        ensures { (pages : ℕ → List ℕ) → pages number ≡ page.now → IsRemembered counted pages self.old → IsRemembered counted pages self.new }
    {
        if !self.known {
            return;
        }
        if !self.put(number, counted, page) {
            self.forget();
        }
    }

    // A page of the chain has other bytes, which pass, and leads on as it did.
    fn renew_page(
        &mut self,
        number: PageNo,
        span: Span,
        counted: u32,
        before: &[u8],
        page: &[u8],
    ) -> bool
        requires some { 4 ≤ counted }
        requires whole { (length before.now ≡ PAGE_SIZE) × (length page.now ≡ PAGE_SIZE) }
        requires there { contains nat_eq self.old.pages number ≡ true }
        ensures { (a b : ℕ → List ℕ) (first : ℕ) → ChangesPage number span before.now page.now a b → result ≡ true
            → BucketSaid counted self.old.entry self.old.bucket (b (1 + self.old.entry / 16)) (kinds_kept self.old) self.old.first
            → IsRememberedBucket counted a (record self.old { first = first }) → IsRememberedBucket counted b self.new }
    {
        let Ok(()) = check_header(self.chain(), counted, page) else {
            return false;
        };
        if read_header(page).next != read_header(before).next {
            return false;
        }
        let kinds = &self.kinds[..self.count];
        match renew(&mut self.places, number, kinds, counted, span, before, page) {
            Ok(()) => {}
            Err(_) => return false,
        }
        match note(&mut self.spare, number, kinds, page) {
            Ok(()) => true,
            Err(_) => false,
        }
    }

    // Where the page is the one of the catalog that has the table's entry: whether it says the same but for the first page.
    fn reread_at(&mut self, number: PageNo, counted: u32, page: &[u8]) -> bool
        requires some { 4 ≤ counted }
        requires whole { length page.now ≡ PAGE_SIZE }
        ensures said { (span : AnySpan) (before : List ℕ) (a b : ℕ → List ℕ) → ChangesPage number span before page.now a b → result ≡ true
            → BucketSaid counted self.old.entry self.old.bucket (a (1 + self.old.entry / 16)) (kinds_kept self.old) self.old.first
            → BucketSaid counted self.old.entry self.old.bucket (b (1 + self.old.entry / 16)) (kinds_kept self.old) self.new.first }
        ensures same { self.new ≡ record self.old { first = self.new.first } }
    {
        if 1 + (self.entry / 16) as PageNo != number {
            return true;
        }
        self.reread(counted, page)
    }

    fn keep(&mut self, number: PageNo, span: Span, counted: u32, before: &[u8], page: &[u8]) -> bool
        requires some { 4 ≤ counted }
        requires whole { (length before.now ≡ PAGE_SIZE) × (length page.now ≡ PAGE_SIZE) }
        ensures { (a b : ℕ → List ℕ) → ChangesPage number span before.now page.now a b → result ≡ true → IsRememberedBucket counted a self.old → IsRememberedBucket counted b self.new }
    {
        if !self.reread_at(number, counted, page) {
            return false;
        }
        if self.pages.contains(&number) {
            return self.renew_page(number, span, counted, before, page);
        }
        true
    }

    /// A page has other bytes. Where what is remembered isn't exact any more, it is forgotten.
    pub fn changed(&mut self, number: PageNo, span: Span, counted: u32, before: &[u8], page: &[u8])
        requires some { 4 ≤ counted }
        requires whole { (length before.now ≡ PAGE_SIZE) × (length page.now ≡ PAGE_SIZE) }
        ensures { (a b : ℕ → List ℕ) → ChangesPage number span before.now page.now a b → IsRemembered counted a self.old → IsRemembered counted b self.new }
    {
        if !self.known {
            return;
        }
        if !self.keep(number, span, counted, before, page) {
            self.forget();
        }
    }

    /// The place of a key, or that no slot of the bucket has it; none where not all of its chain is remembered.
    pub fn find(&self, key: i64) -> Option<Option<Place>>
        ensures { (counted : ℕ) (pages : ℕ → List ℕ) → IsRemembered counted pages self.now → IfSome result (Knows counted pages self.now.entry self.now.bucket key) }
    {
        if !self.known || self.head != self.first || self.rest != 0 {
            return None;
        }
        Some(self.places.get(&key).copied())
    }

    /// Whether all of the bucket's chain is remembered, and none of its pages has a free slot.
    pub fn is_full(&self) -> bool
        ensures { (counted : ℕ) (pages : ℕ → List ℕ) → IsRemembered counted pages self.now → result ≡ true → KnowsFull counted pages self.now.entry self.now.bucket }
    {
        if !self.known || self.head != self.first || self.rest != 0 {
            return false;
        }
        self.spare.is_empty()
    }
}
