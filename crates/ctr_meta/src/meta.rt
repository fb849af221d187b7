// The tables, and what each record does to them.
ghost use Rattle.std.specs.Prelude.{◌≡◌, ◌≤◌, ◌<◌, ◌+◌, ◌-◌, ◌*◌, ◌^◌, ◌∷◌, ◌++◌, ℕ, List, [], IsTrue, ◌↔◌, true, None, Ok, filter, length, map, slice_get, IfOk, IfSome, OnOk, ⊤};
ghost use Rattle.std.specs.List.{AllByRecursion};
ghost use Rattle.ctr_rec.specs.declared.record.SlogItem.{SlogItem as Item};
ghost use Rattle.ctr_rec.specs.Members.{opens_listed, aborted_listed, items_listed, HasMembers, ItemFits};
ghost use Rattle.ctr_snap.specs.Seeing.{least};
ghost use Rattle.ctr_meta.specs.Items.{is_item_by};
ghost use Rattle.ctr_meta.specs.Tables.{no_tables, is_in, heads_in, heads_of, fate_in};
ghost use Rattle.ctr_meta.specs.Effects.{listed, opened_by, committed, rolled_back, forgotten_by, with_item, without_item, one_head_more, one_aborted_less, one_head_less, effect};
ghost use Rattle.ctr_meta.specs.Needs.{open_need, item_need, commit_needs, abort_needs, forget_need, row_needs, revert_need, head_there, needs};
ghost use Rattle.ctr_meta.specs.Kept.{XidsFit, IsLogged, opens_added, items_added, NumbersFit, MayApply, RoomLeft};

use crate::Wanted;
use crate::items::{allocs_by, has_wanted, items_by, latest_by, settle, take_out};
use crate::listing::{counts_in, read_items, read_pairs};
use crate::needs::{expect, there};
use crate::xids::Xids;
use ctr_rec::{BadRecord, Fate, OutOfMemory, Record, SlogItem, Xid};
use std::alloc::Global;
use std::marker::Model;

/// The tables that the records of a log leave. How a transaction stands, and its heads, are found without a
/// search.
#[derive(Drop)]
pub struct Meta {
    next: Xid,
    opens: Xids,
    aborted: Xids,
    items: Vec<SlogItem>,
}

impl Model for Meta {
    ghost use Rattle.ctr_meta.specs.Kept.{TablesKept};

    ghost Value = { TablesKept };

    ghost use Rattle.ctr_meta.specs.Inside.{kept_here, TablesStand};

    ghost view = { kept_here };

    ghost invariant = { TablesStand };
}

impl Meta {
    /// The tables before any record. It takes no memory.
    pub fn new(alloc: Global) -> Meta
        ensures { result.tables ≡ no_tables }
    {
        Meta {
            next: 1,
            opens: Xids::new(alloc),
            aborted: Xids::new(alloc),
            items: Vec::new(alloc),
        }
    }

    /// The next transaction.
    pub fn next(&self) -> Xid
        ensures next { result ≡ self.now.tables.next }
        // Open and aborted ones are from 1 to below it, each once, and none is both.
        ensures xids { XidsFit self.now.tables }
    {
        self.next
    }

    /// The open transactions with their heads, in the order in which they were added.
    pub fn opens(&self, alloc: Global) -> Result<Vec<(Xid, u64)>, OutOfMemory>
        ensures { IfOk result (λ v. v.items ≡ self.now.tables.opens) }
    {
        self.opens.pairs(alloc)
    }

    /// The open transactions without their heads, in the same order.
    pub fn open_xids(&self, alloc: Global) -> Result<Vec<Xid>, OutOfMemory>
        ensures { IfOk result (λ v. v.items ≡ map (λ (p : ℕ × ℕ). p.0) self.now.tables.opens) }
    {
        self.opens.xids(alloc)
    }

    /// The least of a number and the open transactions. It takes no memory.
    pub fn least_open(&self, mark: Xid) -> Xid
        ensures { result ≡ least mark (map (λ (p : ℕ × ℕ). p.0) self.now.tables.opens) }
    {
        self.opens.least(mark)
    }

    /// Those in the aborted transaction map with their heads, in order of abort.
    pub fn aborted(&self, alloc: Global) -> Result<Vec<(Xid, u64)>, OutOfMemory>
        ensures { IfOk result (λ v. v.items ≡ self.now.tables.aborted) }
    {
        self.aborted.pairs(alloc)
    }

    /// One of those in the aborted transaction map with its heads, by its place in the order of abort, from 0; none behind the last. It takes
    /// no memory.
    pub fn aborted_at(&self, place: usize) -> Option<(Xid, u64)>
        ensures { result ≡ slice_get self.now.tables.aborted place }
    {
        self.aborted.at(place)
    }

    /// How a transaction stands, from 1 on.
    pub fn fate(&self, xid: Xid) -> Fate
        requires { 0 < xid }
        ensures { result ≡ fate_in xid self.now.tables }
    {
        if self.opens.has(xid) {
            return Fate::Open;
        }
        if self.aborted.has(xid) {
            return Fate::Aborted;
        }
        if xid < self.next {
            return Fate::Committed;
        }
        Fate::Later
    }

    /// How many rows have their newest version from a transaction that is open or aborted; 0 of any other.
    pub fn heads(&self, xid: Xid) -> u64
        ensures { result ≡ heads_of xid self.now.tables }
    {
        if self.opens.has(xid) {
            return self.opens.get(xid).unwrap_or(0);
        }
        self.aborted.get(xid).unwrap_or(0)
    }

    /// The items of the secondary log, in the order in which they were added.
    pub fn items(&self) -> &[SlogItem]
        ensures items { result.now ≡ self.now.tables.items }
        // Each is of a page or of an entry of the catalog that there may be.
        ensures fit { AllByRecursion ItemFits result.now }
    {
        &self.items
    }

    /// The latest item of a transaction, or none where it has no item: the first that a rollback undoes. The items are looked
    /// at once, from the last on.
    pub fn latest_item(&self, x: Xid) -> Option<SlogItem>
        // Of all items the transaction's are earlier ones, and this one behind them; or there are none.
        ensures latest { IfSome result (λ i. (earlier : List Item) × (filter (is_item_by x) self.now.tables.items ≡ earlier ++ i ∷ [])) }
        ensures none { result ≡ None → filter (is_item_by x) self.now.tables.items ≡ [] }
        // It is of a page or of an entry of the catalog that there may be.
        ensures fits { IfSome result ItemFits }
    {
        latest_by(x, &self.items)
    }

    /// Takes room for so many more transactions and items.
    pub fn reserve(&mut self, opens: usize, items: usize) -> Result<(), OutOfMemory>
        ensures same { self.new.tables ≡ self.old.tables }
        ensures kept { RoomLeft 0 0 self.old self.new }
        ensures opens { OnOk result (opens ≤ self.new.opens_room) }
        ensures items { OnOk result (items ≤ self.new.items_room) }
    {
        let Some(ends) = self.opens.len().checked_add(opens) else {
            return Err(OutOfMemory);
        };
        self.opens.reserve(opens)?;
        self.aborted.reserve(ends)?;
        self.items.reserve(items)?;
        Ok(())
    }

    fn begin(&mut self, x: Xid)
        requires next { self.old.tables.next ≡ x }
        requires room { 1 ≤ self.old.opens_room }
        requires fits { self.old.tables.next < 2 ^ 64 - 1 }
        ensures tables { self.new.tables ≡ opened_by x self.old.tables }
        ensures room { RoomLeft 1 0 self.old self.new }
    {
        self.opens.add(x, 0);
        self.next += 1;
    }

    fn commit(&mut self, x: Xid)
        ensures tables { self.new.tables ≡ committed x self.old.tables }
        ensures room { RoomLeft 0 0 self.old self.new }
    {
        self.opens.remove(x);
        settle(x, &mut self.items);
    }

    fn roll_back(&mut self, x: Xid)
        ensures tables { self.new.tables ≡ rolled_back x self.old.tables }
        ensures room { RoomLeft 0 0 self.old self.new }
    {
        let heads = self.opens.remove(x).unwrap_or(0);
        if heads > 0 {
            self.aborted.add(x, heads);
        }
    }

    fn forget(&mut self, x: Xid)
        ensures tables { self.new.tables ≡ forgotten_by x self.old.tables }
        ensures room { RoomLeft 0 0 self.old self.new }
    {
        self.aborted.remove(x);
    }

    fn add_item(&mut self, item: SlogItem)
        requires room { 1 ≤ self.old.items_room }
        requires fits { ItemFits item }
        ensures tables { self.new.tables ≡ with_item item self.old.tables }
        ensures room { RoomLeft 0 1 self.old self.new }
    {
        self.items.push_reserved(item);
    }

    fn take_item(&mut self, wanted: Wanted)
        ensures tables { self.new.tables ≡ without_item wanted self.old.tables }
        ensures room { RoomLeft 0 0 self.old self.new }
    {
        take_out(wanted, &mut self.items);
    }

    fn raise(&mut self, x: Xid)
        requires { heads_in x self.old.tables.opens < 2 ^ 64 - 1 }
        ensures tables { self.new.tables ≡ one_head_more x self.old.tables }
        ensures room { RoomLeft 0 0 self.old self.new }
    {
        let heads = self.opens.get(x).unwrap_or(0);
        self.opens.set(x, heads + 1);
    }

    fn lower_aborted(&mut self, x: Xid)
        ensures tables { self.new.tables ≡ one_aborted_less x self.old.tables }
        ensures room { RoomLeft 0 0 self.old self.new }
    {
        let heads = self.aborted.get(x).unwrap_or(0);
        self.aborted.set(x, heads.saturating_sub(1));
    }

    fn lower_open(&mut self, x: Xid)
        requires { is_in x self.old.tables.opens ≡ true }
        ensures tables { self.new.tables ≡ one_head_less x self.old.tables }
        ensures room { RoomLeft 0 0 self.old self.new }
    {
        let heads = self.opens.get(x).unwrap_or(0);
        self.opens.set(x, heads.saturating_sub(1));
    }

    fn lower(&mut self, x: Xid)
        ensures tables { self.new.tables ≡ one_head_less x self.old.tables }
        ensures room { RoomLeft 0 0 self.old self.new }
    {
        if x == 0 {
            return;
        }
        if self.opens.has(x) {
            return self.lower_open(x);
        }
        self.lower_aborted(x)
    }

    fn replace(&mut self, x: Xid, over: Xid)
        requires { heads_in x self.old.tables.opens < 2 ^ 64 - 1 }
        ensures tables { self.new.tables ≡ one_head_less over (one_head_more x self.old.tables) }
        ensures room { RoomLeft 0 0 self.old self.new }
    {
        self.raise(x);
        self.lower(over);
    }

    fn load(&mut self, next: Xid, lists: &[u8])
        requires members { HasMembers next lists.now }
        requires opens { length (opens_listed lists.now) + length (aborted_listed lists.now) ≤ self.old.opens_room }
        requires items { length (items_listed lists.now) ≤ self.old.items_room }
        ensures tables { self.new.tables ≡ listed next lists.now }
        ensures room { RoomLeft (length (opens_listed lists.now) + length (aborted_listed lists.now)) (length (items_listed lists.now)) self.old self.new }
    {
        self.opens.clear();
        self.aborted.clear();
        self.items.clear();
        let counts = counts_in(next, lists);
        let aborted_at = 16 + 16 * counts.opens;
        let items_at = aborted_at + 8 + 16 * counts.aborted;
        read_pairs(&mut self.opens, 8, counts.opens, lists);
        read_pairs(&mut self.aborted, aborted_at, counts.aborted, lists);
        read_items(&mut self.items, items_at, counts.items, lists);
        self.next = next;
    }

    /// Whether no number comes to its end by the record's effect: the next transaction by a Begin, the heads of
    /// the transaction by a Row.
    pub fn has_numbers(&self, rec: &Record) -> bool
        ensures { IsTrue result ↔ NumbersFit rec.now self.now.tables }
    {
        match rec {
            Record::Begin { .. } => self.next < u64::MAX,
            Record::Row { x, .. } => self.opens.get(*x).unwrap_or(0) < u64::MAX,
            _ => true,
        }
    }

    /// The record's effect on the tables. It takes no memory.
    pub fn apply(&mut self, rec: &Record)
        requires is_logged { IsLogged rec.now }
        requires may { MayApply rec.now self.old }
        ensures tables { self.new.tables ≡ effect rec.now self.old.tables }
        ensures room { RoomLeft (opens_added rec.now) (items_added rec.now) self.old self.new }
    {
        match rec {
            Record::Checkpoint { next, lists } => self.load(*next, lists.as_slice()),
            Record::Begin { x } => self.begin(*x),
            Record::Commit { x } => self.commit(*x),
            Record::Abort { x } => self.roll_back(*x),
            Record::Forget { x } => self.forget(*x),
            Record::Alloc { x, p, .. } => self.add_item(SlogItem::AllocOf(*x, *p)),
            Record::Format { .. } => {}
            Record::Link { x, p, .. } => self.take_item(Wanted::Allocation(*x, *p)),
            Record::Free { p, .. } => self.take_item(Wanted::OfPage(*p)),
            Record::Unlink { p, .. } => self.add_item(SlogItem::FreeOf(*p)),
            Record::Create { x, e, .. } => self.add_item(SlogItem::CreateOf(*x, *e)),
            Record::Uncreate { e, .. } => self.take_item(Wanted::Creation(*e)),
            Record::Drop { x, e, .. } => self.add_item(SlogItem::DropOf(*x, *e)),
            Record::Undrop { e, .. } => self.take_item(Wanted::Dropping(*e)),
            Record::Row { x, over, .. } => self.replace(*x, *over),
            Record::Keep { .. } => {}
            Record::Revert { x, .. } => self.lower_aborted(*x),
            Record::Trim { .. } => {}
        }
    }

    fn open_need(&self, x: Xid) -> Result<(), BadRecord>
        ensures { result ≡ open_need x self.now.tables }
    {
        there(self.opens.has(x))
    }

    fn item_need(&self, wanted: Wanted) -> Result<(), BadRecord>
        ensures { result ≡ item_need wanted self.now.tables }
    {
        there(has_wanted(wanted, &self.items))
    }

    fn commit_needs(&self, x: Xid) -> Result<(), BadRecord>
        ensures { result ≡ commit_needs x self.now.tables }
    {
        self.open_need(x)?;
        expect(0, allocs_by(x, &self.items) as u64)
    }

    fn abort_needs(&self, x: Xid) -> Result<(), BadRecord>
        ensures { result ≡ abort_needs x self.now.tables }
    {
        self.open_need(x)?;
        expect(0, items_by(x, &self.items) as u64)
    }

    fn forget_need(&self, x: Xid) -> Result<(), BadRecord>
        ensures { result ≡ forget_need x self.now.tables }
    {
        there(self.aborted.get(x) == Some(0))
    }

    fn row_needs(&self, x: Xid, over: Xid) -> Result<(), BadRecord>
        ensures { result ≡ row_needs x over self.now.tables }
    {
        if !self.opens.has(x) {
            return there(false);
        }
        there(self.keeps_head(x, over))
    }

    // What is replaced has a head to lose, once the row counts for an open transaction.
    fn keeps_head(&self, x: Xid, over: Xid) -> bool
        requires { is_in x self.now.tables.opens ≡ true }
        ensures { result ≡ head_there over (one_head_more x self.now.tables) }
    {
        if over == 0 {
            return true;
        }
        if over == x {
            return true;
        }
        self.heads(over) > 0
    }

    fn revert_need(&self, x: Xid) -> Result<(), BadRecord>
        ensures { result ≡ revert_need x self.now.tables }
    {
        there(self.aborted.get(x).unwrap_or(0) > 0)
    }

    /// What the record's effect needs, or the first need that isn't met, with what is wanted and what is
    /// there.
    pub fn check(&self, rec: &Record) -> Result<(), BadRecord>
        requires { IsLogged rec.now }
        ensures { result ≡ needs rec.now self.now.tables }
    {
        match rec {
            Record::Checkpoint { .. } => Ok(()),
            Record::Begin { x } => expect(self.next, *x),
            Record::Commit { x } => self.commit_needs(*x),
            Record::Abort { x } => self.abort_needs(*x),
            Record::Forget { x } => self.forget_need(*x),
            Record::Alloc { x, .. } => self.open_need(*x),
            Record::Format { x, p, .. } => self.item_need(Wanted::Allocation(*x, *p)),
            Record::Link { x, p, .. } => self.item_need(Wanted::Allocation(*x, *p)),
            Record::Free { p, .. } => self.item_need(Wanted::OfPage(*p)),
            Record::Unlink { .. } => Ok(()),
            Record::Create { x, .. } => self.open_need(*x),
            Record::Uncreate { e, .. } => self.item_need(Wanted::Creation(*e)),
            Record::Drop { x, .. } => self.open_need(*x),
            Record::Undrop { e, .. } => self.item_need(Wanted::Dropping(*e)),
            Record::Row { x, over, .. } => self.row_needs(*x, *over),
            Record::Keep { x, .. } => self.open_need(*x),
            Record::Revert { x, .. } => self.revert_need(*x),
            Record::Trim { .. } => Ok(()),
        }
    }

    /// Whether the record's needs are met.
    pub fn fits(&self, rec: &Record) -> bool
        requires { IsLogged rec.now }
        ensures { IsTrue result ↔ (needs rec.now self.now.tables ≡ Ok tt) }
    {
        self.check(rec).is_ok()
    }
}
