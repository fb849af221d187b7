// The store: pages and tables are the fold of the log, at every moment.
ghost use Rattle.std.specs.Prelude.{◌≡◌, ◌≤◌, ◌<◌, ◌+◌, ◌-◌, ◌^◌, ◌↔◌, nat_lt, IsTrue, true, false, [], ◌∷◌, Ok, Err, length, IfOk, IfErr, OnOk, OnErr, IfSome};
ghost use Rattle.ctr_types.specs.Faults.{HasFault};
ghost use Rattle.ctr_disk.specs.declared.fault.StoreFault.TheVariants.{Fault};
ghost use Rattle.ctr_base.specs.meta_Kept.{RoomLeft};
ghost use Rattle.ctr_base.specs.Base.{WhereSound};
ghost use Rattle.std.specs.Borrow.{sem};
ghost use Rattle.std.specs.Io.BufRead.{Rests};
ghost use Rattle.ctr_disk.specs.Device.{WhereTold, LeavesOnly, CountsAs};
ghost use Rattle.ctr_base.specs.redo_States.{page_limit, page_at};
ghost use Rattle.ctr_store.specs.Opening.{LeavesFirst, IsUndamaged, opening_told};
ghost use Rattle.ctr_base.specs.log_OpenError.TheVariants.{Fault as OpenFault};
ghost use Rattle.ctr_base.specs.declared.growing.TheConstants.{MOST_PAGES};
ghost use Rattle.ctr_store.specs.declared.opening.TheConstants.{BUFFER_BYTES};
ghost use Rattle.ctr_store.specs.declared.store.TheConstants.{TURN_BYTES};
ghost use Rattle.ctr_store.specs.Numbers.{NumbersAt};
ghost use Rattle.ctr_store.specs.Parts.{MayCount};
ghost use Rattle.ctr_store.specs.Store.{MovesOn, waiting_bytes, HasTurnRoom, turns_for_room, KeepsFrames, WritesHome, LeavesFront, LeavesPage, Logs, MayLog, unmet_need, RefusesUnfit, TakesRecord, LeavesGrowing, GrowsByExtent, CountsUp, page_home};
ghost use Rattle.ctr_rec.specs.declared.decoding.BadRecord.{BadRecord as Bad};
ghost use Rattle.ctr_store.specs.declared.store.Generation.TheVariants.{Begun};
ghost use Rattle.ctr_store.specs.Checkpoints.{checkpoint_need};
ghost use Rattle.ctr_store.specs.Generations.{IsDue, MayBegin, AnswersBegin, ShowsSame, AddsCheckpoint, RefusesCheckpoint, CanEnd, AnswersEnd, NamesCurrent};
ghost use Rattle.ctr_store.specs.StoreOpening.{AnswersStore, IsOpened, store_left};
ghost use Rattle.ctr_directory.specs.Chains.{Knows, KnowsFull};
ghost use Rattle.ctr_directory.specs.page_Places.{bucket_of as bucket_by};

use crate::checkpoint::{FIRST_PLACE, Unmade, file_behind, spell_checkpoint};
use crate::opening::BUFFER_BYTES;
use crate::parts::Parts;
use crate::seen::damage_at;
use ctr_base::{Lsn, Meta, OpenError, Origin};
use ctr_directory::{Directory, Place, growth_keeps_all};
use ctr_disk::{Disk, StoreFault};
use ctr_rec::{PageNo, Record};
use ctr_types::OutOfMemory;
use std::alloc::Global;
use std::marker::Model;

/// For how many bytes of records there is room when a turn begins.
pub const TURN_BYTES: usize = 5000;

/// How many frames have nothing to be written home when a turn begins.
pub const TURN_FRAMES: usize = 2;

/// How many records a generation of the log has when a new one is due.
pub const DUE_RECORDS: u64 = 1000;

/// What the begin of a generation answers: it begun, or memory was refused.
#[derive(Clone, Copy, Debug, PartialEq, Eq)]
pub enum Generation {
    Begun,
    OutOfMemory,
}

/// The pages and the tables of a database, over its log and its homes.
#[derive(Drop)]
pub struct Store<D: Disk, O: Origin> {
    parts: Parts<D, O>,
    // a call was answered an error
    stopped: bool,
    // where the keys of tables stand, as it is remembered of pages that were read
    directory: Directory,
}

impl<D: Disk, O: Origin> Model for Store<D, O> {
    ghost use Rattle.ctr_store.specs.Store.{View};

    ghost Value = { View D };

    ghost use Rattle.ctr_store.specs.StoreInside.{view_in, IsStore};

    ghost view = { view_in D.Disk };

    ghost invariant = { IsStore O.first D.Disk };
}

impl<D: Disk, O: Origin> Store<D, O> {
    ghost use Rattle.ctr_store.specs.contracts.store.Store.{the_row as store-row};

    /// Opens the database of a disk, over so many frames, 8 to 4,096. It begins with a sync, and logs nothing: pages may go
    /// home that the log's records are on. A refusal gives the disk back.
    pub fn open(alloc: Global, disk: D, frames: usize) -> Result<Store<D, O>, (OpenError, D)>
        requires named { O.first ≡ D.reads disk }
        requires frames { (8 ≤ frames) × (frames ≤ 4096) }
        ensures answer { WhereTold D.Disk (AnswersStore O.first result) }
        // A sound image is refused as worn by its number, for a fault or for want of memory, and for nothing else.
        ensures undamaged { WhereSound O.first D.Disk (IfErr result (λ e. IsUndamaged e.0)) }
        ensures fresh { IfOk result IsOpened }
        // What a crash leaves behind it is all that was opened.
        ensures durable { WhereSound O.first D.Disk (IfOk result (λ v. LeavesFront D.Disk v v)) }
        ensures any_moment { WhereSound O.first D.Disk (LeavesOnly D.Disk disk (store_left result) (LeavesFirst O.first (D.images disk))) }
        // It says that the disk failed only where a call of it did, and no call went past the last place of a file.
        ensures counts { CountsAs D.Disk OpenFault disk (store_left result) (opening_told result) }
    {
        match Parts::<D, O>::open(alloc, disk, frames) {
            Ok(parts) => Ok(Store {
                parts,
                stopped: false,
                directory: Directory::new(alloc),
            }),
            Err(error) => Err(error),
        }
    }

    /// The bytes of a page, with all records.
    pub fn page(&mut self, page: PageNo) -> Result<&[u8], StoreFault>
        requires { self.old.stopped ≡ false }
        ensures shown { WhereSound O.first D.Disk (page < page_limit → IfOk result (λ b. b.now ≡ page_at page self.old.now.pages)) }
        ensures whole { IfOk result (λ b. length b.now ≡ 4096) }
        ensures* after { sem 𝓛 (Rests (store-row D.row O.row D.Disk O.Origin) self.entry (λ new. LeavesPage O.first D.Disk self.old new result)) }
    {
        match self.parts.bring(page) {
            Ok(()) => {}
            Err(fault) => {
                self.stopped = true;
                return Err(fault);
            }
        }
        Ok(self.parts.bytes(page))
    }

    /// So many keys of rows are remembered from now on at most, by which a row is found without a search. What is too much is
    /// forgotten, the bucket that was used longest ago first.
    pub fn allow_keys(&mut self, most: usize)
        ensures { self.new ≡ self.old }
    {
        self.directory.allow(most);
    }

    /// Reads one page more of those by which all slots of a table's bucket are remembered: the page of the catalog that has the table's
    /// entry, or the next one of the bucket's chain. It answers false where none is left, or where they can't be remembered.
    pub fn read_on(&mut self, entry: u8, bucket: u8) -> Result<bool, StoreFault>
        requires going { self.old.stopped ≡ false }
        requires there { (entry < 32) × (bucket < 8) }
        ensures leaves { LeavesPage O.first D.Disk self.old self.new result }
    {
        let Some(page) = self.directory.wanted(entry, bucket) else {
            self.directory.used(entry, bucket);
            return Ok(false);
        };
        match self.parts.bring(page) {
            Ok(()) => {}
            Err(fault) => {
                self.stopped = true;
                return Err(fault);
            }
        }
        let counted = self.parts.base.root.pages;
        let bytes = self.parts.bytes(page);
        self.directory.read(entry, bucket, page, counted, bytes);
        Ok(self.directory.knows(entry, bucket))
    }

    /// The place of a key of a table, or that no slot of its bucket has it, where all pages of that are remembered.
    pub fn recall(&self, entry: u8, key: i64) -> Option<Option<Place>>
        requires { entry < 32 }
        ensures knows { WhereSound O.first D.Disk (self.now.stopped ≡ false → IfSome result (Knows self.now.now.counted (λ p. page_at p self.now.now.pages) entry (bucket_by key) key)) }
        ensures inside { IfSome result (λ found. IfSome found (λ at. at.page < self.now.now.counted)) }
    {
        let found = self.directory.find(entry, key)?;
        if let Some(at) = found {
            if at.page >= self.parts.base.root.pages {
                return None;
            }
        }
        Some(found)
    }

    /// Whether no slot of a table's bucket is free, where all pages of that are remembered; false where they aren't.
    pub fn recalls_full(&self, entry: u8, bucket: u8) -> bool
        requires { (entry < 32) × (bucket < 8) }
        ensures { WhereSound O.first D.Disk (self.now.stopped ≡ false → result ≡ true → KnowsFull self.now.now.counted (λ p. page_at p self.now.now.pages) entry bucket) }
    {
        self.directory.is_full(entry, bucket)
    }

    /// Where the home begins in the file of pages whose value a page is. It is the first home where none is open, where the page
    /// isn't counted, and where it was changed since it was written home. 13 bytes of a home stand before those of the page.
    pub fn home_of(&mut self, page: PageNo) -> Result<u64, StoreFault>
        requires { self.old.stopped ≡ false }
        ensures place { WhereTold D.Disk (IfOk result (λ at. at ≡ page_home D.Disk page self.new)) }
        ensures low { IfOk result (λ at. at < 2 ^ 46) }
        ensures leaves { LeavesPage O.first D.Disk self.old self.new result }
    {
        let home = self.parts.place_of(page);
        self.stopped = home.is_err();
        home
    }

    /// The number of the next record.
    pub fn next(&self) -> Lsn
        ensures { result ≡ self.now.next }
    {
        self.parts.base.next()
    }

    /// How many pages are counted.
    pub fn counted(&self) -> u32
        ensures { result ≡ self.now.now.counted }
    {
        self.parts.base.root.pages
    }

    /// A store counts 64 to 30,000 pages, at each moment. The call does nothing: what it ensures holds of each store.
    pub fn counts_pages(&self)
        ensures { MayCount self.now.now.counted }
    {
        let _ = &self.parts;
    }

    /// Between two calls a crash leaves what is hardened, with a prefix of what waits, where no call was answered an error. The
    /// call does nothing: what it ensures holds of each store.
    pub fn rests(&self)
        ensures { WhereSound O.first D.Disk (self.now.stopped ≡ false → LeavesFront D.Disk self.now self.now) }
    {
        let _ = &self.parts;
    }

    /// The next transaction is at most 2^62 beyond the next LSN, and the heads of an open one are 2^63, so no number comes to its
    /// end by a record. The call does nothing: what it ensures holds of each store.
    pub fn bounds_numbers(&self)
        ensures { NumbersAt self.now.next self.now.meta.tables }
    {
        let _ = &self.parts;
    }

    /// Whether there is room for a turn: two frames that have nothing to be written home, and 5,000 bytes of records.
    pub fn room(&self) -> bool
        ensures told { IsTrue result ↔ HasTurnRoom self.now }
        // What waits takes a part of the log's buffer, of 65,536 bytes, and the rest is room.
        ensures buffer { waiting_bytes self.now.waiting + self.now.room ≡ BUFFER_BYTES }
    {
        self.parts.pool.unchanged() >= TURN_FRAMES && !self.is_short()
    }

    /// Whether no record waits: all that was logged is durable.
    pub fn is_hardened(&self) -> bool
        ensures yes { result ≡ true → self.now.waiting ≡ [] }
        ensures no { self.now.waiting ≡ [] → result ≡ true }
    {
        self.parts.base.log.bytes_waiting() == 0
    }

    /// The disk's moment.
    pub fn moment(&self) -> u64
        ensures { result ≡ D.moment_of self.now.disk }
    {
        self.parts.base.disk.moment()
    }

    // Whether the log's buffer has less room than a turn needs.
    fn is_short(&self) -> bool
        ensures short { result ≡ nat_lt self.now.room TURN_BYTES }
        ensures buffer { waiting_bytes self.now.waiting + self.now.room ≡ BUFFER_BYTES }
    {
        BUFFER_BYTES - self.parts.base.log.bytes_waiting() < TURN_BYTES
    }

    /// A turn for room: makes what waits durable where the log's buffer has less than 5,000 bytes left, or else writes the
    /// page home that is changed the longest. There is room after at most three.
    pub fn make_room(&mut self) -> Result<(), StoreFault>
        requires { self.old.stopped ≡ false }
        ensures nearer { OnOk result (turns_for_room self.new ≡ turns_for_room self.old - 1) }
        ensures leaves { LeavesPage O.first D.Disk self.old self.new result }
    {
        if self.is_short() {
            return self.harden();
        }
        match self.write_one_dirty() {
            Ok(_) => Ok(()),
            Err(fault) => Err(fault),
        }
    }

    /// Takes room for so many more transactions and items.
    pub fn reserve(&mut self, opens: usize, items: usize) -> Result<(), OutOfMemory>
        ensures same { self.new ≡ record self.old { meta = self.new.meta } }
        ensures tables { self.new.meta.tables ≡ self.old.meta.tables }
        ensures kept { RoomLeft 0 0 self.old.meta self.new.meta }
        ensures opens { OnOk result (opens ≤ self.new.meta.opens_room) }
        ensures items { OnOk result (items ≤ self.new.meta.items_room) }
    {
        self.parts.meta.reserve(opens, items)
    }

    /// Adds a record, and answers its number. It isn't hardened yet. A record that doesn't fit the tables is damage, by the
    /// row that it fails, at the place in the log where it would stand; nothing is logged then, and nothing has changed.
    pub fn log(&mut self, rec: &Record) -> Result<Lsn, StoreFault>
        requires may { MayLog rec.now self.old }
        ensures takes { IfOk result (λ lsn. TakesRecord rec.now lsn self.old self.new) }
        ensures untaken { OnErr result (self.new.gate ≡ self.old.gate) }
        ensures any_moment { WhereSound O.first D.Disk (LeavesFront D.Disk self.old self.new) }
        ensures logs { WhereSound O.first D.Disk (OnOk result (Logs (rec.now ∷ []) self.old self.new)) }
        ensures unfit { RefusesUnfit rec.now self.old self.new result }
        ensures stopped { (OnOk result (self.new.stopped ≡ false)) × (unmet_need rec.now self.old ≡ Ok tt → OnErr result (self.new.stopped ≡ true)) }
        ensures refused { WhereSound O.first D.Disk (unmet_need rec.now self.old ≡ Ok tt → OnErr result (result ≡ Err Fault)) }
        ensures counts { MovesOn D.Disk self.old self.new × HasFault Fault (D.faults_of self.old.disk) (D.faults_of self.new.disk) result }
    {
        match self.parts.check_fits(rec) {
            Ok(()) => {}
            Err(fault) => return Err(fault),
        }
        let logged = self.parts.log(rec, &mut self.directory);
        self.stopped = logged.is_err();
        logged
    }

    /// Makes all records durable. What waited gives the log's buffer back, of 65,536 bytes; the frames stay as they are.
    pub fn harden(&mut self) -> Result<(), StoreFault>
        requires { self.old.stopped ≡ false }
        ensures none { OnOk result ((self.new.waiting ≡ []) × (self.new.room ≡ BUFFER_BYTES)) }
        ensures frames { KeepsFrames self.old self.new }
        // What a crash leaves behind it is all.
        ensures durable { WhereSound O.first D.Disk (OnOk result (LeavesFront D.Disk self.new self.new)) }
        ensures leaves { LeavesPage O.first D.Disk self.old self.new result }
        ensures refused { OnErr result (result ≡ Err Fault) }
    {
        let hardened = self.parts.harden();
        self.stopped = hardened.is_err();
        hardened
    }

    /// Writes the page home that is changed the longest, or answers false, exactly where none is changed.
    pub fn write_one_dirty(&mut self) -> Result<bool, StoreFault>
        requires { self.old.stopped ≡ false }
        ensures wrote { IfOk result (λ wrote. wrote ≡ self.old.dirty) }
        ensures home { IfOk result (WritesHome self.old self.new) }
        ensures leaves { LeavesPage O.first D.Disk self.old self.new result }
    {
        let wrote = self.parts.write_one_dirty();
        self.stopped = wrote.is_err();
        wrote
    }

    /// Counts 64 pages more, or as many as there may be, 30,000; they have nothing. A crash at any moment leaves the old
    /// count or the new one.
    pub fn grow_extent(&mut self) -> Result<(), StoreFault>
        requires going { self.old.stopped ≡ false }
        requires few { self.old.now.counted < MOST_PAGES }
        ensures any_moment { WhereSound O.first D.Disk (LeavesGrowing D.Disk self.old self.new) }
        ensures grows { WhereSound O.first D.Disk (OnOk result (GrowsByExtent D.Disk self.old self.new)) }
        ensures counts { CountsUp D.Disk self.old self.new result }
        ensures refused { OnErr result (result ≡ Err Fault) }
        ensures faults { HasFault Fault (D.faults_of self.old.disk) (D.faults_of self.new.disk) result }
    {
        growth_keeps_all();
        let counted = self.parts.grow();
        self.stopped = counted.is_err();
        counted
    }

    /// Whether an older generation of the log is kept, in the other file.
    pub fn keeps_older(&self) -> bool
        ensures { result ≡ self.now.older }
    {
        self.parts.base.log.keeps_older()
    }

    /// Whether a new generation of the log is due: the current one has 1,000 records, and no older one is kept.
    pub fn due(&self) -> bool
        ensures { IsTrue result ↔ IsDue self.now }
    {
        let log = &self.parts.base.log;
        !log.keeps_older() && self.parts.base.next().saturating_sub(log.start()) >= DUE_RECORDS
    }

    /// Begins a generation of the log in the other file, with a Checkpoint of the tables. Pages and tables are as before, and
    /// a crash at any moment leaves them, whichever of both generations it finds. Where memory is refused nothing has changed.
    pub fn begin_checkpoint(&mut self, alloc: Global) -> Result<Generation, StoreFault>
        requires { MayBegin self.old }
        ensures begins { AnswersBegin self.old self.new result }
        ensures any_moment { WhereSound O.first D.Disk (LeavesFront D.Disk self.old self.new) }
        ensures shows { WhereSound O.first D.Disk (OnOk result (ShowsSame D.Disk self.old self.new)) }
        ensures adds { WhereSound O.first D.Disk (result ≡ Ok Begun → AddsCheckpoint D.Disk self.old self.new) }
        // A transaction with more than 2^62 heads is damage, by its row of a Checkpoint; nothing has changed then.
        ensures unfit { (bad : Bad) → checkpoint_need self.old.meta.tables ≡ Err bad → RefusesCheckpoint bad self.old self.new result }
        ensures stopped { OnOk result (self.new.stopped ≡ false) × (checkpoint_need self.old.meta.tables ≡ Ok tt → OnErr result (self.new.stopped ≡ true)) }
        ensures refused { checkpoint_need self.old.meta.tables ≡ Ok tt → OnErr result (result ≡ Err Fault) }
        ensures counts { CountsAs D.Disk Fault self.old.disk self.new.disk result }
    {
        let bytes = match spell_checkpoint(alloc, &self.parts.meta) {
            Ok(bytes) => bytes,
            Err(Unmade::OutOfMemory) => return Ok(Generation::OutOfMemory),
            Err(Unmade::Unfit(bad)) => {
                let file = file_behind(self.parts.base.log.file());
                return Err(damage_at(file, FIRST_PLACE, bad));
            }
        };
        match self.parts.base.log.reserve(8 + bytes.len()) {
            Ok(()) => {}
            Err(_) => return Ok(Generation::OutOfMemory),
        }
        let begun = self.parts.begin_generation(&bytes);
        self.stopped = begun.is_err();
        match begun {
            Ok(()) => Ok(Generation::Begun),
            Err(fault) => Err(fault),
        }
    }

    /// Drops the older generation of the log, exactly where one is kept and no page has been changed since before the current
    /// one that isn't home, whatever transactions are open. Pages and tables are as before, and a crash at any moment leaves
    /// them, whether the older one is kept or not. The root is written once, and the older one is never read again.
    pub fn end_checkpoint(&mut self) -> Result<bool, StoreFault>
        requires { self.old.stopped ≡ false }
        ensures dropped { IfOk result (λ dropped. IsTrue dropped ↔ CanEnd self.old) }
        ensures ends { AnswersEnd self.old self.new result }
        ensures any_moment { WhereSound O.first D.Disk (LeavesFront D.Disk self.old self.new) }
        ensures shows { WhereSound O.first D.Disk (OnOk result (ShowsSame D.Disk self.old self.new)) }
        ensures names { WhereSound O.first D.Disk (result ≡ Ok true → NamesCurrent D.Disk self.old self.new) }
        ensures stopped { OnOk result (self.new.stopped ≡ false) × OnErr result (self.new.stopped ≡ true) }
        ensures refused { OnErr result (result ≡ Err Fault) }
        ensures counts { CountsAs D.Disk Fault self.old.disk self.new.disk result }
    {
        if !self.parts.can_drop() {
            return Ok(false);
        }
        let dropped = self.parts.drop_older();
        self.stopped = dropped.is_err();
        match dropped {
            Ok(()) => Ok(true),
            Err(fault) => Err(fault),
        }
    }

    /// The tables of transactions.
    pub fn meta(&self) -> &Meta
        ensures tables { result.now ≡ self.now.meta }
        // They are those of all records.
        ensures now { WhereSound O.first D.Disk (self.now.stopped ≡ false → self.now.meta.tables ≡ self.now.now.tables) }
    {
        &self.parts.meta
    }

    /// The disk. What isn't hardened is lost.
    pub fn into_disk(self) -> D
        ensures { result ≡ self.disk }
    {
        let Store {
            parts,
            stopped: _,
            directory: _,
        } = self;
        parts.into_disk()
    }
}
