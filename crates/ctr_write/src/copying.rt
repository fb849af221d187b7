// A slot that is copied off its page, as its page may go while a record is logged.
ghost use Rattle.std.specs.Prelude.{◌≡◌, ◌≤◌, ◌<◌, ℕ, false, IfOk, IfErr, IfSome, length};
ghost use Rattle.ctr_disk.specs.declared.fault.StoreFault.TheVariants.{Fault};
ghost use Rattle.std.specs.Option.{option_map};
ghost use Rattle.ctr_base.specs.Base.{WhereSound};
ghost use Rattle.ctr_page.specs.Making.{IsSlot};
ghost use Rattle.ctr_area.specs.Reading.{slot_said, columns_on, area_of};
ghost use Rattle.ctr_extend.specs.passed_Logged.{IsSlotOf};
ghost use Rattle.ctr_area.specs.Chains.{slot_places};
ghost use Rattle.ctr_area.specs.Sound.{IsAmong};
ghost use Rattle.ctr_extend.specs.record_effects_States.{pages_in, area_in};
ghost use Rattle.ctr_extend.specs.record_effects_Standing.{IsDatabaseState};
ghost use Rattle.ctr_extend.specs.walk_Damage.{ReadsPages};
ghost use Rattle.ctr_extend.specs.pvs_Slots.{part_lent, slot_lent, SlotLiesAt};
ghost use Rattle.ctr_extend.specs.heap_Writing.{slot_width};
ghost use Rattle.ctr_write.specs.Copies.{version_copied, slot_copied, VersionFits, CopyFits};

use ctr_base::Origin;
use ctr_disk::{Disk, StoreFault};
use ctr_extend::{LentPart, LentSlot, Store, a_row_is_read_without_damage, row};
use ctr_page::{Place, RowSlot, Tombstone, Use, Version};
use ctr_rec::Bytes;
use ctr_types::Xid;

/// The most bytes of a payload.
const WIDEST: usize = 2_048;

/// A version that was copied off its page.
#[derive(Drop)]
pub(crate) struct VersionCopy {
    pub(crate) xid: Xid,
    /// 1 where the row is deleted, else 0.
    pub(crate) tombstone: u8,
    /// How many bytes the payload has.
    pub(crate) width: usize,
    /// The payload, at the front of others.
    pub(crate) bytes: [u8; WIDEST],
}

/// A slot that was copied off its page.
#[derive(Drop)]
pub(crate) struct SlotCopy {
    /// 1 where it is used, 0 where it is free.
    pub(crate) used: u8,
    pub(crate) key: i64,
    /// The newest version.
    pub(crate) head: VersionCopy,
    /// The one before it, where there is one and the slot has room for it.
    pub(crate) previous: Option<VersionCopy>,
    /// Where the next older version is kept.
    pub(crate) older: Place,
}

impl VersionCopy {
    // The same as versions are made and read.
    fn version(&self) -> Version<'_>
        requires fits { VersionFits self.now }
        ensures { result ≡ version_copied self.now }
    {
        Version {
            xid: self.xid,
            tombstone: Tombstone::from_byte(self.tombstone),
            payload: Bytes::new(&self.bytes[..self.width]),
        }
    }
}

// A version that may be there, as versions are made and read.
fn version_of(copy: &Option<VersionCopy>) -> Option<Version<'_>>
    requires fits { IfSome copy.now VersionFits }
    ensures { result ≡ option_map version_copied copy.now }
{
    match copy {
        None => None,
        Some(copy) => Some(copy.version()),
    }
}

impl SlotCopy {
    /// The same as slots are made and read.
    pub(crate) fn slot(&self) -> RowSlot<'_>
        requires fits { CopyFits self.now }
        ensures { result ≡ slot_copied self.now }
    {
        RowSlot {
            used: Use::from_byte(self.used),
            key: self.key,
            head: self.head.version(),
            previous: version_of(&self.previous),
            older: self.older,
        }
    }
}

// A version that is lent, copied.
fn copy_version(part: &LentPart) -> VersionCopy
    requires narrow { length part.now.payload.now ≤ 2048 }
    ensures same { version_copied result ≡ part_lent part.now }
    ensures fits { VersionFits result }
{
    let width = part.payload.len();
    let mut bytes = [0; WIDEST];
    bytes[..width].copy_from_slice(part.payload);
    VersionCopy {
        xid: part.xid,
        tombstone: part.tombstone,
        width,
        bytes,
    }
}

// One that may be there, copied.
fn copy_previous(part: &Option<LentPart>) -> Option<VersionCopy>
    requires narrow { IfSome part.now (λ l. length l.payload.now ≤ 2048) }
    ensures same { option_map version_copied result ≡ option_map part_lent part.now }
    ensures fits { IfSome result VersionFits }
{
    match part {
        None => None,
        Some(part) => Some(copy_version(part)),
    }
}

/// A slot that is lent, copied.
pub(crate) fn copy_slot(lent: &LentSlot) -> SlotCopy
    requires narrow { length lent.now.head.payload.now ≤ 2048 }
    requires same_width { IsSlot (length lent.now.head.payload.now) (slot_lent lent.now) }
    ensures same { slot_copied result ≡ slot_lent lent.now }
    ensures fits { CopyFits result }
{
    SlotCopy {
        used: lent.used,
        key: lent.key,
        head: copy_version(&lent.head),
        previous: copy_previous(&lent.previous),
        older: lent.older,
    }
}

/// The slot at a place, copied off its page: its page, the table's entry of the catalog and the slot itself are checked as they are read. It
/// logs nothing, and takes no memory.
pub(crate) fn read_row<D: Disk, O: Origin>(
    store: &mut Store<D, O>,
    place: Place,
) -> Result<SlotCopy, StoreFault>
    requires going { store.old.stopped ≡ false }
    requires counted { place.page < store.old.now.counted }
    // It is the slot that the pages have at the place.
    ensures finds { WhereSound O.first D.Disk (IfOk result (λ c. slot_said (columns_on (pages_in store.old.now) place.page) (slot_copied c) ≡ (area_of (pages_in store.old.now)).slot place)) }
    // It can be made, and a slot of rows so wide lies on a page at the place.
    ensures fits { IfOk result (λ c. CopyFits c × IsSlot (slot_width (slot_copied c)) (slot_copied c) × SlotLiesAt place (slot_width (slot_copied c))) }
    // It is well made by the columns of the table.
    ensures made { WhereSound O.first D.Disk (IfOk result (λ c. IsSlotOf store.old.now.counted (columns_on (pages_in store.old.now) place.page) (slot_copied c))) }
    ensures leaves { ReadsPages O.first D.Disk store.old store.new result }
    // Of a slot of a table no damage is told where the pages may be a database's.
    ensures refused { (e : ℕ) → WhereSound O.first D.Disk (IsDatabaseState store.old.now → IsAmong place (slot_places (area_in store.old.now) e) → IfErr result (λ f. f ≡ Fault)) }
{
    a_row_is_read_without_damage();
    match row(store, place) {
        Err(fault) => Err(fault),
        Ok(lent) => Ok(copy_slot(&lent)),
    }
}
