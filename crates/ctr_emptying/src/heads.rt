// Whether the heads on a page of rows are all committed.
ghost use Rattle.std.specs.Prelude.{◌≡◌, ◌<◌, ℕ, false, IfOk, IfErr, List};
ghost use Rattle.ctr_types.specs.declared.value.Column.{Column};
ghost use Rattle.ctr_disk.specs.declared.fault.StoreFault.TheVariants.{Fault};
ghost use Rattle.ctr_pvs.specs.base_Base.{WhereSound};
ghost use Rattle.ctr_page.specs.declared.checks.Chain.{Chain as ChainOf};
ghost use Rattle.ctr_area.specs.Chains.{slot_places};
ghost use Rattle.ctr_area.specs.Images.{is_committed_in};
ghost use Rattle.ctr_area.specs.Reading.{slot_said};
ghost use Rattle.ctr_area.specs.Sound.{IsAmong};
ghost use Rattle.ctr_pvs.specs.record_effects_States.{area_in};
ghost use Rattle.ctr_pvs.specs.record_effects_Standing.{IsDatabaseState};
ghost use Rattle.ctr_pvs.specs.walk_Damage.{ReadsPages};
ghost use Rattle.ctr_pvs.specs.Slots.{slot_lent};
ghost use Rattle.ctr_cursor.specs.reading_Gathering.{IsBucketPage};
ghost use Rattle.ctr_emptying.specs.Looking.{HeadSaid, is_settled, SettledSaid};

use ctr_cursor::slots_on;
use ctr_disk::{Disk, StoreFault};
use ctr_meta::Meta;
use ctr_page::Place;
use ctr_pvs::{LentSlot, Origin, Store, row};
use ctr_rec::PageNo;
use ctr_types::{Fate, Xid};

/// Whether a transaction is committed; 0 is nobody's number.
fn is_committed(meta: &Meta, x: Xid) -> bool
    ensures { result ≡ is_committed_in meta.now.tables x }
{
    x != 0 && meta.fate(x) == Fate::Committed
}

/// Whose the head of a slot is, where it is used.
fn head_of(slot: &LentSlot) -> Option<Xid>
    ensures { (columns : List Column) → HeadSaid (slot_said columns (slot_lent slot.now)) result }
{
    if slot.used == 1 {
        Some(slot.head.xid)
    } else {
        None
    }
}

/// The same of the slot at a place.
fn head_at<D: Disk, O: Origin>(
    store: &mut Store<D, O>,
    place: Place,
) -> Result<Option<Xid>, StoreFault>
    requires going { store.old.stopped ≡ false }
    requires counted { place.page < store.old.now.counted }
    ensures tells { WhereSound O.first D.Disk (IfOk result (HeadSaid ((area_in store.old.now).slot place))) }
    ensures leaves { ReadsPages O.first D.Disk store.old store.new result }
    ensures refused { (e : ℕ) → WhereSound O.first D.Disk (IsDatabaseState store.old.now → IsAmong place (slot_places (area_in store.old.now) e) → IfErr result (λ f. f ≡ Fault)) }
{
    match row(store, place) {
        Err(fault) => Err(fault),
        Ok(lent) => Ok(head_of(&lent)),
    }
}

/// Whether the slot at a place is free, or its head is committed.
fn is_settled_at<D: Disk, O: Origin>(
    store: &mut Store<D, O>,
    place: Place,
) -> Result<bool, StoreFault>
    requires going { store.old.stopped ≡ false }
    requires counted { place.page < store.old.now.counted }
    ensures tells { WhereSound O.first D.Disk (IfOk result (λ is. is ≡ is_settled store.old.now.tables ((area_in store.old.now).slot place))) }
    ensures leaves { ReadsPages O.first D.Disk store.old store.new result }
    ensures refused { (e : ℕ) → WhereSound O.first D.Disk (IsDatabaseState store.old.now → IsAmong place (slot_places (area_in store.old.now) e) → IfErr result (λ f. f ≡ Fault)) }
{
    match head_at(store, place) {
        Err(fault) => Err(fault),
        Ok(None) => Ok(true),
        Ok(Some(x)) => Ok(is_committed(store.meta(), x)),
    }
}

/// Whether all slots of a page of rows are so. Each is read by itself.
pub(crate) fn is_settled_page<D: Disk, O: Origin>(
    store: &mut Store<D, O>,
    p: PageNo,
) -> Result<bool, StoreFault>
    requires going { store.old.stopped ≡ false }
    requires counted { p < store.old.now.counted }
    ensures tells { WhereSound O.first D.Disk (IfOk result (SettledSaid store.old.now.tables (area_in store.old.now) p)) }
    // Of a page of a bucket it is refused for no other cause than that the disk failed.
    ensures refused { (chain : ChainOf) → WhereSound O.first D.Disk (IsBucketPage chain p store.old.now → IfErr result (λ f. f ≡ Fault)) }
    ensures leaves { ReadsPages O.first D.Disk store.old store.new result }
{
    let slots = match slots_on(store, p) {
        Err(fault) => return Err(fault),
        Ok(slots) => slots,
    };
    for slot in 0..slots.count {
        match is_settled_at(store, Place { page: p, slot }) {
            Err(fault) => return Err(fault),
            Ok(false) => return Ok(false),
            Ok(true) => {}
        }
    }
    Ok(true)
}
