// One record allocates a page of a store, or gives it back.
ghost use Rattle.std.specs.Prelude.{◌≡◌, ◌<◌, ◌/◌, ◌%◌, ℕ, true, false, slice_index, IfOk, OnOk};
ghost use Rattle.ctr_walk.specs.base_growing_TheConstants.{MOST_PAGES};
ghost use Rattle.ctr_actions.specs.area_Changes.{IsBitSet};
ghost use Rattle.ctr_walk.specs.base_Base.{WhereSound};
ghost use Rattle.ctr_walk.specs.store_Store.{LeavesPage};
ghost use Rattle.ctr_walk.specs.OneRecord.{HasRoomForOne, LogsOne};
ghost use Rattle.ctr_actions.specs.ctr_record_effects.States.{pages_in, IsWholePage};
ghost use Rattle.ctr_actions.specs.ctr_record_effects.Changing.{alloc_record, free_record};
ghost use Rattle.ctr_actions.specs.Sites.{site_of};
ghost use Rattle.ctr_actions.specs.Actions.{Allocates, Frees, site_after};

use crate::bits::{with_free, with_taken};
use ctr_actions::{
    a_free_changes_its_bit, a_logged_record_is_its_action, an_alloc_changes_its_bit,
};
use ctr_disk::{Disk, StoreFault};
use ctr_rec::{Bytes, Overlay, PageNo, Record};
use ctr_types::Xid;
use ctr_walk::{Origin, Store, a_record_behind_a_page, log_record};

// The byte of page 0 in which a page has its bit, where this page is allocated, or free.
fn byte_with<D: Disk, O: Origin>(
    store: &mut Store<D, O>,
    p: PageNo,
    taken: bool,
) -> Result<u8, StoreFault>
    requires going { store.old.stopped ≡ false }
    requires small { p < MOST_PAGES }
    ensures byte { WhereSound O.first D.Disk (IfOk result (λ b. IsBitSet (p % 8) taken (slice_index (pages_in store.old.now 0) (p / 8)) b)) }
    ensures whole { WhereSound O.first D.Disk (OnOk result (IsWholePage 0 store.old.now)) }
    ensures leaves { LeavesPage O.first D.Disk store.old store.new result }
{
    let page = store.page(0)?;
    if taken {
        return Ok(with_taken(page, p));
    }
    Ok(with_free(page, p))
}

// Bytes over one of page 0.
fn over_bits<'a>(p: PageNo, bytes: &'a [u8]) -> Overlay<'a>
    requires { p < MOST_PAGES }
    ensures { result ≡ record { page = 0; clear = false; offset = p / 8; bytes = bytes.now } }
{
    Overlay {
        page: 0,
        clear: false,
        offset: (p / 8) as u16,
        bytes: Bytes::new(bytes),
    }
}

/// Allocates a page for a transaction, by one record, which isn't hardened yet.
pub fn alloc<D: Disk, O: Origin>(
    store: &mut Store<D, O>,
    x: Xid,
    p: PageNo,
) -> Result<(), StoreFault>
    requires room { HasRoomForOne 0 1 store.old }
    requires small { p < MOST_PAGES }
    ensures one { (byte : ℕ) × LogsOne O.first D.Disk (alloc_record x p byte) store.old store.new result }
    // The map of pages is there, whole.
    ensures whole { WhereSound O.first D.Disk (OnOk result (IsWholePage 0 store.old.now)) }
    // The page is allocated and the transaction's own, and nothing else in the pages and the tables changes.
    ensures leaves { WhereSound O.first D.Disk (OnOk result (site_of store.new.now ≡ site_after x (Allocates p) (site_of store.old.now))) }
{
    a_record_behind_a_page::<D, u8, ()>();
    a_logged_record_is_its_action();
    store.counts_pages();
    an_alloc_changes_its_bit();
    let byte = byte_with(store, p, true)?;
    let bytes = [byte];
    let rec = Record::Alloc {
        x,
        p,
        overlay: over_bits(p, &bytes),
    };
    match log_record(store, &rec) {
        Ok(_) => Ok(()),
        Err(fault) => Err(fault),
    }
}

/// Gives a page back, by one record, which isn't hardened yet.
pub fn free<D: Disk, O: Origin>(store: &mut Store<D, O>, p: PageNo) -> Result<(), StoreFault>
    requires room { HasRoomForOne 0 0 store.old }
    requires small { p < MOST_PAGES }
    ensures one { (byte : ℕ) × LogsOne O.first D.Disk (free_record p byte) store.old store.new result }
    ensures whole { WhereSound O.first D.Disk (OnOk result (IsWholePage 0 store.old.now)) }
    // The page is free, the secondary log has it no more, and nothing else in the pages and the tables changes.
    ensures leaves { (x : ℕ) → WhereSound O.first D.Disk (OnOk result (site_of store.new.now ≡ site_after x (Frees p) (site_of store.old.now))) }
{
    a_record_behind_a_page::<D, u8, ()>();
    a_logged_record_is_its_action();
    store.counts_pages();
    a_free_changes_its_bit();
    let byte = byte_with(store, p, false)?;
    let bytes = [byte];
    let rec = Record::Free {
        p,
        overlay: over_bits(p, &bytes),
    };
    match log_record(store, &rec) {
        Ok(_) => Ok(()),
        Err(fault) => Err(fault),
    }
}
