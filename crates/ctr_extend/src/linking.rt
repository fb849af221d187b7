// A page that is empty is put in front of its chain.
ghost use Rattle.std.specs.Prelude.{IfErr, ◌≡◌, ◌<◌, ◌≤◌, ℕ, IfOk};
ghost use Rattle.ctr_disk.specs.declared.fault.StoreFault.TheVariants.{Fault};
ghost use Rattle.ctr_base.specs.Base.{WhereSound};
ghost use Rattle.ctr_page.specs.declared.checks.Chain.TheVariants.{Rows, Versions};
ghost use Rattle.ctr_page_turns.specs.record_effects_States.{area_in};
ghost use Rattle.ctr_page_turns.specs.walk_OneRecord.{HasRoomForOne};
ghost use Rattle.ctr_page_turns.specs.walk_Tables.{IsChain, first_of_chain};
ghost use Rattle.ctr_page_turns.specs.Turns.{Turns};
ghost use Rattle.ctr_extend.specs.declared.ways.OnWay.TheVariants.{Made};
ghost use Rattle.ctr_extend.specs.declared.ways.Extended.TheVariants.{Linked as IsLinked};
ghost use Rattle.ctr_extend.specs.Steps.{MayExtend, PutsInFront, LeavesRoom, MovesBy};

use crate::ways::Extended;
use ctr_base::Origin;
use ctr_disk::{Disk, StoreFault};
use ctr_page::Chain;
use ctr_page_turns::{
    a_record_acts, a_record_is_refused_by_the_disk_alone, a_turn_goes_on, an_action_gives_its_fact,
    an_item_goes, owed_records_are_laid_as_their_actions, pages_are_in_bounds, what_is_held_pays,
};
use ctr_rec::PageNo;
use ctr_stops::Store;
use ctr_types::Xid;
use ctr_undamaged::{a_table_can_be_linked_to, link};

// In front of a bucket.
fn link_rows<D: Disk, O: Origin>(
    store: &mut Store<D, O>,
    x: Xid,
    page: PageNo,
    entry: u8,
    bucket: u8,
) -> Result<Extended, StoreFault>
    requires room { HasRoomForOne 0 0 store.old }
    requires there { (entry < 32) × (bucket < 8) }
    requires counted { (3 ≤ page) × (page < store.old.now.counted) }
    ensures turns { Turns O.first D.Disk store.old store.new result }
    ensures is { IfOk result (λ e. (e ≡ IsLinked) × LeavesRoom 0 e store.old.meta store.new.meta) }
    ensures numbers { IfOk result (λ e. MovesBy e store.old store.new) }
    ensures steps { (next : ℕ) → WhereSound O.first D.Disk (MayExtend x (Rows entry bucket) (Made page next) store.old.now → next ≡ first_of_chain (area_in store.old.now) (Rows entry bucket)
        → IfOk result (λ e. PutsInFront x (Rows entry bucket) page next store.old.now store.new.now)) }
    ensures refused { (next : ℕ) → WhereSound O.first D.Disk (MayExtend x (Rows entry bucket) (Made page next) store.old.now → next ≡ first_of_chain (area_in store.old.now) (Rows entry bucket) → IfErr result (λ e. e ≡ Fault)) }
{
    store.counts_pages();
    let _tables = store.meta();
    a_record_is_refused_by_the_disk_alone::<D, ()>();
    a_turn_goes_on::<D, (), Extended>();
    a_record_acts::<D>();
    an_item_goes();
    owed_records_are_laid_as_their_actions();
    a_table_can_be_linked_to();
    an_action_gives_its_fact();
    what_is_held_pays();
    pages_are_in_bounds();
    match link(store, x, page, entry, Some(bucket)) {
        Ok(()) => Ok(Extended::Linked),
        Err(fault) => Err(fault),
    }
}

// In front of the chain of versions.
fn link_versions<D: Disk, O: Origin>(
    store: &mut Store<D, O>,
    x: Xid,
    page: PageNo,
    entry: u8,
) -> Result<Extended, StoreFault>
    requires room { HasRoomForOne 0 0 store.old }
    requires there { entry < 32 }
    requires counted { (3 ≤ page) × (page < store.old.now.counted) }
    ensures turns { Turns O.first D.Disk store.old store.new result }
    ensures is { IfOk result (λ e. (e ≡ IsLinked) × LeavesRoom 0 e store.old.meta store.new.meta) }
    ensures numbers { IfOk result (λ e. MovesBy e store.old store.new) }
    ensures steps { (next : ℕ) → WhereSound O.first D.Disk (MayExtend x (Versions entry) (Made page next) store.old.now → next ≡ first_of_chain (area_in store.old.now) (Versions entry)
        → IfOk result (λ e. PutsInFront x (Versions entry) page next store.old.now store.new.now)) }
    ensures refused { (next : ℕ) → WhereSound O.first D.Disk (MayExtend x (Versions entry) (Made page next) store.old.now → next ≡ first_of_chain (area_in store.old.now) (Versions entry) → IfErr result (λ e. e ≡ Fault)) }
{
    store.counts_pages();
    let _tables = store.meta();
    a_record_is_refused_by_the_disk_alone::<D, ()>();
    a_turn_goes_on::<D, (), Extended>();
    a_record_acts::<D>();
    an_item_goes();
    owed_records_are_laid_as_their_actions();
    a_table_can_be_linked_to();
    an_action_gives_its_fact();
    what_is_held_pays();
    pages_are_in_bounds();
    match link(store, x, page, entry, None) {
        Ok(()) => Ok(Extended::Linked),
        Err(fault) => Err(fault),
    }
}

/// A page that is empty is put in front of its chain, where it leads on to the page that is the first.
pub(crate) fn link_in<D: Disk, O: Origin>(
    store: &mut Store<D, O>,
    x: Xid,
    chain: Chain,
    page: PageNo,
) -> Result<Extended, StoreFault>
    requires room { HasRoomForOne 0 0 store.old }
    requires there { IsChain chain }
    requires counted { (3 ≤ page) × (page < store.old.now.counted) }
    ensures turns { Turns O.first D.Disk store.old store.new result }
    ensures is { IfOk result (λ e. (e ≡ IsLinked) × LeavesRoom 0 e store.old.meta store.new.meta) }
    ensures numbers { IfOk result (λ e. MovesBy e store.old store.new) }
    ensures steps { (next : ℕ) → WhereSound O.first D.Disk (MayExtend x chain (Made page next) store.old.now → next ≡ first_of_chain (area_in store.old.now) chain
        → IfOk result (λ e. PutsInFront x chain page next store.old.now store.new.now)) }
    ensures refused { (next : ℕ) → WhereSound O.first D.Disk (MayExtend x chain (Made page next) store.old.now → next ≡ first_of_chain (area_in store.old.now) chain → IfErr result (λ e. e ≡ Fault)) }
{
    match chain {
        Chain::Rows { entry, bucket } => link_rows(store, x, page, entry, bucket),
        Chain::Versions { entry } => link_versions(store, x, page, entry),
    }
}
