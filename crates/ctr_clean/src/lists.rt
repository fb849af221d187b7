// Steps in the lists of the tables.
ghost use Rattle.std.specs.Prelude.{◌≡◌, ◌<◌, ℕ, None, IfSome, IfOk, IfErr, OnOk, drop};
ghost use Rattle.std.specs.List.{AllByRecursion};
ghost use Rattle.ctr_disk.specs.declared.fault.StoreFault.TheVariants.{Fault};
ghost use Rattle.ctr_pvs.specs.base_growing_TheConstants.{MOST_PAGES};
ghost use Rattle.ctr_pvs.specs.base_Base.{WhereSound};
ghost use Rattle.ctr_rec.specs.Members.{ItemFits};
ghost use Rattle.ctr_rec.specs.declared.record.SlogItem.TheVariants.{FreeOf};
ghost use Rattle.ctr_area.specs.Sound.{IsAmong};
ghost use Rattle.ctr_record_effects.specs.Standing.{IsDatabaseState};
ghost use Rattle.ctr_pvs.specs.walk_OneRecord.{HasRoomForOne};
ghost use Rattle.ctr_dead.specs.page_turns_Turns.{Turns};
ghost use Rattle.ctr_dead.specs.page_turns_Rooms.{AddsItems};
ghost use Rattle.ctr_clean.specs.Steps.{Locks, next_stepped};
ghost use Rattle.ctr_clean.specs.Lists.{IsWithoutHead, ForgetsAt, ReclaimsOne, TakesItem};

use crate::steps::Step;
use ctr_dead::{a_turn_goes_on, an_item_goes, forget, give_back};
use ctr_disk::{Disk, StoreFault};
use ctr_meta::Meta;
use ctr_pvs::{Origin, Store};
use ctr_rec::{PageNo, SlogItem};
use ctr_types::Xid;

/// The transaction at a place of the aborted transaction map, in its order, where it has no head.
fn without_head(meta: &Meta, place: usize) -> Option<Xid>
    ensures { IsWithoutHead place meta.now.tables result }
{
    let _next = meta.next();
    match meta.aborted_at(place) {
        None => None,
        Some((x, heads)) => { if heads == 0 { Some(x) } else { None } }
    }
}

/// Forgets the transaction at a place of the aborted transaction map, in its order, from 0, where it has no head, by one record, which isn't
/// hardened yet. It takes no memory.
pub fn forget_at<D: Disk, O: Origin>(
    store: &mut Store<D, O>,
    place: usize,
) -> Result<Step, StoreFault>
    requires room { HasRoomForOne 0 0 store.old }
    // It logs one record, or does nothing.
    ensures turns { Turns O.first D.Disk store.old store.new result }
    ensures numbers { IfOk result (λ t. store.new.next ≡ next_stepped t store.old.next) }
    // No transaction and no item is added to the tables, and as many pages are counted.
    ensures left { OnOk result (AddsItems 0 store.old.meta store.new.meta) }
    ensures counted { OnOk result (store.new.now.counted ≡ store.old.now.counted) }
    // The transaction is forgotten, whoever is seen by all and whatever is locked; or none at the place may be.
    ensures cleans { (low : ℕ) (locks : Locks) → WhereSound O.first D.Disk (IfOk result (ForgetsAt low locks place store.old.now store.new.now)) }
    // It is refused for no other cause than that the disk failed.
    ensures refused { WhereSound O.first D.Disk (IsDatabaseState store.old.now → IfErr result (λ f. f ≡ Fault)) }
{
    a_turn_goes_on::<D, (), Step>();
    store.rests();
    match without_head(store.meta(), place) {
        None => Ok(Step::Nothing),
        Some(x) => match forget(store, x) {
            Err(fault) => Err(fault),
            Ok(()) => Ok(Step::Cleaned),
        },
    }
}

/// The first page among items of the secondary log that left its chain.
fn first_freed(items: &[SlogItem]) -> Option<PageNo>
    ensures found { IfSome result (λ p. IsAmong (FreeOf p) items.now) }
    ensures none { result ≡ None → (p : ℕ) → IsAmong (FreeOf p) items.now → ⊥ }
    ensures small { AllByRecursion ItemFits items.now → IfSome result (λ p. p < MOST_PAGES) }
{
    for at in 0..items.len() {
        if let SlogItem::FreeOf(p) = items[at] {
            return Some(p);
        }
    }
    None
}

/// The same behind the first items, so many.
fn freed_behind(items: &[SlogItem], spared: usize) -> Option<PageNo>
    ensures found { IfSome result (λ p. IsAmong (FreeOf p) (drop spared items.now)) }
    ensures none { result ≡ None → (p : ℕ) → IsAmong (FreeOf p) (drop spared items.now) → ⊥ }
    ensures small { AllByRecursion ItemFits items.now → IfSome result (λ p. p < MOST_PAGES) }
{
    if spared >= items.len() {
        return None;
    }
    first_freed(&items[spared..])
}

/// Gives back the first page that left its chain and isn't free yet, by one record, which isn't hardened yet. The first items of the secondary log, so
/// many, are left alone: those of an undo, which gives their pages back itself. It takes no memory.
pub fn reclaim<D: Disk, O: Origin>(
    store: &mut Store<D, O>,
    spared: usize,
) -> Result<Step, StoreFault>
    requires room { HasRoomForOne 0 0 store.old }
    // It logs one record, or does nothing.
    ensures turns { Turns O.first D.Disk store.old store.new result }
    ensures numbers { IfOk result (λ t. store.new.next ≡ next_stepped t store.old.next) }
    // No transaction and no item is added to the tables, and as many pages are counted.
    ensures left { OnOk result (AddsItems 0 store.old.meta store.new.meta) }
    ensures counted { OnOk result (store.new.now.counted ≡ store.old.now.counted) }
    // Whatever the disk tells, the item of a page that was given back is gone.
    ensures takes { IfOk result (TakesItem store.old.meta store.new.meta) }
    // A page is free again, whoever is seen by all and whatever is locked; or there is none to give back.
    ensures cleans { (low : ℕ) (locks : Locks) → WhereSound O.first D.Disk (IsDatabaseState store.old.now → IfOk result (ReclaimsOne low locks spared store.old.now store.new.now)) }
    // It is refused for no other cause than that the disk failed.
    ensures refused { WhereSound O.first D.Disk (IsDatabaseState store.old.now → IfErr result (λ f. f ≡ Fault)) }
{
    a_turn_goes_on::<D, (), Step>();
    an_item_goes();
    store.rests();
    match freed_behind(store.meta().items(), spared) {
        None => Ok(Step::Nothing),
        Some(p) => match give_back(store, p) {
            Err(fault) => Err(fault),
            Ok(()) => Ok(Step::Cleaned),
        },
    }
}
