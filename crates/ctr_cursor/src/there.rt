// Whether a position is one still, behind what others logged.
ghost use Rattle.std.specs.Prelude.{◌≡◌, ◌≤◌, ◌<◌, ◌/◌, false, true, IfErr, IfOk, length};
ghost use Rattle.std.specs.List.{list_any};
ghost use Rattle.ctr_walk.specs.base_Base.{WhereSound};
ghost use Rattle.ctr_walk.specs.base_growing_TheConstants.{MOST_PAGES};
ghost use Rattle.ctr_walk.specs.store_Store.{LeavesPage};
ghost use Rattle.ctr_disk.specs.declared.fault.StoreFault.TheVariants.{Fault};
ghost use Rattle.ctr_area.specs.Reading.{is_taken};
ghost use Rattle.ctr_actions.specs.Sites.{site_of};
ghost use Rattle.ctr_walk.specs.record_effects_States.{area_in};
ghost use Rattle.ctr_walk.specs.record_effects_Standing.{IsDatabaseState};
ghost use Rattle.ctr_walk.specs.Damage.{ReadsPages};
ghost use Rattle.ctr_cursor.specs.Standing.{IsInChain, IsPlaceIn, IsOfChain, IsPosition, IsCountedPosition, is_item_of};

use crate::places::room_on;
use crate::position::Position;
use ctr_disk::{Disk, StoreFault};
use ctr_page::{Chain, Header, PageKind, Place, read_header};
use ctr_rec::{PageNo, SlogItem};
use ctr_walk::{Origin, Store};

/// Whether a page is allocated, by the bytes of page 0.
fn has_bit(page: &[u8], p: PageNo) -> bool
    requires { p / 8 < length page.now }
    ensures { result ≡ is_taken p page.now }
{
    (page[p as usize / 8] >> (p % 8)) % 2 == 1
}

/// The same of a store.
fn is_allocated<D: Disk, O: Origin>(store: &mut Store<D, O>, p: PageNo) -> Result<bool, StoreFault>
    requires going { store.old.stopped ≡ false }
    requires there { p < MOST_PAGES }
    ensures tells { WhereSound O.first D.Disk (IfOk result (λ is. is ≡ (area_in store.old.now).taken p)) }
    ensures leaves { LeavesPage O.first D.Disk store.old store.new result }
{
    let page = store.page(0)?;
    Ok(has_bit(page, p))
}

/// Whether an item of the secondary log is of a page.
fn is_of(item: &SlogItem, p: PageNo) -> bool
    ensures { result ≡ is_item_of p item.now }
{
    match item {
        SlogItem::AllocOf(_, q) | SlogItem::FreeOf(q) => *q == p,
        SlogItem::CreateOf(_, _) | SlogItem::DropOf(_, _) => false,
    }
}

/// Whether one of these is.
fn has_item(items: &[SlogItem], p: PageNo) -> bool
    ensures { result ≡ list_any (is_item_of p) items.now }
{
    items.iter().any(|item| is_of(item, p))
}

/// Whether a header is one of a chain's pages.
fn is_of_chain(chain: Chain, header: &Header) -> bool
    ensures yes { result ≡ true → IsOfChain chain header.now }
    ensures no { result ≡ false → IsOfChain chain header.now → ⊥ }
{
    match chain {
        Chain::Rows { entry, bucket } => {
            header.kind == PageKind::ROWS && header.entry == entry && header.bucket == bucket
        }
        Chain::Versions { entry } => {
            header.kind == PageKind::VERSIONS && header.entry == entry && header.bucket == 0
        }
    }
}

/// Whether the header of a page is.
fn is_headed<D: Disk, O: Origin>(
    store: &mut Store<D, O>,
    chain: Chain,
    p: PageNo,
) -> Result<bool, StoreFault>
    requires going { store.old.stopped ≡ false }
    requires there { p < MOST_PAGES }
    ensures yes { WhereSound O.first D.Disk (3 ≤ p → IfOk result (λ is. is ≡ true → IsOfChain chain ((area_in store.old.now).header p))) }
    ensures no { WhereSound O.first D.Disk (3 ≤ p → IfOk result (λ is. is ≡ false → IsOfChain chain ((area_in store.old.now).header p) → ⊥)) }
    ensures leaves { LeavesPage O.first D.Disk store.old store.new result }
{
    let page = store.page(p)?;
    Ok(is_of_chain(chain, &read_header(page)))
}

/// Whether a page stands in a chain: it is allocated, no item of the secondary log has it, and its header says so.
fn is_in_chain<D: Disk, O: Origin>(
    store: &mut Store<D, O>,
    chain: Chain,
    p: PageNo,
) -> Result<bool, StoreFault>
    requires going { store.old.stopped ≡ false }
    requires there { p < MOST_PAGES }
    ensures yes { WhereSound O.first D.Disk (IsDatabaseState store.old.now → IfOk result (λ is. is ≡ true → IsInChain chain p (area_in store.old.now))) }
    ensures no { WhereSound O.first D.Disk (IsDatabaseState store.old.now → IfOk result (λ is. is ≡ false → IsInChain chain p (area_in store.old.now) → ⊥)) }
    ensures leaves { LeavesPage O.first D.Disk store.old store.new result }
{
    store.rests();
    if p < 3 {
        return Ok(false);
    }
    if has_item(store.meta().items(), p) {
        return Ok(false);
    }
    if !is_allocated(store, p)? {
        return Ok(false);
    }
    is_headed(store, chain, p)
}

/// Whether a place is one of a chain.
fn is_place<D: Disk, O: Origin>(
    store: &mut Store<D, O>,
    chain: Chain,
    place: Place,
) -> Result<bool, StoreFault>
    requires going { store.old.stopped ≡ false }
    requires counted { place.page < store.old.now.counted }
    ensures yes { WhereSound O.first D.Disk (IsDatabaseState store.old.now → IfOk result (λ is. is ≡ true → IsPlaceIn chain place (area_in store.old.now))) }
    ensures no { WhereSound O.first D.Disk (IsDatabaseState store.old.now → IfOk result (λ is. is ≡ false → IsPlaceIn chain place (area_in store.old.now) → ⊥)) }
    ensures refused { WhereSound O.first D.Disk (IsDatabaseState store.old.now → IfErr result (λ e. e ≡ Fault)) }
    ensures leaves { ReadsPages O.first D.Disk store.old store.new result }
{
    store.counts_pages();
    match is_in_chain(store, chain, place.page) {
        Err(fault) => Err(fault),
        Ok(false) => Ok(false),
        Ok(true) => match room_on(store, chain, place.page) {
            Err(fault) => Err(fault),
            Ok(room) => Ok(place.slot < room),
        },
    }
}

/// Whether a position is one still, whatever was logged since: a page may have left its chain. It reads page 0, the page that the position is on, and
/// the page of the catalog with its entry, and looks through the items of the secondary log. It logs nothing, and takes no memory.
pub fn is_there<D: Disk, O: Origin>(
    store: &mut Store<D, O>,
    position: Position,
) -> Result<bool, StoreFault>
    requires going { store.old.stopped ≡ false }
    requires within { IsCountedPosition store.old.now.counted position }
    // In a state that may be a database's it is told exactly so.
    ensures yes { WhereSound O.first D.Disk (IsDatabaseState store.old.now → IfOk result (λ is. is ≡ true → IsPosition position (site_of store.old.now))) }
    ensures no { WhereSound O.first D.Disk (IsDatabaseState store.old.now → IfOk result (λ is. is ≡ false → IsPosition position (site_of store.old.now) → ⊥)) }
    // It is refused there for no other cause than that the disk failed.
    ensures refused { WhereSound O.first D.Disk (IsDatabaseState store.old.now → IfErr result (λ e. e ≡ Fault)) }
    ensures leaves { ReadsPages O.first D.Disk store.old store.new result }
{
    store.rests();
    match position {
        Position::Entry { .. } | Position::Aborted { .. } => Ok(true),
        Position::Slot {
            entry,
            bucket,
            place,
        } => is_place(store, Chain::Rows { entry, bucket }, place),
        Position::Kept { entry, place } => is_place(store, Chain::Versions { entry }, place),
    }
}
