// The places of a chain of pages, one behind another.
ghost use Rattle.std.specs.Prelude.{◌≡◌, ◌≢◌, ◌≤◌, ◌<◌, ◌==◌, false, IfErr, IfOk, IfSome};
ghost use Rattle.ctr_walk.specs.base_Base.{WhereSound};
ghost use Rattle.ctr_disk.specs.declared.fault.StoreFault.TheVariants.{Fault};
ghost use Rattle.ctr_page.specs.Damage.{chain_kind as kind_in};
ghost use Rattle.ctr_area.specs.Reading.{size_of_kind};
ghost use Rattle.ctr_walk.specs.record_effects_States.{pages_in, area_in};
ghost use Rattle.ctr_walk.specs.record_effects_Standing.{IsDatabaseState};
ghost use Rattle.ctr_walk.specs.Damage.{damage_told, EndsTold, ReadsPages};
ghost use Rattle.ctr_walk.specs.Tables.{IsChain, first_of_chain};
ghost use Rattle.ctr_reading.specs.pvs_Table.{TableFits, TableSaid};
ghost use Rattle.ctr_cursor.specs.Pass.{first_on as first_place_on, place_behind as place_next};
ghost use Rattle.ctr_cursor.specs.Standing.{IsInChain};

use ctr_disk::{Disk, StoreFault};
use ctr_page::{Chain, PageKind, Place, kept_size, kinds_width, room_for, slot_size};
use ctr_reading::{next_page, table_on};
use ctr_rec::PageNo;
use ctr_walk::{Origin, Store, TableOf, first_page, tell};

/// The kind of the pages of a chain.
fn kind_of_chain(chain: Chain) -> PageKind
    ensures { result ≡ kind_in chain }
{
    match chain {
        Chain::Rows { .. } => PageKind::ROWS,
        Chain::Versions { .. } => PageKind::VERSIONS,
    }
}

/// How long a place of a chain is, by the width of its table's rows.
fn size_of(chain: Chain, width: usize) -> usize
    requires small { width ≤ 2048 }
    ensures { result ≡ size_of_kind (kind_in chain == 1) width }
{
    match chain {
        Chain::Rows { .. } => slot_size(width),
        Chain::Versions { .. } => kept_size(width),
    }
}

/// The table that a page of a chain is of, with damage as it is told.
fn table_told<D: Disk, O: Origin>(
    store: &mut Store<D, O>,
    kind: PageKind,
    p: PageNo,
) -> Result<TableOf, StoreFault>
    requires going { store.old.stopped ≡ false }
    requires counted { p < store.old.now.counted }
    ensures ends { WhereSound O.first D.Disk (EndsTold (damage_told D.Disk store.new) (TableSaid kind store.old.now.counted (pages_in store.old.now) p) result) }
    ensures fits { IfOk result TableFits }
    ensures leaves { ReadsPages O.first D.Disk store.old store.new result }
{
    let found = table_on(store, kind, p);
    tell(store, found)
}

/// How many places a page of a chain has.
pub(crate) fn room_on<D: Disk, O: Origin>(
    store: &mut Store<D, O>,
    chain: Chain,
    p: PageNo,
) -> Result<u16, StoreFault>
    requires going { store.old.stopped ≡ false }
    requires counted { p < store.old.now.counted }
    ensures room { WhereSound O.first D.Disk (IfOk result (λ n. (3 ≤ p) × (n ≡ (area_in store.old.now).room p))) }
    ensures refused { WhereSound O.first D.Disk (IsDatabaseState store.old.now → IsInChain chain p (area_in store.old.now) → IfErr result (λ e. e ≡ Fault)) }
    ensures leaves { ReadsPages O.first D.Disk store.old store.new result }
{
    let table = match table_told(store, kind_of_chain(chain), p) {
        Err(fault) => return Err(fault),
        Ok(table) => table,
    };
    Ok(room_for(size_of(chain, kinds_width(table.kinds()))) as u16)
}

/// The first place of a chain that goes on with this page; 0 is no page.
fn first_on(p: PageNo) -> Option<Place>
    ensures { result ≡ first_place_on p }
{
    if p == 0 {
        return None;
    }
    Some(Place { page: p, slot: 0 })
}

/// The place behind one of a chain, if any. The page is read, and its table's entry of the catalog.
pub(crate) fn place_behind<D: Disk, O: Origin>(
    store: &mut Store<D, O>,
    chain: Chain,
    place: Place,
) -> Result<Option<Place>, StoreFault>
    requires going { store.old.stopped ≡ false }
    requires counted { place.page < store.old.now.counted }
    ensures next { WhereSound O.first D.Disk (IfOk result (λ found. found ≡ place_next (area_in store.old.now) place)) }
    ensures refused { WhereSound O.first D.Disk (IsDatabaseState store.old.now → IsInChain chain place.page (area_in store.old.now) → IfErr result (λ e. e ≡ Fault)) }
    ensures inside { IfOk result (λ found. IfSome found (λ at. at.page < store.old.now.counted)) }
    ensures leaves { ReadsPages O.first D.Disk store.old store.new result }
{
    let room = match room_on(store, chain, place.page) {
        Err(fault) => return Err(fault),
        Ok(room) => room,
    };
    if place.slot < room && place.slot + 1 < room {
        return Ok(Some(Place {
            page: place.page,
            slot: place.slot + 1,
        }));
    }
    match next_page(store, chain, place.page) {
        Err(fault) => Err(fault),
        Ok(next) => Ok(first_on(next)),
    }
}

/// The first place of a chain, if it has a page. Its table's entry of the catalog is read.
pub(crate) fn first_place<D: Disk, O: Origin>(
    store: &mut Store<D, O>,
    chain: Chain,
) -> Result<Option<Place>, StoreFault>
    requires going { store.old.stopped ≡ false }
    requires there { IsChain chain }
    ensures first { WhereSound O.first D.Disk (IfOk result (λ found. found ≡ first_place_on (first_of_chain (area_in store.old.now) chain))) }
    ensures refused { WhereSound O.first D.Disk (IsDatabaseState store.old.now → IfErr result (λ e. e ≡ Fault)) }
    ensures inside { IfOk result (λ found. IfSome found (λ at. at.page < store.old.now.counted)) }
    ensures leaves { ReadsPages O.first D.Disk store.old store.new result }
{
    match first_page(store, chain) {
        Err(fault) => Err(fault),
        Ok(None) => Ok(None),
        Ok(Some(p)) => Ok(Some(Place { page: p, slot: 0 })),
    }
}
