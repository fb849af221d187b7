// Whether the table of an entry of the catalog stands.
ghost use Rattle.std.specs.Prelude.{◌≡◌, ◌<◌, ◌+◌, ◌/◌, ◌%◌, false, IfOk, IfErr, length};
ghost use Rattle.ctr_disk.specs.declared.fault.StoreFault.TheVariants.{Fault};
ghost use Rattle.ctr_base.specs.Base.{WhereSound};
ghost use Rattle.ctr_store.specs.Store.{LeavesPage};
ghost use Rattle.ctr_page.specs.declared.table.TheConstants.{PAGE_SIZE};
ghost use Rattle.ctr_record_effects.specs.States.{pages_in, area_in};
ghost use Rattle.ctr_record_effects.specs.Standing.{IsDatabaseState};
ghost use Rattle.ctr_walk.specs.Damage.{searched, EndsOnPage, ReadsPages};
ghost use Rattle.ctr_reading.specs.catalog_Finding.{checks_at};
ghost use Rattle.ctr_reading.specs.catalog_Columns.{EndsChecked};
ghost use Rattle.ctr_reading.specs.Reading.{sight_sees};
ghost use Rattle.ctr_survey.specs.Standing.{title_made_by, MadeSaid, stands_made};

use ctr_base::Origin;
use ctr_disk::{Disk, StoreFault};
use ctr_meta::{Meta, is_seen};
use ctr_page::{BadPage, EntryState, check_entry, read_entry};
use ctr_reading::{Sight, a_catalog_search_meets_no_damage};
use ctr_store::Store;
use ctr_types::Xid;
use ctr_walk::{SearchFault, catalog_page, found_on, tell};

/// Who made a table, and who dropped it, 0 for nobody.
#[derive(Clone, Copy, Debug, PartialEq, Eq)]
pub(crate) struct MadeBy {
    pub(crate) creator: Xid,
    pub(crate) dropper: Xid,
}

/// Who made and dropped the live table of an entry on a page of the catalog, which is checked; none where it has no live table.
fn made_in(entry: u8, counted: u32, page: &[u8]) -> Result<Option<MadeBy>, BadPage>
    requires some { 0 < counted }
    requires there { entry < 16 }
    requires whole { length page.now ≡ PAGE_SIZE }
    ensures { MadeSaid counted entry page.now result }
{
    check_entry(counted, entry, page)?;
    let table = read_entry(page, entry);
    if table.state != EntryState::LIVE {
        return Ok(None);
    }
    Ok(Some(MadeBy {
        creator: table.creator,
        dropper: table.dropper,
    }))
}

/// The same of an entry of a store's catalog.
fn made_at<D: Disk, O: Origin>(
    store: &mut Store<D, O>,
    entry: u8,
    counted: u32,
) -> Result<Option<MadeBy>, SearchFault>
    requires going { store.old.stopped ≡ false }
    requires some { 0 < counted }
    requires there { entry < 32 }
    ensures said { WhereSound O.first D.Disk (IfOk (searched result) (EndsOnPage (1 + entry / 16) (MadeSaid counted (entry % 16) (pages_in store.old.now (1 + entry / 16))))) }
    ensures leaves { LeavesPage O.first D.Disk store.old store.new (searched result) }
{
    let at = catalog_page(entry);
    let page = store.page(at)?;
    found_on(at, made_in(entry % 16, counted, page))
}

/// The same, with how many pages are counted.
fn made_found<D: Disk, O: Origin>(
    store: &mut Store<D, O>,
    entry: u8,
) -> Result<Option<MadeBy>, SearchFault>
    requires going { store.old.stopped ≡ false }
    requires there { entry < 32 }
    ensures ends { WhereSound O.first D.Disk (IfOk (searched result) (EndsChecked (checks_at store.old.now.counted (pages_in store.old.now) entry) entry)) }
    ensures tells { WhereSound O.first D.Disk (IfOk result (λ made. made ≡ title_made_by ((area_in store.old.now).title entry))) }
    ensures leaves { LeavesPage O.first D.Disk store.old store.new (searched result) }
{
    store.counts_pages();
    let counted = store.counted();
    made_at(store, entry, counted)
}

/// Who made and dropped the live table of an entry, 0 to 31. The entry is checked as it is read. It logs nothing, and takes no memory.
pub(crate) fn made<D: Disk, O: Origin>(
    store: &mut Store<D, O>,
    entry: u8,
) -> Result<Option<MadeBy>, StoreFault>
    requires going { store.old.stopped ≡ false }
    requires there { entry < 32 }
    ensures tells { WhereSound O.first D.Disk (IfOk result (λ made. made ≡ title_made_by ((area_in store.old.now).title entry))) }
    ensures refused { WhereSound O.first D.Disk (IsDatabaseState store.old.now → IfErr result (λ e. e ≡ Fault)) }
    ensures leaves { ReadsPages O.first D.Disk store.old store.new result }
{
    a_catalog_search_meets_no_damage();
    let found = made_found(store, entry);
    tell(store, found)
}

fn is_there(meta: &Meta, sight: &Sight, made: MadeBy) -> bool
    ensures { result ≡ stands_made (sight_sees meta.now.tables sight.now) (Some made) }
{
    is_seen(meta, sight.snapshot, sight.me, made.creator)
        && !is_seen(meta, sight.snapshot, sight.me, made.dropper)
}

/// Whether a table stands for who reads: it sees who made it, and not who dropped it.
pub(crate) fn stands(meta: &Meta, sight: &Sight, made: Option<MadeBy>) -> bool
    ensures { result ≡ stands_made (sight_sees meta.now.tables sight.now) made }
{
    match made {
        None => false,
        Some(made) => is_there(meta, sight, made),
    }
}
