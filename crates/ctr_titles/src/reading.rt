// The title of an entry of the catalog.
ghost use Rattle.std.specs.Prelude.{◌≡◌, ◌≢◌, ◌<◌, ◌+◌, ◌/◌, ◌%◌, false, IfErr, IfOk, length};
ghost use Rattle.ctr_disk.specs.declared.fault.StoreFault.TheVariants.{Fault};
ghost use Rattle.ctr_base.specs.Base.{WhereSound};
ghost use Rattle.ctr_store.specs.Store.{LeavesPage};
ghost use Rattle.ctr_page.specs.declared.table.TheConstants.{PAGE_SIZE};
ghost use Rattle.ctr_record_effects.specs.States.{pages_in, area_in};
ghost use Rattle.ctr_record_effects.specs.Standing.{IsDatabaseState};
ghost use Rattle.ctr_walk.specs.Damage.{damage_told, searched, EndsOnPage, EndsTold, ReadsPages};
ghost use Rattle.ctr_titles.specs.Titles.{IsTitle, TitleSaid};

use crate::name::ShortName;
use ctr_base::Origin;
use ctr_disk::{Disk, StoreFault};
use ctr_page::{BadPage, EntryState, check_entry, read_entry};
use ctr_store::Store;
use ctr_types::Xid;
use ctr_walk::{SearchFault, catalog_page, found_on, tell};

/// What an entry of the catalog says of its table, but for its columns and pages.
#[derive(Debug, Drop)]
pub struct TitleRead {
    pub state: EntryState,
    /// Who made the table.
    pub creator: Xid,
    /// Who dropped it; 0 for nobody.
    pub dropper: Xid,
    /// Its name. Of an entry that is free it says nothing.
    pub name: ShortName,
}

/// The title of an entry on a page of the catalog, which is checked.
fn title_in(counted: u32, entry: u8, page: &[u8]) -> Result<TitleRead, BadPage>
    requires some { 0 < counted }
    requires there { entry < 16 }
    requires whole { length page.now ≡ PAGE_SIZE }
    ensures { TitleSaid counted entry page.now result }
{
    check_entry(counted, entry, page)?;
    let table = read_entry(page, entry);
    let name = if table.state == EntryState::FREE {
        ShortName::none()
    } else {
        ShortName::new(table.name())
    };
    Ok(TitleRead {
        state: table.state,
        creator: table.creator,
        dropper: table.dropper,
        name,
    })
}

/// The same of an entry of a store's catalog.
fn title_on<D: Disk, O: Origin>(
    store: &mut Store<D, O>,
    entry: u8,
    counted: u32,
) -> Result<TitleRead, SearchFault>
    requires going { store.old.stopped ≡ false }
    requires some { 0 < counted }
    requires there { entry < 32 }
    ensures said { WhereSound O.first D.Disk (IfOk (searched result) (EndsOnPage (1 + entry / 16) (TitleSaid counted (entry % 16) (pages_in store.old.now (1 + entry / 16))))) }
    ensures leaves { LeavesPage O.first D.Disk store.old store.new (searched result) }
{
    let at = catalog_page(entry);
    let page = store.page(at)?;
    found_on(at, title_in(counted, entry % 16, page))
}

/// The title of an entry of the catalog, 0 to 31. The entry is checked as it is read: one page. It logs nothing, and takes no memory.
pub fn title_at<D: Disk, O: Origin>(
    store: &mut Store<D, O>,
    entry: u8,
) -> Result<TitleRead, StoreFault>
    requires going { store.old.stopped ≡ false }
    requires there { entry < 32 }
    // Damage is of the entry, and is told where that stands in the file of pages.
    ensures ends { WhereSound O.first D.Disk (EndsTold (damage_told D.Disk store.new) (EndsOnPage (1 + entry / 16) (TitleSaid store.old.now.counted (entry % 16) (pages_in store.old.now (1 + entry / 16)))) result) }
    ensures tells { WhereSound O.first D.Disk (IfOk result (IsTitle ((area_in store.old.now).title entry))) }
    // In a state that may be a database's it is refused for no other cause than that the disk failed.
    ensures refused { WhereSound O.first D.Disk (IsDatabaseState store.old.now → IfErr result (λ e. e ≡ Fault)) }
    ensures leaves { ReadsPages O.first D.Disk store.old store.new result }
{
    store.counts_pages();
    let counted = store.counted();
    let found = title_on(store, entry, counted);
    tell(store, found)
}
