// A record on a page, which is read first.
ghost use Rattle.std.specs.Prelude.{◌≡◌, ◌<◌, ◌≤◌, ℕ, false, OnOk, length};
ghost use Rattle.ctr_record_effects.specs.rec_Record.{Record};
ghost use Rattle.ctr_store.specs.meta_Kept.{IsLogged, opens_added, items_added};
ghost use Rattle.ctr_record_effects.specs.ctr_redo.States.{page_limit, page_at};
ghost use Rattle.ctr_record_effects.specs.ctr_redo.Overlaid.{overlay_of};
ghost use Rattle.ctr_record_effects.specs.ctr_redo.Fitting.{LiesInside};
ghost use Rattle.ctr_store.specs.base_Base.{WhereSound};
ghost use Rattle.ctr_store.specs.Changes.{IsChange};
ghost use Rattle.ctr_store.specs.Store.{View, MayLog, LeavesPage};
ghost use Rattle.ctr_walk.specs.OneRecord.{HasRoomForOne, LogsOne};

use crate::joining::{a_record_behind_a_page, log_record};
use ctr_disk::{Disk, StoreFault};
use ctr_store::{Origin, PageNo, Record as LogRecord, Store};

// Brings a page into a frame.
fn bring<D: Disk, O: Origin>(store: &mut Store<D, O>, page: PageNo) -> Result<(), StoreFault>
    requires going { store.old.stopped ≡ false }
    requires there { page < page_limit }
    ensures whole { WhereSound O.first D.Disk (OnOk result (length (page_at page store.old.now.pages) ≡ 4096)) }
    ensures leaves { LeavesPage O.first D.Disk store.old store.new result }
{
    let _bytes = store.page(page)?;
    Ok(())
}

/// Adds a record to a store that is on a page, or on none. The page is brought first, as a record that is on it has to.
pub fn log_on_page<D: Disk, O: Origin>(
    store: &mut Store<D, O>,
    page: PageNo,
    rec: &LogRecord,
) -> Result<(), StoreFault>
    requires may { MayLog rec.now store.old }
    requires there { page < page_limit }
    ensures one { LogsOne O.first D.Disk rec.now store.old store.new result }
    // The page is there, whole.
    ensures whole { WhereSound O.first D.Disk (OnOk result (length (page_at page store.old.now.pages) ≡ 4096)) }
{
    a_record_behind_a_page::<D, (), ()>();
    bring(store, page)?;
    match log_record(store, rec) {
        Ok(_) => Ok(()),
        Err(fault) => Err(fault),
    }
}

/// Where there is room for one record more, a record that is on no page, or on a counted one, may be logged.
pub fn a_record_may_be_logged<D: Disk>()
    ensures { (r : Record) (opens items : ℕ) (v : View D) → HasRoomForOne opens items v → IsLogged r → IsChange r → LiesInside v.now.counted (overlay_of r)
        → opens_added r ≤ opens → items_added r ≤ items → MayLog r v }
{}
