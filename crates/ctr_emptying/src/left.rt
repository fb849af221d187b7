// What pages a table has left.
ghost use Rattle.std.specs.Prelude.{◌≡◌, ◌≢◌, ◌<◌, false, IfOk, IfErr};
ghost use Rattle.ctr_disk.specs.declared.fault.StoreFault.TheVariants.{Fault};
ghost use Rattle.ctr_pvs.specs.base_Base.{WhereSound};
ghost use Rattle.ctr_pvs.specs.record_effects_States.{area_in};
ghost use Rattle.ctr_pvs.specs.record_effects_Standing.{IsDatabaseState};
ghost use Rattle.ctr_pvs.specs.walk_Damage.{ReadsPages};
ghost use Rattle.ctr_emptying.specs.Looking.{RowsSaid, LeftSaid, IsLeftBelow};

use ctr_clean::a_table_can_be_linked_to;
use ctr_cursor::first_page;
use ctr_disk::{Disk, StoreFault};
use ctr_page::Chain;
use ctr_pvs::{Origin, Store};
use ctr_rec::PageNo;

/// The buckets of a table.
const BUCKETS: u8 = 8;

/// What is left of the pages of a table.
#[derive(Clone, Copy, Debug, PartialEq, Eq)]
pub(crate) enum Left {
    /// A bucket has pages.
    Rows,
    /// No bucket has; this is the first page of versions.
    Versions(PageNo),
    /// There is no page.
    NoPage,
}

/// Whether a bucket of a table has a page.
fn has_rows<D: Disk, O: Origin>(store: &mut Store<D, O>, entry: u8) -> Result<bool, StoreFault>
    requires going { store.old.stopped ≡ false }
    requires there { entry < 32 }
    ensures tells { WhereSound O.first D.Disk (IfOk result (RowsSaid (area_in store.old.now) entry)) }
    ensures leaves { ReadsPages O.first D.Disk store.old store.new result }
    ensures refused { WhereSound O.first D.Disk (IsDatabaseState store.old.now → IfErr result (λ f. f ≡ Fault)) }
{
    a_table_can_be_linked_to();
    for bucket in 0..BUCKETS {
        match first_page(store, Chain::Rows { entry, bucket }) {
            Err(fault) => return Err(fault),
            Ok(Some(_)) => return Ok(true),
            Ok(None) => {}
        }
    }
    Ok(false)
}

/// What pages a table has left.
pub(crate) fn pages_left<D: Disk, O: Origin>(
    store: &mut Store<D, O>,
    entry: u8,
) -> Result<Left, StoreFault>
    requires going { store.old.stopped ≡ false }
    requires there { entry < 32 }
    ensures tells { WhereSound O.first D.Disk (IfOk result (LeftSaid (area_in store.old.now) entry)) }
    ensures inside { IfOk result (IsLeftBelow store.old.now.counted) }
    ensures leaves { ReadsPages O.first D.Disk store.old store.new result }
    ensures refused { WhereSound O.first D.Disk (IsDatabaseState store.old.now → IfErr result (λ f. f ≡ Fault)) }
{
    match has_rows(store, entry) {
        Err(fault) => return Err(fault),
        Ok(true) => return Ok(Left::Rows),
        Ok(false) => {}
    }
    match first_page(store, Chain::Versions { entry }) {
        Err(fault) => Err(fault),
        Ok(None) => Ok(Left::NoPage),
        Ok(Some(p)) => Ok(Left::Versions(p)),
    }
}
