// The first page of a bucket of a table that is dead.
ghost use Rattle.std.specs.Prelude.{◌≡◌, ◌≢◌, ◌<◌, false, IfOk, IfErr, IfSome, OnOk};
ghost use Rattle.ctr_disk.specs.declared.fault.StoreFault.TheVariants.{Fault};
ghost use Rattle.ctr_pvs.specs.base_Base.{WhereSound};
ghost use Rattle.ctr_pvs.specs.record_effects_States.{area_in};
ghost use Rattle.ctr_pvs.specs.record_effects_Standing.{IsDatabaseState};
ghost use Rattle.ctr_pvs.specs.walk_OneRecord.{HasRoomForOne};
ghost use Rattle.ctr_pvs.specs.walk_Damage.{ReadsPages};
ghost use Rattle.ctr_clean.specs.page_turns_Rooms.{AddsItems};
ghost use Rattle.ctr_clean.specs.page_turns_Turns.{Turns};
ghost use Rattle.ctr_emptying.specs.Emptying.{next_emptied, UnlinksRowsAt};
ghost use Rattle.ctr_emptying.specs.Looking.{FrontSaid};

use crate::emptied::Emptied;
use crate::heads::is_settled_page;
use ctr_clean::{a_table_can_be_linked_to, a_turn_goes_on, unlink};
use ctr_cursor::first_page;
use ctr_disk::{Disk, StoreFault};
use ctr_page::Chain;
use ctr_pvs::{Origin, Store};
use ctr_rec::PageNo;

/// The first page of a bucket, where all heads on it are committed.
fn settled_front<D: Disk, O: Origin>(
    store: &mut Store<D, O>,
    entry: u8,
    bucket: u8,
) -> Result<Option<PageNo>, StoreFault>
    requires going { store.old.stopped ≡ false }
    requires there { (entry < 32) × (bucket < 8) }
    ensures tells { WhereSound O.first D.Disk (IfOk result (FrontSaid store.old.now.tables (area_in store.old.now) entry bucket)) }
    ensures inside { IfOk result (λ found. IfSome found (λ p. p < store.old.now.counted)) }
    ensures leaves { ReadsPages O.first D.Disk store.old store.new result }
    ensures refused { WhereSound O.first D.Disk (IsDatabaseState store.old.now → IfErr result (λ f. f ≡ Fault)) }
{
    let found = match first_page(store, Chain::Rows { entry, bucket }) {
        Err(fault) => return Err(fault),
        Ok(found) => found,
    };
    let Some(p) = found else {
        return Ok(None);
    };
    match is_settled_page(store, p) {
        Err(fault) => Err(fault),
        Ok(true) => Ok(Some(p)),
        Ok(false) => Ok(None),
    }
}

/// Takes the first page of a bucket of a dead table from it, where it holds no head of an open or aborted transaction, by one record, which isn't
/// hardened yet. It takes no memory.
pub fn unlink_rows_at<D: Disk, O: Origin>(
    store: &mut Store<D, O>,
    entry: u8,
    bucket: u8,
) -> Result<Emptied, StoreFault>
    requires room { HasRoomForOne 0 1 store.old }
    requires there { (entry < 32) × (bucket < 8) }
    // It logs one record, or reads pages.
    ensures turns { Turns O.first D.Disk store.old store.new result }
    ensures numbers { IfOk result (λ t. store.new.next ≡ next_emptied t store.old.next) }
    // At most one item is added to the tables and no transaction, and as many pages are counted.
    ensures left { OnOk result (AddsItems 1 store.old.meta store.new.meta) }
    ensures counted { OnOk result (store.new.now.counted ≡ store.old.now.counted) }
    // That is the action, which owes nothing more; or no page may leave the bucket.
    ensures cleans { WhereSound O.first D.Disk (IsDatabaseState store.old.now → ((area_in store.old.now).title entry).state ≡ 2
        → IfOk result (UnlinksRowsAt entry bucket store.old.now store.new.now)) }
    // It is refused for no other cause than that the disk failed.
    ensures refused { WhereSound O.first D.Disk (IsDatabaseState store.old.now → ((area_in store.old.now).title entry).state ≡ 2 → IfErr result (λ f. f ≡ Fault)) }
{
    a_table_can_be_linked_to();
    a_turn_goes_on::<D, Option<PageNo>, Emptied>();
    a_turn_goes_on::<D, (), Emptied>();
    match settled_front(store, entry, bucket) {
        Err(fault) => Err(fault),
        Ok(None) => Ok(Emptied::Nothing),
        Ok(Some(p)) => match unlink(store, p, Chain::Rows { entry, bucket }) {
            Err(fault) => Err(fault),
            Ok(()) => Ok(Emptied::OneRecord),
        },
    }
}
