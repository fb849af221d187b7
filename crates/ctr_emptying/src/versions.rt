// The first page of versions of a table that is dead.
ghost use Rattle.std.specs.Prelude.{◌≡◌, ◌<◌, IfOk, IfErr, OnOk};
ghost use Rattle.ctr_disk.specs.declared.fault.StoreFault.TheVariants.{Fault};
ghost use Rattle.ctr_pvs.specs.base_Base.{WhereSound};
ghost use Rattle.ctr_pvs.specs.record_effects_Standing.{IsDatabaseState};
ghost use Rattle.ctr_pvs.specs.walk_OneRecord.{HasRoomForOne};
ghost use Rattle.ctr_clean.specs.page_turns_Rooms.{AddsItems};
ghost use Rattle.ctr_clean.specs.page_turns_Turns.{Turns};
ghost use Rattle.ctr_emptying.specs.Emptying.{next_emptied, UnlinksVersionsAt};

use crate::emptied::Emptied;
use crate::left::{Left, pages_left};
use ctr_clean::{a_turn_goes_on, unlink};
use ctr_disk::{Disk, StoreFault};
use ctr_page::Chain;
use ctr_pvs::{Origin, Store};

/// Takes the first page of versions of a table from its chain, where no bucket has a page, by one record, which isn't hardened yet. It takes
/// no memory.
pub fn unlink_versions_at<D: Disk, O: Origin>(
    store: &mut Store<D, O>,
    entry: u8,
) -> Result<Emptied, StoreFault>
    requires room { HasRoomForOne 0 1 store.old }
    requires there { entry < 32 }
    // It logs one record, or reads pages.
    ensures turns { Turns O.first D.Disk store.old store.new result }
    ensures numbers { IfOk result (λ t. store.new.next ≡ next_emptied t store.old.next) }
    // At most one item is added to the tables and no transaction, and as many pages are counted.
    ensures left { OnOk result (AddsItems 1 store.old.meta store.new.meta) }
    ensures counted { OnOk result (store.new.now.counted ≡ store.old.now.counted) }
    // That is the action, which owes nothing more, where no bucket has a page; or a bucket has, or no page may leave the chain.
    ensures cleans { WhereSound O.first D.Disk (IsDatabaseState store.old.now → IfOk result (UnlinksVersionsAt entry store.old.now store.new.now)) }
    // It is refused for no other cause than that the disk failed.
    ensures refused { WhereSound O.first D.Disk (IsDatabaseState store.old.now → IfErr result (λ f. f ≡ Fault)) }
{
    a_turn_goes_on::<D, Left, Emptied>();
    a_turn_goes_on::<D, (), Emptied>();
    match pages_left(store, entry) {
        Err(fault) => Err(fault),
        Ok(Left::Rows) => Ok(Emptied::Nothing),
        Ok(Left::NoPage) => Ok(Emptied::Nothing),
        Ok(Left::Versions(p)) => match unlink(store, p, Chain::Versions { entry }) {
            Err(fault) => Err(fault),
            Ok(()) => Ok(Emptied::OneRecord),
        },
    }
}
