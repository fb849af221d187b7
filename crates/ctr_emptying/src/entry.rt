// The entry of a table that is dead.
ghost use Rattle.std.specs.Prelude.{◌≡◌, ◌<◌, false, IfOk, IfErr, OnOk};
ghost use Rattle.ctr_disk.specs.declared.fault.StoreFault.TheVariants.{Fault};
ghost use Rattle.ctr_pvs.specs.base_Base.{WhereSound};
ghost use Rattle.ctr_meta.specs.Tables.{is_in};
ghost use Rattle.ctr_pvs.specs.record_effects_Standing.{IsDatabaseState};
ghost use Rattle.ctr_pvs.specs.walk_Damage.{ReadsPages};
ghost use Rattle.ctr_pvs.specs.walk_OneRecord.{HasRoomForOne};
ghost use Rattle.ctr_clean.specs.page_turns_Rooms.{AddsItems};
ghost use Rattle.ctr_clean.specs.page_turns_Turns.{Turns};
ghost use Rattle.ctr_emptying.specs.Emptying.{next_emptied, FreesEntryAt};
ghost use Rattle.ctr_emptying.specs.Looking.{FreeingSaid};

use crate::emptied::Emptied;
use crate::left::{Left, pages_left};
use ctr_clean::{a_turn_goes_on, free_table, title_at};
use ctr_disk::{Disk, StoreFault};
use ctr_meta::Meta;
use ctr_page::EntryState;
use ctr_pvs::{Origin, Store};
use ctr_types::{Fate, Xid};

/// Whether a transaction is open; 0 is nobody's number.
fn is_open(meta: &Meta, x: Xid) -> bool
    ensures { result ≡ is_in x meta.now.tables.opens }
{
    let _next = meta.next();
    x != 0 && meta.fate(x) == Fate::Open
}

/// Whether an entry is dead, has no page, and was made by nobody who is open.
fn may_be_freed<D: Disk, O: Origin>(store: &mut Store<D, O>, entry: u8) -> Result<bool, StoreFault>
    requires going { store.old.stopped ≡ false }
    requires there { entry < 32 }
    ensures tells { WhereSound O.first D.Disk (IfOk result (FreeingSaid store.old.now entry)) }
    ensures leaves { ReadsPages O.first D.Disk store.old store.new result }
    ensures refused { WhereSound O.first D.Disk (IsDatabaseState store.old.now → IfErr result (λ f. f ≡ Fault)) }
{
    let title = match title_at(store, entry) {
        Err(fault) => return Err(fault),
        Ok(title) => title,
    };
    if title.state != EntryState::DEAD {
        return Ok(false);
    }
    if is_open(store.meta(), title.creator) {
        return Ok(false);
    }
    match pages_left(store, entry) {
        Err(fault) => Err(fault),
        Ok(Left::Rows) => Ok(false),
        Ok(Left::Versions(_)) => Ok(false),
        Ok(Left::NoPage) => Ok(true),
    }
}

/// Frees an entry of the catalog, where it is dead, has no page, and its creator isn't open, by one record, which isn't hardened yet. It takes no
/// memory.
pub fn free_entry_at<D: Disk, O: Origin>(
    store: &mut Store<D, O>,
    entry: u8,
) -> Result<Emptied, StoreFault>
    requires room { HasRoomForOne 0 0 store.old }
    requires there { entry < 32 }
    // It logs one record, or reads pages.
    ensures turns { Turns O.first D.Disk store.old store.new result }
    ensures numbers { IfOk result (λ t. store.new.next ≡ next_emptied t store.old.next) }
    // No transaction and no item is added to the tables, and as many pages are counted.
    ensures left { OnOk result (AddsItems 0 store.old.meta store.new.meta) }
    ensures counted { OnOk result (store.new.now.counted ≡ store.old.now.counted) }
    // That is the action, which owes nothing more, of an entry whose creator isn't open; or its creator is, or it may not be freed.
    ensures cleans { WhereSound O.first D.Disk (IsDatabaseState store.old.now → IfOk result (FreesEntryAt entry store.old.now store.new.now)) }
    // It is refused for no other cause than that the disk failed.
    ensures refused { WhereSound O.first D.Disk (IsDatabaseState store.old.now → IfErr result (λ f. f ≡ Fault)) }
{
    a_turn_goes_on::<D, bool, Emptied>();
    a_turn_goes_on::<D, (), Emptied>();
    match may_be_freed(store, entry) {
        Err(fault) => Err(fault),
        Ok(false) => Ok(Emptied::Nothing),
        Ok(true) => match free_table(store, entry) {
            Err(fault) => Err(fault),
            Ok(()) => Ok(Emptied::OneRecord),
        },
    }
}
