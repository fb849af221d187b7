// A step at an entry of the catalog: a dropped table is made dead.
ghost use Rattle.std.specs.Prelude.{◌≡◌, ◌<◌, false, IfOk, IfErr, OnOk};
ghost use Rattle.ctr_disk.specs.declared.fault.StoreFault.TheVariants.{Fault};
ghost use Rattle.ctr_pvs.specs.base_Base.{WhereSound};
ghost use Rattle.ctr_pvs.specs.redo_States.{State};
ghost use Rattle.ctr_record_effects.specs.States.{area_in};
ghost use Rattle.ctr_record_effects.specs.Standing.{IsDatabaseState};
ghost use Rattle.ctr_pvs.specs.walk_OneRecord.{HasRoomForOne};
ghost use Rattle.ctr_pvs.specs.walk_Damage.{ReadsPages};
ghost use Rattle.ctr_dead.specs.page_turns_Turns.{Turns};
ghost use Rattle.ctr_dead.specs.page_turns_Rooms.{AddsItems};
ghost use Rattle.ctr_titles.specs.Titles.{IsTitle};
ghost use Rattle.ctr_clean.specs.Steps.{Locks, next_stepped};
ghost use Rattle.ctr_clean.specs.Tables.{DiesAt, MakesDeadAt};

use crate::choosing::passes;
use crate::steps::Step;
use ctr_dead::{a_turn_goes_on, make_dead, room_is_still_there};
use ctr_disk::{Disk, StoreFault};
use ctr_meta::Meta;
use ctr_page::EntryState;
use ctr_pvs::{Origin, Store};
use ctr_titles::{TitleRead, title_at};
use ctr_types::Xid;

/// Whether the table of an entry dies, by its title.
fn dies(meta: &Meta, low: Xid, entry: u8, title: &TitleRead) -> bool
    requires there { entry < 32 }
    ensures { (s : State) → meta.now.tables ≡ s.tables → IsTitle ((area_in s).title entry) title.now → DiesAt low entry s result }
{
    title.state == EntryState::LIVE && passes(meta, low, title.dropper)
}

/// The same of a store.
fn dies_at<D: Disk, O: Origin>(
    store: &mut Store<D, O>,
    low: Xid,
    entry: u8,
) -> Result<bool, StoreFault>
    requires going { store.old.stopped ≡ false }
    requires there { entry < 32 }
    ensures chooses { WhereSound O.first D.Disk (IfOk result (DiesAt low entry store.old.now)) }
    ensures leaves { ReadsPages O.first D.Disk store.old store.new result }
    ensures refused { WhereSound O.first D.Disk (IsDatabaseState store.old.now → IfErr result (λ f. f ≡ Fault)) }
{
    match title_at(store, entry) {
        Err(fault) => Err(fault),
        Ok(title) => Ok(dies(store.meta(), low, entry, &title)),
    }
}

/// Makes the live table of an entry of the catalog dead whose drop everybody sees, by one record, which isn't hardened yet. It takes no memory.
pub fn make_dead_at<D: Disk, O: Origin>(
    store: &mut Store<D, O>,
    low: Xid,
    entry: u8,
) -> Result<Step, StoreFault>
    requires room { HasRoomForOne 0 0 store.old }
    requires there { entry < 32 }
    // It logs one record, or reads a page.
    ensures turns { Turns O.first D.Disk store.old store.new result }
    ensures numbers { IfOk result (λ t. store.new.next ≡ next_stepped t store.old.next) }
    // No transaction and no item is added to the tables, and as many pages are counted.
    ensures left { OnOk result (AddsItems 0 store.old.meta store.new.meta) }
    ensures counted { OnOk result (store.new.now.counted ≡ store.old.now.counted) }
    // The table is dead, whatever is locked; or it may not be made dead.
    ensures cleans { (locks : Locks) → WhereSound O.first D.Disk (IsDatabaseState store.old.now → IfOk result (MakesDeadAt low locks entry store.old.now store.new.now)) }
    // It is refused for no other cause than that the disk failed.
    ensures refused { WhereSound O.first D.Disk (IsDatabaseState store.old.now → IfErr result (λ f. f ≡ Fault)) }
{
    a_turn_goes_on::<D, bool, Step>();
    a_turn_goes_on::<D, (), Step>();
    room_is_still_there::<D>();
    match dies_at(store, low, entry) {
        Err(fault) => Err(fault),
        Ok(false) => Ok(Step::Nothing),
        Ok(true) => match make_dead(store, entry) {
            Err(fault) => Err(fault),
            Ok(()) => Ok(Step::Cleaned),
        },
    }
}
