// At an entry of the catalog.
ghost use Rattle.std.specs.Prelude.{◌≡◌, ◌<◌, ℕ, IfOk, IfErr};
ghost use Rattle.ctr_disk.specs.declared.fault.StoreFault.TheVariants.{Fault};
ghost use Rattle.ctr_walk.specs.base_Base.{WhereSound};
ghost use Rattle.ctr_walk.specs.record_effects_States.{area_in};
ghost use Rattle.ctr_walk.specs.record_effects_Standing.{IsDatabaseState};
ghost use Rattle.ctr_emptying.specs.clean_Steps.{Locks};
ghost use Rattle.ctr_emptying.specs.cursor_Position.TheVariants.{Entry};
ghost use Rattle.ctr_cleaner.specs.Finding.{IsFreeRow, HasNothingAt, HasNothingInDead};
ghost use Rattle.ctr_cleaner.specs.Turning.{Heeded, MayAll, heeding, HasRoomFor};
ghost use Rattle.ctr_cleaner.specs.Parts.{Tries, DidAt};

use crate::done::{Done, MayEmpty, stepped};
use crate::emptying::empty_entry;
use crate::going::{a_part_goes_on, a_part_reads, a_step_is_a_part};
use crate::states::is_dead;
use ctr_disk::{Disk, StoreFault};
use ctr_emptying::make_dead_at;
use ctr_locking::{TitleRead, title_at};
use ctr_types::Xid;
use ctr_walk::{Origin, Store};

/// At an entry, where it is dead.
fn clean_dead<D: Disk, O: Origin>(
    store: &mut Store<D, O>,
    entry: u8,
    may: MayEmpty,
) -> Result<Done, StoreFault>
    requires room { HasRoomFor may.unlink store.old }
    requires there { entry < 32 }
    ensures tries { Tries may.unlink O.first D.Disk store.old store.new result }
    ensures cleans { (h : Heeded) → h.may ≡ may → WhereSound O.first D.Disk (IsDatabaseState store.old.now
        → IfOk result (DidAt h (Entry entry) (MayAll may → ((area_in store.old.now).title entry).state ≡ 2 → HasNothingInDead entry store.old.now)
        store.old.now store.new.now)) }
    ensures refused { WhereSound O.first D.Disk (IsDatabaseState store.old.now → IfErr result (λ f. f ≡ Fault)) }
{
    a_part_reads::<D, TitleRead>();
    match title_at(store, entry) {
        Err(fault) => Err(fault),
        Ok(title) => {
            if is_dead(&title) {
                empty_entry(store, entry, may)
            } else {
                Ok(None)
            }
        }
    }
}

/// At an entry: its table dies, where everybody sees its drop; of one that is dead a page leaves its chain, or it is freed, where they may.
pub(crate) fn clean_entry<D: Disk, O: Origin>(
    store: &mut Store<D, O>,
    low: Xid,
    entry: u8,
    may: MayEmpty,
) -> Result<Done, StoreFault>
    requires room { HasRoomFor may.unlink store.old }
    requires there { entry < 32 }
    ensures tries { Tries may.unlink O.first D.Disk store.old store.new result }
    ensures cleans { (locks : Locks) (spared : ℕ) → WhereSound O.first D.Disk (IsDatabaseState store.old.now
        → IfOk result (DidAt (heeding low locks spared may) (Entry entry)
        (MayAll may → HasNothingAt (IsFreeRow locks store.old.now) low (Entry entry) store.old.now) store.old.now store.new.now)) }
    ensures refused { WhereSound O.first D.Disk (IsDatabaseState store.old.now → IfErr result (λ f. f ≡ Fault)) }
{
    a_step_is_a_part::<D>();
    a_part_goes_on::<D>();
    match stepped(make_dead_at(store, low, entry)) {
        Err(fault) => Err(fault),
        Ok(None) => clean_dead(store, entry, may),
        Ok(Some(dealt)) => Ok(Some(dealt)),
    }
}
