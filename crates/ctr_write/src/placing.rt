// A row that has no slot of its key yet is written.
ghost use Rattle.std.specs.Prelude.{◌≡◌, ◌≢◌, ◌<◌, ℕ, length, IfOk, IfErr};
ghost use Rattle.ctr_disk.specs.declared.fault.StoreFault.TheVariants.{Fault};
ghost use Rattle.ctr_base.specs.Base.{WhereSound};
ghost use Rattle.ctr_page.specs.Making.{IsVersion};
ghost use Rattle.ctr_extend.specs.record_effects_States.{area_in};
ghost use Rattle.ctr_extend.specs.walk_OneRecord.{HasRoomForOne};
ghost use Rattle.ctr_extend.specs.page_turns_Turns.{Turns};
ghost use Rattle.ctr_write.specs.Stages.{IsCountedWrite, LeavesItem, MovesWrite};
ghost use Rattle.ctr_write.specs.Steps.{MayPlace, EndsPlacing};

use crate::extending::more;
use crate::laying::lay_first;
use crate::stages::Written;
use ctr_base::Origin;
use ctr_disk::{Disk, StoreFault};
use ctr_extend::{
    OnWay, Store, a_bucket_search_meets_no_damage, a_turn_goes_on, free_slot, room_is_still_there,
};
use ctr_page::{Chain, Place, Version, bucket_of};
use ctr_types::Xid;

/// A row that has no slot is written in a free one of its key's bucket; where none is free, a page more is wanted there.
pub(crate) fn place_first<D: Disk, O: Origin>(
    store: &mut Store<D, O>,
    x: Xid,
    entry: u8,
    key: i64,
    head: &Version,
) -> Result<Written, StoreFault>
    requires room { HasRoomForOne 0 1 store.old }
    requires there { entry < 32 }
    requires fits { IsVersion (length head.now.payload) head.now }
    ensures turns { Turns O.first D.Disk store.old store.new result }
    ensures inside { IfOk result (λ w. IsCountedWrite w store.new.now.counted) }
    ensures left { IfOk result (λ w. LeavesItem 1 w store.old.meta store.new.meta) }
    ensures numbers { IfOk result (λ w. MovesWrite w store.old store.new) }
    ensures steps { WhereSound O.first D.Disk (MayPlace (record { x = x; entry = entry; key = key; head = head.now }) store.old.now
        → IfOk result (EndsPlacing (record { x = x; entry = entry; key = key; head = head.now }) store.old.now store.new.now)) }
    ensures refused { WhereSound O.first D.Disk (MayPlace (record { x = x; entry = entry; key = key; head = head.now }) store.old.now → IfErr result (λ e. e ≡ Fault)) }
{
    a_bucket_search_meets_no_damage();
    a_turn_goes_on::<D, Option<Place>, Written>();
    room_is_still_there::<D>();
    let bucket = bucket_of(key);
    let free = match free_slot(store, entry, bucket) {
        Err(fault) => return Err(fault),
        Ok(free) => free,
    };
    match free {
        None => more(store, x, Chain::Rows { entry, bucket }, OnWay::Wanted),
        Some(place) => lay_first(store, x, place, key, head),
    }
}
