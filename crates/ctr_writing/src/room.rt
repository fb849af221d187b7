// Room for an item of the secondary log, which the next turn of a session's Write may add.
ghost use Rattle.std.specs.Prelude.{◌≡◌, ◌<◌, ◌==◌, ℕ, false, if◌then◌else◌};
ghost use Rattle.ctr_meta.specs.Kept.{TablesKept};
ghost use Rattle.ctr_store.specs.Store.{View};
ghost use Rattle.ctr_looks.specs.walk_OneRecord.{HasRoomForOne};
ghost use Rattle.ctr_looks.specs.txn_Held.{TxnsHeld, IsOneOfEight, run_of, txn_of};
ghost use Rattle.ctr_looks.specs.txn_Rooms.{HasItemRoom};
ghost use Rattle.ctr_looks.specs.ctr_write.declared.stages.Stage.{Stage as At};
ghost use Rattle.ctr_looks.specs.ctr_write.declared.stages.Written.TheVariants.{On};
ghost use Rattle.ctr_looks.specs.ctr_write.Stages.{LeavesItem, stage_items};
ghost use Rattle.ctr_looks.specs.page_turns_Rooms.{AddsItems};
ghost use Rattle.ctr_looks.specs.ctr_session_world.Ready.{StaysUnasked};
ghost use Rattle.ctr_looks.specs.Granting.{HasItem};
ghost use Rattle.ctr_writing.specs.Rows.{HasStageRoom};

use ctr_disk::Disk;
use ctr_looks::extend::OnWay;
use ctr_looks::writes::Stage;
use ctr_looks::{
    Txns, room_that_is_kept_is_there, the_room_of_all_stays, the_run_is_of_the_sessions,
};

// Whether the next turn may add an item.
fn wants_item(stage: Stage) -> bool
    ensures { (if result then 1 else 0) ≡ stage_items stage }
{
    match stage {
        Stage::Looking => true,
        Stage::Extending { way, .. } => match way {
            OnWay::Wanted => true,
            OnWay::Taken(_) => false,
            OnWay::Made { .. } => false,
        },
        Stage::Kept(_) => true,
    }
}

/// Behind a turn that goes on, room is kept for as many items as the session's next turn may add. It takes no memory.
pub(crate) fn keep_room(txns: &mut Txns, s: u8, stage: Stage)
    requires one { IsOneOfEight s }
    ensures run { (was : At) → HasStageRoom s txns.old was → run_of txns.new ≡ run_of txns.old }
    ensures numbers { txns.new.numbers ≡ txns.old.numbers }
    ensures kept { (was : At) → HasStageRoom s txns.old was → HasStageRoom s txns.new stage }
    ensures stays { (was : At) → HasStageRoom s txns.old was → ((q : ℕ) → 0 < q → (q == s) ≡ false → txn_of q txns.new ≡ txn_of q txns.old) × StaysUnasked s txns.old txns.new }
    ensures items { (was : At) (k l : TablesKept) → HasStageRoom s txns.old was → LeavesItem (stage_items was) (On stage) k l → HasItemRoom txns.old k → HasItemRoom txns.new l }
{
    the_run_is_of_the_sessions();
    the_room_of_all_stays();
    txns.counts_sessions();
    txns.keep_item(s, wants_item(stage));
}

/// In the room that is kept for all there is that of a session's next turn.
pub(crate) fn there_is_room_for_a_turn<D: Disk>()
    ensures { (s : ℕ) (txns : TxnsHeld) (stage : At) (v : View D) → HasStageRoom s txns stage → HasItemRoom txns v.meta → HasRoomForOne 0 0 v → HasRoomForOne 0 (stage_items stage) v }
{
    room_that_is_kept_is_there();
}

/// An item was added, for which room was kept for a session; none is any more. It takes no memory.
pub(crate) fn spend_room(txns: &mut Txns, s: u8)
    requires one { IsOneOfEight s }
    ensures run { HasItem s txns.old → run_of txns.new ≡ run_of txns.old }
    ensures numbers { txns.new.numbers ≡ txns.old.numbers }
    ensures stays { HasItem s txns.old → ((q : ℕ) → 0 < q → (q == s) ≡ false → txn_of q txns.new ≡ txn_of q txns.old) × StaysUnasked s txns.old txns.new }
    ensures items { (k l : TablesKept) → HasItem s txns.old → AddsItems 1 k l → HasItemRoom txns.old k → HasItemRoom txns.new l }
{
    the_run_is_of_the_sessions();
    txns.counts_sessions();
    txns.keep_item(s, false);
}

/// In the room that is kept for all there is that of an item of a session's.
pub(crate) fn there_is_room_for_an_item<D: Disk>()
    ensures { (s : ℕ) (txns : TxnsHeld) (v : View D) → HasItem s txns → HasItemRoom txns v.meta → HasRoomForOne 0 0 v → HasRoomForOne 0 1 v }
{
    room_that_is_kept_is_there();
}
