// The room that a turn has, and what it leaves.
ghost use Rattle.std.specs.Prelude.{◌≡◌, ◌+◌, ℕ, false, Ok, length};
ghost use Rattle.ctr_meta.specs.declared.items.Wanted.{Wanted};
ghost use Rattle.ctr_meta.specs.Tables.{Tables};
ghost use Rattle.ctr_meta.specs.Needs.{item_need};
ghost use Rattle.ctr_meta.specs.Effects.{without_item};
ghost use Rattle.ctr_walk.specs.store_Store.{View, KeepsRoom};
ghost use Rattle.ctr_walk.specs.OneRecord.{HasRoomForOne};

use ctr_disk::Disk;

/// Behind pages that were read there is room for a record as before; and where there is room for an item, there is for a record
/// without one.
pub fn room_is_still_there<D: Disk>()
    ensures behind { (opens items : ℕ) (a b : View D) → KeepsRoom a b → b.stopped ≡ false → HasRoomForOne opens items a → HasRoomForOne opens items b }
    ensures less { (opens items : ℕ) (v : View D) → HasRoomForOne opens (items + 1) v → HasRoomForOne opens items v }
{}

/// A record that needs an item of the secondary log, and takes it away, leaves one item less, whose room is to be had again.
pub fn an_item_goes()
    ensures { (w : Wanted) (t : Tables) → item_need w t ≡ Ok tt → length (without_item w t).items + 1 ≡ length t.items }
{}
