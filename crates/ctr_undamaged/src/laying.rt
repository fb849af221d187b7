// What is laid over a place of a table: it has its place there, and its record is laid as its action.
ghost use Rattle.std.specs.Prelude.{◌≡◌, ℕ};
ghost use Rattle.ctr_heap.specs.redo_States.{State};
ghost use Rattle.ctr_page.specs.declared.rows.Place.{Place};
ghost use Rattle.ctr_page.specs.declared.rows.RowSlot.{RowSlot};
ghost use Rattle.ctr_page.specs.declared.rows.VersionEntry.{VersionEntry};
ghost use Rattle.ctr_heap.specs.area_Sound.{IsAmong};
ghost use Rattle.ctr_heap.specs.area_Chains.{slot_places, older_places};
ghost use Rattle.ctr_heap.specs.record_effects_States.{pages_in, area_in, IsWholePage};
ghost use Rattle.ctr_revert.specs.record_effects_Standing.{IsDatabaseState};
ghost use Rattle.ctr_heap.specs.ctr_passed.Laid.{width_in};
ghost use Rattle.ctr_heap.specs.ctr_passed.Logged.{IsSlotOf, IsOlderOf, PutsSlot, PutsOlder};
ghost use Rattle.ctr_heap.specs.Writing.{slot_width, row_record, HasPlaceFor};
ghost use Rattle.ctr_chain.specs.ctr_pvs.Writing.{entry_width, keep_record, HasPlaceOfVersion};

use crate::places::a_place_of_a_table_fits;

/// A slot that is well made by the columns of a table is as wide as its rows, has its place wherever the table has one, and a Row
/// that lays it there puts it; so what the table owes is enough for that record to be laid as its action.
pub fn a_slot_is_put_at_its_place()
    ensures width { (s : State) (e : ℕ) (slot : RowSlot) → IsSlotOf s.counted ((area_in s).title e).columns slot → slot_width slot ≡ width_in (area_in s) e }
    ensures place { (s : State) (e : ℕ) (at : Place) (slot : RowSlot) → IsDatabaseState s → IsAmong at (slot_places (area_in s) e)
        → IsSlotOf s.counted ((area_in s).title e).columns slot → IsWholePage at.page s → HasPlaceFor (pages_in s) at slot }
    ensures puts { (s : State) (x over e : ℕ) (at : Place) (slot : RowSlot) → IsSlotOf s.counted ((area_in s).title e).columns slot
        → IsWholePage at.page s → PutsSlot (row_record x over at slot) e at slot s }
{
    a_place_of_a_table_fits();
}

/// So it is of a version entry, and of a Keep.
pub fn a_version_is_put_at_its_place()
    ensures width { (s : State) (e : ℕ) (older : VersionEntry) → IsOlderOf s.counted ((area_in s).title e).columns older → entry_width older ≡ width_in (area_in s) e }
    ensures place { (s : State) (e : ℕ) (at : Place) (older : VersionEntry) → IsDatabaseState s → IsAmong at (older_places (area_in s) e)
        → IsOlderOf s.counted ((area_in s).title e).columns older → IsWholePage at.page s → HasPlaceOfVersion (pages_in s) at older }
    ensures puts { (s : State) (x e : ℕ) (at : Place) (older : VersionEntry) → IsOlderOf s.counted ((area_in s).title e).columns older
        → IsWholePage at.page s → PutsOlder (keep_record x at older) e at older s }
{
    a_place_of_a_table_fits();
}
