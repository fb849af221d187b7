// What a place of a table is on its page, and an entry on which chains may begin.
ghost use Rattle.std.specs.Prelude.{◌≡◌, ◌≢◌, ◌<◌, ◌≤◌, ◌+◌, ◌/◌, ℕ, length};
ghost use Rattle.ctr_heap.specs.redo_States.{State};
ghost use Rattle.ctr_page.specs.declared.rows.Place.{Place};
ghost use Rattle.ctr_page.specs.Places.{room_for};
ghost use Rattle.ctr_heap.specs.area_Sound.{IsAmong};
ghost use Rattle.ctr_heap.specs.area_Chains.{slot_places, older_places};
ghost use Rattle.ctr_heap.specs.area_Changes.{IsPlaceOf};
ghost use Rattle.ctr_heap.specs.area_Reading.{columns_on, width_on};
ghost use Rattle.ctr_heap.specs.record_effects_States.{pages_in, area_in, IsWholePage};
ghost use Rattle.ctr_revert.specs.record_effects_Standing.{IsDatabaseState};
ghost use Rattle.ctr_heap.specs.Writing.{HasTableParts};
ghost use Rattle.ctr_heap.specs.ctr_passed.Laid.{width_in, slot_size_in, older_size_in};

/// A place of a table lies on a counted page behind the catalog, which has room for it, and whose columns are those of the table: on a whole page a slot, or a version
/// entry, may be laid over it.
pub fn a_place_of_a_table_fits()
    ensures rows { (s : State) (e : ℕ) (at : Place) → IsDatabaseState s → IsAmong at (slot_places (area_in s) e)
        → (IsWholePage at.page s → IsPlaceOf 1 (pages_in s) at) × (width_on (pages_in s) at.page ≡ width_in (area_in s) e)
        × (columns_on (pages_in s) at.page ≡ ((area_in s).title e).columns)
        × (3 ≤ at.page) × (at.page < s.counted) × (at.slot < room_for (slot_size_in (area_in s) e)) }
    ensures versions { (s : State) (e : ℕ) (at : Place) → IsDatabaseState s → IsAmong at (older_places (area_in s) e)
        → (IsWholePage at.page s → IsPlaceOf 2 (pages_in s) at) × (width_on (pages_in s) at.page ≡ width_in (area_in s) e)
        × (columns_on (pages_in s) at.page ≡ ((area_in s).title e).columns)
        × (3 ≤ at.page) × (at.page < s.counted) × (at.slot < room_for (older_size_in (area_in s) e)) }
{}

/// Chains of pages may begin in an entry that isn't free: eight of rows, and one of versions.
pub fn a_table_can_be_linked_to()
    ensures parts { (s : State) (e : ℕ) → IsDatabaseState s → e < 32 → IsWholePage (1 + e / 16) s → ((area_in s).title e).state ≢ 0 → HasTableParts (pages_in s) e }
    ensures eight { (s : State) (e : ℕ) → ((area_in s).title e).state ≢ 0 → length ((area_in s).firsts e).buckets ≡ 8 }
{}
