// The searches along the chains of a table. A call does nothing: what it ensures is the law.
ghost use Rattle.std.specs.Prelude.{◌≡◌, ◌<◌, ℕ, ⊤, Some};
ghost use Rattle.ctr_page.specs.declared.rows.Place.{Place};
ghost use Rattle.ctr_heap.specs.redo_States.{State};
ghost use Rattle.ctr_heap.specs.area_Areas.{Area};
ghost use Rattle.ctr_heap.specs.area_Chains.{slot_places, older_places};
ghost use Rattle.ctr_heap.specs.area_Sound.{IsAmong};
ghost use Rattle.ctr_heap.specs.record_effects_States.{pages_in, area_in};
ghost use Rattle.ctr_revert.specs.record_effects_Standing.{IsDatabaseState};
ghost use Rattle.ctr_heap.specs.declared.slots.SlotSought.{SlotSought};
ghost use Rattle.ctr_heap.specs.Finding.{EndsBucket, FindsFree};
ghost use Rattle.ctr_chain.specs.ctr_pvs.Along.{EndsVersions};
ghost use Rattle.ctr_chain.specs.ctr_pvs.Lending.{VersionSaidAt};
ghost use Rattle.ctr_chain.specs.ctr_pvs.Table.{TableSaid};
ghost use Rattle.ctr_chain.specs.ctr_pvs.Writing.{drop_check};
ghost use Rattle.ctr_undamaged.specs.Undamaged.{MeetsNoDamage};

/// In a state that may be a database's the search of a bucket meets no damage, for a key and for a free slot: of one of the 32
/// entries, and of any bucket, which has no page where the entry is free.
pub fn a_bucket_search_meets_no_damage()
    ensures { (s : State) (e bucket : ℕ) (sought : SlotSought) → IsDatabaseState s → e < 32 → MeetsNoDamage (EndsBucket s.counted (pages_in s) e bucket sought) }
{}

/// Nor does the search for a free version entry of one of the 32 entries.
pub fn a_search_for_room_meets_no_damage()
    ensures { (s : State) (e : ℕ) → IsDatabaseState s → e < 32 → MeetsNoDamage (EndsVersions s.counted (pages_in s) e) }
{}

/// Nor is any met on the way to a version entry of a table: to one that is read, and to one that is freed.
pub fn a_version_entry_is_read_without_damage()
    ensures read { (s : State) (e : ℕ) (at : Place) → IsDatabaseState s → IsAmong at (older_places (area_in s) e) → MeetsNoDamage (VersionSaidAt s.counted (pages_in s) at) }
    ensures freed { (s : State) (e : ℕ) (at : Place) → IsDatabaseState s → IsAmong at (older_places (area_in s) e)
        → MeetsNoDamage {T = ⊤} (λ r. r ≡ drop_check s.counted (pages_in s) at) }
{}

/// Nor where a page's table is asked for, by a place of the table: on a page of rows, and on one of versions.
pub fn a_table_is_known_without_damage()
    ensures rows { (s : State) (e : ℕ) (at : Place) → IsDatabaseState s → IsAmong at (slot_places (area_in s) e) → MeetsNoDamage (TableSaid 1 s.counted (pages_in s) at.page) }
    ensures versions { (s : State) (e : ℕ) (at : Place) → IsDatabaseState s → IsAmong at (older_places (area_in s) e) → MeetsNoDamage (TableSaid 2 s.counted (pages_in s) at.page) }
{}

/// A free slot that the search of a bucket answers is a place of the table, as these laws want it.
pub fn a_free_slot_is_the_tables()
    ensures { (area : Area) (e bucket : ℕ) (at : Place) → FindsFree area e bucket (Some at) → IsAmong at (slot_places area e) }
{}
