// The searches through the versions of a row. A call does nothing: what it ensures is the law.
ghost use Rattle.std.specs.Prelude.{◌≡◌, ℕ, Bool, ⊤};
ghost use Rattle.ctr_page.specs.declared.rows.Place.{Place};
ghost use Rattle.ctr_heap.specs.redo_States.{State};
ghost use Rattle.ctr_heap.specs.area_Chains.{slot_places};
ghost use Rattle.ctr_heap.specs.area_Sound.{IsAmong, IsUsedSlot};
ghost use Rattle.ctr_heap.specs.record_effects_States.{pages_in, area_in};
ghost use Rattle.ctr_revert.specs.record_effects_Standing.{IsDatabaseState};
ghost use Rattle.ctr_chain.specs.Seeking.{sought_at, xids_found};
ghost use Rattle.ctr_chain.specs.Visible.{EndsReading};
ghost use Rattle.ctr_revert.specs.Reverting.{revert_check};
ghost use Rattle.ctr_undamaged.specs.Undamaged.{MeetsNoDamage};

/// In a state that may be a database's the search through the versions of the row at a slot of a table meets no damage, whichever
/// version is sought: for whose it is, and for the row that is read. The slot may be a free one.
pub fn a_row_is_read_without_damage()
    ensures whose { (s : State) (sought : ℕ → Bool) (e : ℕ) (at : Place) → IsDatabaseState s → IsAmong at (slot_places (area_in s) e)
        → MeetsNoDamage (λ r. r ≡ xids_found (sought_at sought s.counted (pages_in s) at)) }
    ensures row { (s : State) (sought : ℕ → Bool) (e : ℕ) (at : Place) → IsDatabaseState s → IsAmong at (slot_places (area_in s) e)
        → MeetsNoDamage (EndsReading (sought_at sought s.counted (pages_in s) at)) }
{}

/// Nor is any met where a used slot is to lose its head: in the slot, and in the version entry behind it.
pub fn a_head_is_taken_without_damage()
    ensures { (s : State) (e : ℕ) (at : Place) → IsDatabaseState s → IsUsedSlot (area_in s) e at
        → MeetsNoDamage {T = ⊤} (λ r. r ≡ revert_check s.counted (pages_in s) at) }
{}
