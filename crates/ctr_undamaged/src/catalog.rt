// The searches of the catalog. A call does nothing: what it ensures is the law.
ghost use Rattle.std.specs.Prelude.{◌<◌, ℕ, Bool, Option};
ghost use Rattle.ctr_heap.specs.redo_States.{State};
ghost use Rattle.ctr_heap.specs.record_effects_States.{pages_in};
ghost use Rattle.ctr_revert.specs.record_effects_Standing.{IsDatabaseState};
ghost use Rattle.ctr_catalog.specs.Finding.{checks_at, EndsEntries, EndsEntry};
ghost use Rattle.ctr_catalog.specs.Free.{EndsCatalog};
ghost use Rattle.ctr_undamaged.specs.Undamaged.{MeetsNoDamage};

/// In a state that may be a database's no search of the catalog meets damage: for the entry of a name that is seen, whatever is
/// seen; for who changed one of the 32 entries; for a free one.
pub fn a_catalog_search_meets_no_damage()
    ensures named { (s : State) (sought : ℕ → Bool) → IsDatabaseState s → MeetsNoDamage (EndsEntries (checks_at s.counted (pages_in s)) sought) }
    ensures changed { (s : State) (who : Option ℕ) (e : ℕ) → IsDatabaseState s → e < 32 → MeetsNoDamage (EndsEntry (checks_at s.counted (pages_in s) e) who e) }
    ensures free { (s : State) → IsDatabaseState s → MeetsNoDamage (EndsCatalog s.counted (pages_in s)) }
{}
