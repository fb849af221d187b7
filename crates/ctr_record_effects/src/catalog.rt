// Records on tables.
ghost use Rattle.std.specs.Prelude.{◌≡◌, ◌≢◌, ◌<◌, ◌≤◌, ◌/◌, ◌+◌, ◌^◌, ℕ, List, length};
ghost use Rattle.ctr_area.specs.types_Column.{Column};
ghost use Rattle.ctr_area.specs.ctr_value.Columns.{ColumnsFit};
ghost use Rattle.ctr_redo.specs.States.{State, step};
ghost use Rattle.ctr_area.specs.Changes.{with_title, new_title, empty_chains, ChangesEntry};
ghost use Rattle.ctr_record_effects.specs.States.{area_in, IsWholePage};
ghost use Rattle.ctr_record_effects.specs.Changing.{create_record, uncreate_record, drop_record, undrop_record};

/// A Create: the entry has the title of the new table and no page; other entries and what stands on their pages stay.
pub fn a_new_table_has_its_entry()
    ensures { (s : State) (x e : ℕ) (name : List ℕ) (columns : List Column) → IsWholePage (1 + e / 16) s → e < 32
        → x < 256 ^ 8 → length name ≤ 16 → ColumnsFit columns
        → ChangesEntry e (new_title x name columns) empty_chains (area_in s) (area_in (step (create_record x e name columns) s)) }
{}

/// An Uncreate of an entry that isn't free: it is dead, and nothing else changes.
pub fn an_uncreate_changes_its_title()
    ensures { (s : State) (e : ℕ) → IsWholePage (1 + e / 16) s → e < 32 → ((area_in s).title e).state ≢ 0
        → area_in (step (uncreate_record e) s) ≡ with_title e (record ((area_in s).title e) { state = 2 }) (area_in s) }
{}

/// A Drop: the table is dropped by the transaction, and nothing else changes.
pub fn a_drop_changes_its_title()
    ensures { (s : State) (x e : ℕ) → IsWholePage (1 + e / 16) s → e < 32 → x < 256 ^ 8
        → area_in (step (drop_record x e) s) ≡ with_title e (record ((area_in s).title e) { dropper = x }) (area_in s) }
{}

/// An Undrop: nobody has dropped it, and nothing else changes.
pub fn an_undrop_changes_its_title()
    ensures { (s : State) (e : ℕ) → IsWholePage (1 + e / 16) s → e < 32
        → area_in (step (undrop_record e) s) ≡ with_title e (record ((area_in s).title e) { dropper = 0 }) (area_in s) }
{}
