// The columns of an entry of the catalog that passes its check.
ghost use Rattle.std.specs.Prelude.{◌≡◌, ◌≢◌, ◌≤◌, ◌+◌, ◌*◌, ℕ, List, Ok, length};
ghost use Rattle.ctr_types.specs.declared.value.Column.{Column};
ghost use Rattle.ctr_record_effects.specs.value_Columns.{ColumnsFit};
ghost use Rattle.ctr_record_effects.specs.value_Payload.{IsKeyed};
ghost use Rattle.ctr_record_effects.specs.page_table_TheConstants.{ENTRY_SIZE};
ghost use Rattle.ctr_record_effects.specs.page_Columns.{entry_at, columns_in};
ghost use Rattle.ctr_record_effects.specs.page_Damage.{entry_check};
ghost use Rattle.ctr_walk.specs.Columns.{HaveNames};

/// An entry of the catalog that passes its check, and isn't free, has columns that a table may have: 1 to 8 of them, each with a
/// name, and the first is the key.
pub fn an_entry_has_columns()
    ensures named { (counted n : ℕ) (page : List ℕ) → ENTRY_SIZE * n + ENTRY_SIZE ≤ length page → entry_check counted (ENTRY_SIZE * n) page ≡ Ok tt
        → (entry_at n page).state ≢ 0 → HaveNames (entry_at n page).bytes }
    ensures fit { (counted n : ℕ) (page : List ℕ) → ENTRY_SIZE * n + ENTRY_SIZE ≤ length page → entry_check counted (ENTRY_SIZE * n) page ≡ Ok tt
        → (entry_at n page).state ≢ 0 → ColumnsFit (columns_in (entry_at n page).bytes) }
    ensures keyed { (columns : List Column) → ColumnsFit columns → IsKeyed columns }
{}
