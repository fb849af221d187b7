// What is read of the slots of a table, which a session has found: the rows of its view.
ghost use Rattle.std.specs.Prelude.{◌≡◌, ℕ, ℤ, List, Some, None};
ghost use Rattle.ctr_types.specs.declared.value.Row.{Row};
ghost use Rattle.ctr_model.specs.Database.{table_at};
ghost use Rattle.ctr_model.specs.Refusals.{row_of};
ghost use Rattle.ctr_model.specs.State.{view};
ghost use Rattle.ctr_paged.specs.page_Place.{Place};
ghost use Rattle.ctr_paged.specs.area_Chains.{slot_places};
ghost use Rattle.ctr_paged.specs.area_Sound.{IsUsedSlot};
ghost use Rattle.ctr_paged.specs.legal_Kept.{IsFirm};
ghost use Rattle.ctr_paged.specs.ctr_names.Search.{IsEntryFound};
ghost use Rattle.ctr_paged.specs.actions_Sites.{Site};
ghost use Rattle.ctr_chain.specs.Visible.{visible_row};
ghost use Rattle.ctr_paged.specs.Shown.{Scene, IsShown};
ghost use Rattle.ctr_views.specs.Scanning.{IsNoSlot, AreScanned, rows_scanned};
ghost use Rattle.ctr_views.specs.Viewing.{Viewer, sees_by};

use ctr_chain::a_slot_is_read_as_its_row;

/// The row of the view at the key of a used slot is the one that is seen there; and where no used slot has the key, the view
/// has no row at it.
pub fn the_view_has_what_slots_show()
    ensures used { (low : ℕ) (site : Site) (scene : Scene) (v : Viewer scene) (name : List ℕ) (e : ℕ) (at : Place) → IsShown low site scene → IsFirm scene.state.asked v.t
        → IsEntryFound (sees_by site v) name site.area e → IsUsedSlot site.area e at
        → row_of (table_at (view scene.state v.t) name) (site.area.slot at).key ≡ visible_row (sees_by site v) site.area at }
    ensures none { (low : ℕ) (site : Site) (scene : Scene) (v : Viewer scene) (name : List ℕ) (e : ℕ) (key : ℤ) → IsShown low site scene → IsFirm scene.state.asked v.t
        → IsEntryFound (sees_by site v) name site.area e → IsNoSlot site.area e key
        → row_of (table_at (view scene.state v.t) name) key ≡ None }
{
    a_slot_is_read_as_its_row();
}

/// So a scan of a table's slots gives the table as the view has it, with its columns: rows that are what used slots show, and
/// those that are gathered slot by slot. Each row of the view stands in a used slot, and no two of them have one key.
pub fn a_scan_gives_the_table()
    ensures scanned { (low : ℕ) (site : Site) (scene : Scene) (v : Viewer scene) (name : List ℕ) (e : ℕ) (rows : List (ℤ × Row)) → IsShown low site scene → IsFirm scene.state.asked v.t
        → IsEntryFound (sees_by site v) name site.area e → AreScanned (sees_by site v) site.area e rows
        → table_at (view scene.state v.t) name ≡ Some (record { schema = record { columns = (site.area.title e).columns }; rows = rows }) }
    ensures gathered { (low : ℕ) (site : Site) (scene : Scene) (v : Viewer scene) (name : List ℕ) (e : ℕ) → IsShown low site scene → IsFirm scene.state.asked v.t
        → IsEntryFound (sees_by site v) name site.area e
        → table_at (view scene.state v.t) name ≡ Some (record { schema = record { columns = (site.area.title e).columns }; rows = rows_scanned (sees_by site v) site.area (slot_places site.area e) }) }
    ensures stands { (low : ℕ) (site : Site) (scene : Scene) (v : Viewer scene) (name : List ℕ) (e : ℕ) (key : ℤ) (row : Row) → IsShown low site scene → IsFirm scene.state.asked v.t
        → IsEntryFound (sees_by site v) name site.area e → row_of (table_at (view scene.state v.t) name) key ≡ Some row
        → (at : Place) × IsUsedSlot site.area e at × ((site.area.slot at).key ≡ key) × (visible_row (sees_by site v) site.area at ≡ Some row) }
    ensures once { (low : ℕ) (site : Site) (scene : Scene) (e : ℕ) (a b : Place) → IsShown low site scene → IsUsedSlot site.area e a → IsUsedSlot site.area e b
        → (site.area.slot a).key ≡ (site.area.slot b).key → a ≡ b }
{
    the_view_has_what_slots_show();
}
