// Who has changed a row since a session's snapshot, by the newest committed version in its slot.
ghost use Rattle.std.specs.Prelude.{◌≡◌, ℕ, ℤ, List, Option, None, false, is_some, drop};
ghost use Rattle.std.specs.List.{AllByRecursion, list_any};
ghost use Rattle.std.specs.Option.{option_map_or};
ghost use Rattle.ctr_model.specs.Refusals.{is_create_of, row_changed_by};
ghost use Rattle.ctr_versions.specs.Chains.{IsUnwritten, changed_since};
ghost use Rattle.ctr_versions.specs.Keys.{row_writes, schema_writes};
ghost use Rattle.ctr_meta.specs.Seen.{xid_is_changed};
ghost use Rattle.ctr_paged.specs.page_Place.{Place};
ghost use Rattle.ctr_paged.specs.area_Sound.{IsUsedSlot};
ghost use Rattle.ctr_paged.specs.legal_Kept.{IsFirm};
ghost use Rattle.ctr_paged.specs.ctr_names.Search.{IsEntryFound};
ghost use Rattle.ctr_paged.specs.actions_Sites.{Site};
ghost use Rattle.ctr_paged.specs.Shown.{Scene, IsShown};
ghost use Rattle.ctr_views.specs.Scanning.{IsNoSlot};
ghost use Rattle.ctr_views.specs.Viewing.{Viewer, sees_by, newest_in, number_since};

use ctr_chain::{a_changed_row_is_told, a_slot_is_read_as_its_row};

/// RowChanged: in a table that is the one of the session's snapshot, and that the session didn't make itself, the newest
/// committed version in a used slot has a number above the snapshot's exactly where the row was changed since, and it is
/// that of the last change. Where no used slot has the key, it wasn't changed.
pub fn what_newest_answers_is_in_the_model()
    ensures number { (low : ℕ) (site : Site) (scene : Scene) (v : Viewer scene) (name : List ℕ) (e : ℕ) (at : Place) → IsShown low site scene → IsFirm scene.state.asked v.t
        → IsEntryFound (sees_by site v) name site.area e → IsUsedSlot site.area e at → changed_since v.t.snapshot (schema_writes name scene.state.asked) ≡ None
        → list_any (is_create_of name) v.t.own ≡ false
        → number_since site v (newest_in site at) ≡ changed_since v.t.snapshot (row_writes name (site.area.slot at).key scene.state.asked) }
    // The tables' own test tells whether there is such a number, of whatever table.
    ensures told { (low : ℕ) (site : Site) (scene : Scene) (v : Viewer scene) (e : ℕ) (at : Place) → IsShown low site scene → IsUsedSlot site.area e at
        → option_map_or (xid_is_changed site.tables v.session.snapshot) (newest_in site at) false ≡ is_some (number_since site v (newest_in site at)) }
    ensures none { (low : ℕ) (site : Site) (scene : Scene) (v : Viewer scene) (name : List ℕ) (e : ℕ) (key : ℤ) → IsShown low site scene → IsFirm scene.state.asked v.t
        → IsEntryFound (sees_by site v) name site.area e → IsNoSlot site.area e key → changed_since v.t.snapshot (schema_writes name scene.state.asked) ≡ None
        → list_any (is_create_of name) v.t.own ≡ false → changed_since v.t.snapshot (row_writes name key scene.state.asked) ≡ None }
    // Whoever made the table: the model refuses for that change, where nobody who asked and isn't answered has written the key.
    ensures refused { (low : ℕ) (site : Site) (scene : Scene) (v : Viewer scene) (name : List ℕ) (e : ℕ) (at : Place) → IsShown low site scene → IsFirm scene.state.asked v.t
        → IsEntryFound (sees_by site v) name site.area e → IsUsedSlot site.area e at → changed_since v.t.snapshot (schema_writes name scene.state.asked) ≡ None
        → AllByRecursion IsUnwritten (drop scene.state.answered (row_writes name (site.area.slot at).key scene.state.asked))
        → number_since site v (newest_in site at) ≡ row_changed_by scene.state v.t name (site.area.slot at).key }
    ensures unrefused { (low : ℕ) (site : Site) (scene : Scene) (v : Viewer scene) (name : List ℕ) (e : ℕ) (key : ℤ) → IsShown low site scene → IsFirm scene.state.asked v.t
        → IsEntryFound (sees_by site v) name site.area e → IsNoSlot site.area e key → changed_since v.t.snapshot (schema_writes name scene.state.asked) ≡ None
        → AllByRecursion IsUnwritten (drop scene.state.answered (row_writes name key scene.state.asked)) → row_changed_by scene.state v.t name key ≡ None }
{
    a_slot_is_read_as_its_row();
    a_changed_row_is_told();
}
