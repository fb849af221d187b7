// What is read is what the session's view has. A call does nothing: what it ensures is the law.
ghost use Rattle.std.specs.Prelude.{◌≡◌, ℕ, ℤ, List, Option};
ghost use Rattle.std.specs.Option.{option_map};
ghost use Rattle.ctr_types.specs.declared.value.Row.{Row};
ghost use Rattle.ctr_types.specs.declared.statement.KeyIs.{KeyIs};
ghost use Rattle.ctr_model.specs.Database.{table_at};
ghost use Rattle.ctr_model.specs.Refusals.{row_of};
ghost use Rattle.ctr_model.specs.Reply.{rows_found};
ghost use Rattle.ctr_model.specs.State.{view};
ghost use Rattle.ctr_legal.specs.Kept.{IsFirm};
ghost use Rattle.ctr_views.specs.names_Search.{IsEntryFound};
ghost use Rattle.ctr_views.specs.actions_Sites.{Site};
ghost use Rattle.ctr_views.specs.paged_Shown.{Scene, IsShown};
ghost use Rattle.ctr_views.specs.Viewing.{Viewer, sees_by};
ghost use Rattle.ctr_reading.specs.Reading.{AreShown, IsRowSeen};

use ctr_views::{a_scan_gives_the_table, the_view_has_what_slots_show};

/// Rows that are shown to a session by the slots of a table that it has found are those that the model reads of its view: all of them, or the
/// one of a key.
pub fn rows_are_those_of_the_view()
    ensures rows { (low : ℕ) (site : Site) (scene : Scene) (v : Viewer scene) (name : List ℕ) (e : ℕ) (at : Option KeyIs) (rows : List Row) → IsShown low site scene → IsFirm scene.state.asked v.t
        → IsEntryFound (sees_by site v) name site.area e → AreShown (sees_by site v) site.area e (option_map (λ k. k.key) at) rows
        → rows ≡ rows_found at (table_at (view scene.state v.t) name) }
    ensures row { (low : ℕ) (site : Site) (scene : Scene) (v : Viewer scene) (name : List ℕ) (e : ℕ) (key : ℤ) (row : Option Row) → IsShown low site scene → IsFirm scene.state.asked v.t
        → IsEntryFound (sees_by site v) name site.area e → IsRowSeen (sees_by site v) site.area e key row
        → row ≡ row_of (table_at (view scene.state v.t) name) key }
{
    a_scan_gives_the_table();
    the_view_has_what_slots_show();
}
