// What is found in the catalog, and who changed it: a law for each refusal that tells of a name.
ghost use Rattle.std.specs.Prelude.{◌≡◌, ◌<◌, ◌≤◌, ℕ, List, Some, None, is_some, true, drop};
ghost use Rattle.std.specs.List.{AllByRecursion};
ghost use Rattle.ctr_model.specs.Database.{table_at};
ghost use Rattle.ctr_model.specs.Refusals.{schema_changed_by};
ghost use Rattle.ctr_model.specs.State.{view};
ghost use Rattle.ctr_versions.specs.Chains.{IsUnwritten, changed_since};
ghost use Rattle.ctr_versions.specs.Keys.{schema_writes, schema_named};
ghost use Rattle.ctr_paged.specs.area_Images.{made_by_entry};
ghost use Rattle.ctr_paged.specs.legal_Kept.{IsFirm};
ghost use Rattle.ctr_paged.specs.ctr_names.Search.{IsEntryFound};
ghost use Rattle.ctr_paged.specs.actions_Sites.{Site};
ghost use Rattle.ctr_catalog.specs.Finding.{changed_in};
ghost use Rattle.ctr_paged.specs.Shown.{Scene, IsShown};
ghost use Rattle.ctr_views.specs.Viewing.{Viewer, sees_by, Finds, number_since};

use ctr_catalog::what_find_answers_is_found;

/// NoTable and TableExists: an entry that the search of a session finds is that of its view's table, with these columns; and
/// where it finds none, the view has no table of the name.
pub fn what_find_answers_is_in_the_view()
    ensures found { (low : ℕ) (site : Site) (scene : Scene) (v : Viewer scene) (name : List ℕ) (e : ℕ) → IsShown low site scene → IsFirm scene.state.asked v.t
        → Finds site v name (Some e) → IsEntryFound (sees_by site v) name site.area e × (schema_named (view scene.state v.t) name ≡ Some (made_by_entry (e, site.area.title e)).schema) }
    ensures none { (low : ℕ) (site : Site) (scene : Scene) (v : Viewer scene) (name : List ℕ) → IsShown low site scene → IsFirm scene.state.asked v.t
        → Finds site v name None → table_at (view scene.state v.t) name ≡ None }
{
    what_find_answers_is_found();
}

/// SchemaChanged: where `changed` answers somebody of an entry, a table of the name was made or dropped since the session's
/// snapshot, and where it answers nobody of each of the 32, none was.
pub fn what_changed_answers_is_in_the_model()
    ensures changed { (low : ℕ) (site : Site) (scene : Scene) (v : Viewer scene) (name : List ℕ) (e x : ℕ) → IsShown low site scene
        → e < 32 → changed_in site.tables v.session.snapshot name site.area e ≡ Some x
        → is_some (changed_since v.t.snapshot (schema_writes name scene.state.asked)) ≡ true }
    ensures steady { (low : ℕ) (site : Site) (scene : Scene) (v : Viewer scene) (name : List ℕ) → IsShown low site scene
        → ((e : ℕ) → e < 32 → changed_in site.tables v.session.snapshot name site.area e ≡ None)
        → changed_since v.t.snapshot (schema_writes name scene.state.asked) ≡ None }
    // The model refuses so: for a change that is answered, and for none where none is told.
    ensures refused { (low : ℕ) (site : Site) (scene : Scene) (v : Viewer scene) (name : List ℕ) (e x : ℕ) → IsShown low site scene
        → e < 32 → changed_in site.tables v.session.snapshot name site.area e ≡ Some x
        → AllByRecursion IsUnwritten (drop scene.state.answered (schema_writes name scene.state.asked)) → is_some (schema_changed_by scene.state v.t name) ≡ true }
    ensures unrefused { (low : ℕ) (site : Site) (scene : Scene) (v : Viewer scene) (name : List ℕ) → IsShown low site scene
        → ((e : ℕ) → e < 32 → changed_in site.tables v.session.snapshot name site.area e ≡ None) → schema_changed_by scene.state v.t name ≡ None }
{}

/// With which number: the last change of a name since the session's snapshot is by one that `changed` answers, and none
/// that it answers has a greater number. The model refuses with it, where nobody who asked and isn't answered has the name.
pub fn the_newest_change_of_a_name_is_told()
    ensures newest { (low : ℕ) (site : Site) (scene : Scene) (v : Viewer scene) (name : List ℕ) (k : ℕ) → IsShown low site scene
        → changed_since v.t.snapshot (schema_writes name scene.state.asked) ≡ Some k
        → (e : ℕ) × (e < 32) × (x : ℕ) × (changed_in site.tables v.session.snapshot name site.area e ≡ Some x) × (number_since site v (Some x) ≡ Some k) }
    ensures most { (low : ℕ) (site : Site) (scene : Scene) (v : Viewer scene) (name : List ℕ) (e x : ℕ) → IsShown low site scene
        → e < 32 → changed_in site.tables v.session.snapshot name site.area e ≡ Some x
        → (j : ℕ) × (number_since site v (Some x) ≡ Some j) × ((k : ℕ) → changed_since v.t.snapshot (schema_writes name scene.state.asked) ≡ Some k → j ≤ k) }
    ensures refused { (low : ℕ) (site : Site) (scene : Scene) (v : Viewer scene) (name : List ℕ) → IsShown low site scene
        → AllByRecursion IsUnwritten (drop scene.state.answered (schema_writes name scene.state.asked))
        → schema_changed_by scene.state v.t name ≡ changed_since v.t.snapshot (schema_writes name scene.state.asked) }
{}
