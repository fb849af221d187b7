// What a session counts on between its turns.
ghost use Rattle.std.specs.Prelude.{◌≡◌, ◌⊎◌, ◌<◌, ℕ, true, List};
ghost use Rattle.ctr_model.specs.State.{has_name};
ghost use Rattle.ctr_page.specs.declared.header.Header.{Header};
ghost use Rattle.ctr_area.specs.Areas.{Title};
ghost use Rattle.ctr_area.specs.Sound.{IsAmong};
ghost use Rattle.ctr_legal.specs.Kept.{IsKept};
ghost use Rattle.ctr_views.specs.names_Search.{IsEntryFound};
ghost use Rattle.ctr_rollback.specs.actions_Facts.{Fact, HasBlank, HasTable};
ghost use Rattle.ctr_views.specs.actions_Sites.{Site, site_of};
ghost use Rattle.ctr_views.specs.paged_Shown.{Scene, IsShown};
ghost use Rattle.ctr_rollback.specs.store_Store.{View};
ghost use Rattle.ctr_views.specs.Viewing.{Viewer, sees_by};
ghost use Rattle.ctr_rollback.specs.kept_Carried.{IsUnderLock};
ghost use Rattle.ctr_rollback.specs.kept_Walk.{Mind};
ghost use Rattle.ctr_rollback.specs.kept_Turns.{Start, InTransaction, Carries, carrying};
ghost use Rattle.ctr_rollback.specs.stops_World.{KeepsWorld};

use ctr_disk::Disk;

/// A live table that a session uses, or whose name it holds, and that nobody has dropped, is the one that the session finds under
/// the name. And one that it finds nobody has dropped, so that it may count on it.
pub fn a_table_that_is_counted_on_is_found()
    ensures found { (low : ℕ) (site : Site) (scene : Scene) (v : Viewer scene) (e : ℕ) (title : Title) → IsShown low site scene → IsKept scene.state
        → e < 32 → site.area.title e ≡ title → IsUnderLock v.t (HasTable e title) site → IsEntryFound (sees_by site v) title.name site.area e }
    ensures counted { (low : ℕ) (site : Site) (scene : Scene) (v : Viewer scene) (name : List ℕ) (e : ℕ) → IsShown low site scene → IsKept scene.state
        → (has_name name v.t.uses ≡ true) ⊎ (has_name name v.t.holds ≡ true) → IsEntryFound (sees_by site v) name site.area e
        → ((site.area.title e).name ≡ name) × IsUnderLock v.t (HasTable e (site.area.title e)) site }
{}

/// A session may count on other facts from now on that hold: more, or fewer. Which pages it counts on as empty it may not add to.
pub fn a_session_may_count_on_what_holds<D: Disk>()
    ensures { (c : Start) (opened : D) (a : View D) (w : Mind) (s : ℕ) (seat : InTransaction c w s) (mine : List Fact) → KeepsWorld D.Disk c opened a w
        → Carries seat.session.me seat.t mine (site_of a.now) → ((p : ℕ) (h : Header) → IsAmong (HasBlank p h) mine → IsAmong (HasBlank p h) (w.facts s))
        → KeepsWorld D.Disk c opened a (carrying s mine w) }
{}
