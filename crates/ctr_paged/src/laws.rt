// What is shown, over each action and each turn. A call does nothing: what it ensures is the law.
ghost use Rattle.std.specs.Prelude.{◌≡◌, ◌<◌, ◌≤◌, ◌+◌, ◌&&◌, nat_lt, ℕ, true, List, None, Some, length};
ghost use Rattle.std.specs.Option.{option_map};
ghost use Rattle.std.specs.Ordering.{nat_cmp};
ghost use Rattle.std.specs.FinMap.Entries.{find};
ghost use Rattle.ctr_disk.specs.Image.{Image};
ghost use Rattle.ctr_model.specs.declared.state.Transaction.{Transaction};
ghost use Rattle.ctr_model.specs.State.{has_name, at_rest, begun, transaction_of, with_transaction};
ghost use Rattle.ctr_model.specs.Database.{after_all};
ghost use Rattle.ctr_versions.specs.Engine.{SessionHeld};
ghost use Rattle.ctr_versions.specs.Laws.{IsGranted, mark_of};
ghost use Rattle.ctr_versions.specs.Xids.{taken};
ghost use Rattle.ctr_sessions.specs.Sessions.{IsDrawnFor, ShowsBegun};
ghost use Rattle.ctr_actions.specs.area_Chains.{pages_bound};
ghost use Rattle.ctr_actions.specs.area_Images.{is_committed_in, image_rows};
ghost use Rattle.ctr_actions.specs.record_laws_Bounds.{IsInBounds};
ghost use Rattle.ctr_names.specs.Held.{names_of_items};
ghost use Rattle.ctr_actions.specs.ctr_redo.States.{State};
ghost use Rattle.ctr_actions.specs.ctr_record_effects.States.{area_in};
ghost use Rattle.ctr_actions.specs.ctr_record_effects.Standing.{StandsForDatabase};
ghost use Rattle.ctr_actions.specs.Sites.{Site, IsSoundSite, site_of};
ghost use Rattle.ctr_actions.specs.Actions.{Action, Owes, site_after};
ghost use Rattle.ctr_paged.specs.Paged.{at_open, xids_of, engine_at};
ghost use Rattle.ctr_paged.specs.Shown.{Scene, IsShown};
ghost use Rattle.ctr_paged.specs.Moving.{MovesTo, PassOld, held_as, with_its, without_its, answered_one, begun_now, IsReader, HoldsAll};

/// An action that owes nothing more leads to the scene that it moves to, and the site that it leaves shows that.
pub fn an_action_is_shown()
    ensures { (low x : ℕ) (a : Action) (site : Site) (old new : Scene) → IsShown low site old → Owes x a site → IsInBounds (site_after x a site).area
        → MovesTo low x a site old new → IsShown low (site_after x a site) new }
{}

/// What is done without a record: a session begins; a lock, a use or a hold is granted; a reader ends; a commit is
/// answered; a rollback of several steps begins. More pages are counted; and the low number rises.
pub fn a_turn_without_a_record_is_shown()
    ensures begun { (low : ℕ) (site : Site) (a : Scene) (s : ℕ) → IsShown low site a → find nat_cmp s a.state.sessions ≡ None
        → IsShown low site (record { run = held_as s (begun_now site a.run) a.run; state = with_transaction s (begun a.state.answered) a.state }) }
    ensures granted { (low : ℕ) (site : Site) (a : Scene) (s : ℕ) (t u : Transaction) → IsShown low site a → find nat_cmp s a.state.sessions ≡ Some t
        → IsGranted t u → HoldsAll t u → IsShown low site (with_its s u a) }
    ensures ended { (low : ℕ) (site : Site) (a : Scene) (s : ℕ) → IsShown low site a → IsReader s a.run → IsShown low site (without_its s a) }
    ensures answered { (low : ℕ) (site : Site) (a : Scene) (s k : ℕ) (t : Transaction) → IsShown low site a → find nat_cmp s a.state.sessions ≡ Some t
        → t.asked ≡ Some k → a.state.answered < length a.state.asked → IsShown low site (answered_one s a) }
    ensures undoing { (low : ℕ) (site : Site) (a : Scene) (s : ℕ) (b : SessionHeld) (t : Transaction) → IsShown low site a
        → find nat_cmp s a.run.sessions ≡ Some b → find nat_cmp s a.state.sessions ≡ Some t
        → IsShown low site (record a { run = held_as s (record b { undoing = true }) a.run }) }
    ensures grown { (low : ℕ) (site : Site) (a : Scene) (more : ℕ) → IsShown low site a → site.counted ≤ more → more ≤ pages_bound
        → IsShown low (record site { counted = more }) a }
{}

/// The low number may rise to one at which everyone sees what is committed and below the low mark.
pub fn the_low_mark_is_old()
    ensures { (low : ℕ) (site : Site) (a : Scene) → IsShown low site a
        → (higher : ℕ) × IsShown higher site a × PassOld higher (λ x. is_committed_in site.tables x && nat_lt x (mark_of (engine_at site a.run))) site a }
{}

/// A sound site shows its rows, with nobody in a transaction, and the names of its items are held by recovery.
pub fn a_sound_site_opens()
    ensures { (site : Site) → IsInBounds site.area → site.counted ≤ pages_bound → IsSoundSite site → 0 < site.tables.next
        → IsShown 0 site (record { run = at_open; state = at_rest (image_rows (is_committed_in site.tables) site.area) (names_of_items site.area.title site.tables.items) }) }
{}

/// So does an image that stands for a database, with the rows that it has.
pub fn an_image_opens()
    ensures { (image : Image) (s : State) → StandsForDatabase image s
        → IsShown 0 (site_of s) (record { run = at_open; state = at_rest (image_rows (is_committed_in s.tables) (area_in s)) (names_of_items (area_in s).title s.tables.items) }) }
{}

/// While sessions go on, the rows of the image are the base after all that asked for a commit; so it opens on that after
/// a stop.
pub fn the_image_is_what_asked()
    ensures rows { (low : ℕ) (site : Site) (a : Scene) → IsShown low site a
        → image_rows (is_committed_in site.tables) site.area ≡ after_all a.state.asked a.state.base }
    ensures opens { (low : ℕ) (site : Site) (a : Scene) → IsShown low site a
        → IsShown 0 site (record { run = at_open; state = at_rest (after_all a.state.asked a.state.base) (names_of_items site.area.title site.tables.items) }) }
{}

/// With the numbers of snapshots, and which sessions have a number, what is shown is what the laws of sessions ask.
pub fn what_is_shown_has_begun()
    ensures { (low : ℕ) (site : Site) (a : Scene) (since : List (ℕ × ℕ)) → IsShown low site a
        → ((s : ℕ) → find nat_cmp s since ≡ option_map (λ (t : Transaction). t.snapshot) (transaction_of a.state s))
        → ((s : ℕ) (t : Transaction) (b : SessionHeld) → transaction_of a.state s ≡ Some t → find nat_cmp s a.run.sessions ≡ Some b → IsDrawnFor b t)
        → ShowsBegun low (record { engine = engine_at site a.run; since = since }) a.state }
{}
