// Who keeps a name from others: the session that holds it, or recovery.
ghost use Rattle.std.specs.Prelude.{◌≡◌, ◌⊎◌, ◌==◌, ◌<◌, ◌++◌, ◌∷◌, [], ℕ, true, false, List, Some, None};
ghost use Rattle.std.specs.Ordering.{nat_cmp};
ghost use Rattle.std.specs.FinMap.Entries.{find, put};
ghost use Rattle.ctr_record_laws.specs.rec_SlogItem.{SlogItem};
ghost use Rattle.ctr_record_laws.specs.model_declared_state_State.{State};
ghost use Rattle.ctr_record_laws.specs.model_Transaction.{Transaction};
ghost use Rattle.ctr_record_laws.specs.model_Database.{Database};
ghost use Rattle.ctr_record_laws.specs.model_Maps.{without};
ghost use Rattle.ctr_record_laws.specs.model_State.{has_name, with_transaction, at_rest};
ghost use Rattle.ctr_record_laws.specs.model_Reply.{without_name};
ghost use Rattle.ctr_record_laws.specs.versions_Engine.{SessionHeld};
ghost use Rattle.ctr_record_laws.specs.versions_Laws.{IsNoSessions};
ghost use Rattle.ctr_record_laws.specs.area_Areas.{Title};
ghost use Rattle.ctr_record_laws.specs.area_Sound.{IsSchemaItem};
ghost use Rattle.ctr_record_laws.specs.Owed.{IsNameFreeFor};
ghost use Rattle.ctr_names.specs.Held.{IsNameHeldBy, HoldsNames, names_of_items, HaveSameTables, KeepNames};

/// As a run begins recovery keeps the names of all items.
pub fn recovery_keeps_the_names_of_items()
    ensures { (items : List SlogItem) (title : ℕ → Title) (base : Database) → HoldsNames items title [] (at_rest base (names_of_items title items)) }
{}

/// A name that is not stuck and that no other session holds is a session's alone: all items of it are its own.
pub fn a_held_name_is_alone()
    ensures { (items : List SlogItem) (title : ℕ → Title) (sessions : List (ℕ × SessionHeld)) (state : State) (s : ℕ) (session : SessionHeld) (name : List ℕ)
        → HoldsNames items title sessions state → find nat_cmp s sessions ≡ Some session → has_name name state.stuck ≡ false
        → ((r : ℕ) (u : Transaction) → (r == s) ≡ false → find nat_cmp r state.sessions ≡ Some u → has_name name u.holds ≡ false)
        → IsNameFreeFor session.me items title name }
{}

/// Names are kept as they were where a session's transaction is granted something, begins, draws its number, is rolled back,
/// or ends without an item of a table.
pub fn names_are_kept_over_sessions()
    ensures granted { (items : List SlogItem) (title : ℕ → Title) (sessions : List (ℕ × SessionHeld)) (state : State) (s : ℕ) (t u : Transaction) → HoldsNames items title sessions state
        → find nat_cmp s state.sessions ≡ Some t → ((name : List ℕ) → has_name name t.holds ≡ true → has_name name u.holds ≡ true)
        → HoldsNames items title sessions (with_transaction s u state) }
    ensures begun { (items : List SlogItem) (title : ℕ → Title) (sessions : List (ℕ × SessionHeld)) (state : State) (s : ℕ) (b : SessionHeld) (u : Transaction) → HoldsNames items title sessions state
        → ((y f : ℕ) → IsSchemaItem y f items → 0 < y) → b.me ≡ 0 → find nat_cmp s state.sessions ≡ None
        → HoldsNames items title (put nat_cmp s b sessions) (with_transaction s u state) }
    ensures drawn { (items : List SlogItem) (title : ℕ → Title) (sessions : List (ℕ × SessionHeld)) (state : State) (s : ℕ) (a b : SessionHeld) (u : Transaction)
        → HoldsNames items title sessions state → find nat_cmp s sessions ≡ Some a → a.me ≡ 0 → ((y f : ℕ) → IsSchemaItem y f items → (0 < y) × (y < b.me))
        → HoldsNames items title (put nat_cmp s b sessions) (with_transaction s u state) }
    ensures undoing { (items : List SlogItem) (title : ℕ → Title) (sessions : List (ℕ × SessionHeld)) (state : State) (s : ℕ) (a b : SessionHeld) → HoldsNames items title sessions state
        → find nat_cmp s sessions ≡ Some a → b.me ≡ a.me → HoldsNames items title (put nat_cmp s b sessions) state }
    ensures ended { (items : List SlogItem) (title : ℕ → Title) (sessions : List (ℕ × SessionHeld)) (state after : State) (s : ℕ) → HoldsNames items title sessions state
        → after.sessions ≡ without nat_cmp s state.sessions → after.stuck ≡ state.stuck
        → ((a : SessionHeld) (f : ℕ) → find nat_cmp s sessions ≡ Some a → IsSchemaItem a.me f items → ⊥)
        → HoldsNames items title (without nat_cmp s sessions) after }
{}

/// Names are kept where items of pages come and go; where the session that holds a name makes or drops a table of it; where
/// items of a session go; and where recovery undoes one of a name, and lets the name go with the last.
pub fn names_are_kept_over_items()
    ensures pages { (items new : List SlogItem) (title now : ℕ → Title) (sessions : List (ℕ × SessionHeld)) (state : State) → HoldsNames items title sessions state
        → HaveSameTables items new → KeepNames items title now → HoldsNames new now sessions state }
    ensures more { (items : List SlogItem) (title now : ℕ → Title) (sessions : List (ℕ × SessionHeld)) (state : State) (i : SlogItem) (x e : ℕ) → HoldsNames items title sessions state
        → ((y f : ℕ) → IsSchemaItem y f (items ++ i ∷ []) → IsSchemaItem y f items ⊎ ((y ≡ x) × (f ≡ e))) → KeepNames items title now
        → IsNameHeldBy sessions state x (now e).name → HoldsNames (items ++ i ∷ []) now sessions state }
    ensures less { (items new : List SlogItem) (title now : ℕ → Title) (sessions : List (ℕ × SessionHeld)) (state : State) (s : ℕ) (a : SessionHeld) → HoldsNames items title sessions state
        → find nat_cmp s sessions ≡ Some a → ((y f : ℕ) → IsSchemaItem y f new → IsSchemaItem y f items)
        → ((y f : ℕ) → (y ≡ a.me → ⊥) → IsSchemaItem y f items → IsSchemaItem y f new) → KeepNames items title now → HoldsNames new now sessions state }
    ensures undone { (items new : List SlogItem) (title now : ℕ → Title) (sessions : List (ℕ × SessionHeld)) (state : State) (name : List ℕ) (z g : ℕ) → HoldsNames items title sessions state
        → ((y f : ℕ) → IsSchemaItem y f new → IsSchemaItem y f items) → ((y f : ℕ) → IsSchemaItem y f items → IsSchemaItem y f new ⊎ ((title f).name ≡ name)) → KeepNames items title now
        → IsSchemaItem z g new → (title g).name ≡ name → IsNoSessions sessions z → HoldsNames new now sessions state }
    ensures released { (items new : List SlogItem) (title now : ℕ → Title) (sessions : List (ℕ × SessionHeld)) (state : State) (name : List ℕ) → HoldsNames items title sessions state
        → ((y f : ℕ) → IsSchemaItem y f new → IsSchemaItem y f items) → ((y f : ℕ) → IsSchemaItem y f items → IsSchemaItem y f new ⊎ ((title f).name ≡ name)) → KeepNames items title now
        → ((y f : ℕ) → IsSchemaItem y f new → (title f).name ≡ name → ⊥) → HoldsNames new now sessions (record state { stuck = without_name name state.stuck }) }
{}
