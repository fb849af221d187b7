// What the versions of a sound area are, and the chain of a name to the transaction that has the name.
ghost use Rattle.std.specs.Prelude.{◌≡◌, ◌⊎◌, ◌<◌, ℕ, Bool, false, List};
ghost use Rattle.ctr_record_laws.specs.model_State.{same_name};
ghost use Rattle.ctr_record_laws.specs.versions_Chains.{Numbers};
ghost use Rattle.ctr_record_laws.specs.versions_Versions.{names_at, database_seen, IsOrdered, HaveOwnTables, NamesSet};
ghost use Rattle.ctr_record_laws.specs.versions_Engine.{AreBy, IsDrawn};
ghost use Rattle.ctr_record_laws.specs.versions_Heads.{OnlyHeadsAreOpen};
ghost use Rattle.ctr_record_laws.specs.meta_Tables.{Tables};
ghost use Rattle.ctr_record_laws.specs.area_Areas.{Title, Area};
ghost use Rattle.ctr_record_laws.specs.area_Changes.{with_title};
ghost use Rattle.ctr_record_laws.specs.area_Images.{is_committed_in, is_named_so, name_chain, versions_in, image_rows};
ghost use Rattle.ctr_record_laws.specs.area_Sound.{IsSoundArea, IsSchemaItem};
ghost use Rattle.ctr_record_laws.specs.Owed.{AgreeOnCommits, IsNameFreeFor};
ghost use Rattle.ctr_names.specs.Shape.{HasOwnInFront};

/// Each version of a sound area is by a transaction that was drawn, and each but the heads by one that is committed.
pub fn only_heads_are_open()
    ensures drawn { (counted : ℕ) (tables : Tables) (area : Area) (test : ℕ → Bool) → IsSoundArea counted tables area → 0 < tables.next
        → AreBy (IsDrawn tables.next) (versions_in test area) }
    ensures heads { (number : Numbers) (counted : ℕ) (tables : Tables) (area : Area) → IsSoundArea counted tables area → 0 < tables.next
        → AgreeOnCommits number tables → OnlyHeadsAreOpen number (versions_in (is_committed_in tables) area) }
{}

/// What the versions of a sound area show of the committed is the rows of the image, in order; and no two names
/// share a table.
pub fn the_rows_of_an_image_are_shown()
    ensures rows { (counted : ℕ) (tables : Tables) (area : Area) → IsSoundArea counted tables area
        → database_seen (is_committed_in tables) (versions_in (is_committed_in tables) area) ≡ image_rows (is_committed_in tables) area }
    ensures order { (counted : ℕ) (tables : Tables) (area : Area) → IsSoundArea counted tables area → IsOrdered (image_rows (is_committed_in tables) area) }
    ensures tables { (committed : ℕ → Bool) (area : Area) → HaveOwnTables (versions_in committed area) }
{}

/// A name of a sound area has one owner: a transaction of which there are items of it, or nobody. Where nobody else has
/// items of it, the chain has at most one version of a transaction that isn't committed, in front.
pub fn a_name_has_one_owner()
    ensures owner { (counted : ℕ) (tables : Tables) (area : Area) (name : List ℕ) → IsSoundArea counted tables area
        → ((x : ℕ) × IsNameFreeFor x tables.items area.title name × ((f : ℕ) × IsSchemaItem x f tables.items × ((area.title f).name ≡ name)))
        ⊎ ((y f : ℕ) → IsSchemaItem y f tables.items → (area.title f).name ≡ name → ⊥) }
    ensures front { (counted : ℕ) (tables : Tables) (area : Area) (name : List ℕ) (x : ℕ) → IsSoundArea counted tables area
        → is_committed_in tables x ≡ false → 0 < x → IsNameFreeFor x tables.items area.title name
        → HasOwnInFront (is_committed_in tables) x (names_at (versions_in (is_committed_in tables) area) name) }
{}

/// Where a title changes, as one of a name and of no other, the chain of that name alone does.
pub fn one_title_is_of_one_chain()
    ensures { (committed : ℕ → Bool) (area : Area) (e : ℕ) (title : Title) (name : List ℕ)
        → ((other : List ℕ) → same_name name other ≡ false → (is_named_so other (e, area.title e) ≡ false) × (is_named_so other (e, title) ≡ false))
        → NamesSet (versions_in committed area) (versions_in committed (with_title e title area)) name (name_chain committed (with_title e title area).title name) }
{}
