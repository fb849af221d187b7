// What each record on the catalog and on a transaction is to the chains of names.
ghost use Rattle.std.specs.Prelude.{◌≡◌, ◌<◌, ℕ, Bool, true, Some, None, List};
ghost use Rattle.ctr_types.specs.declared.value.Column.{Column};
ghost use Rattle.ctr_record_laws.specs.versions_Chains.{Numbers};
ghost use Rattle.ctr_record_laws.specs.versions_Changes.{write, IsOld};
ghost use Rattle.ctr_record_laws.specs.versions_Versions.{names_at, NamesSet, IsUnmadeTable};
ghost use Rattle.ctr_record_laws.specs.versions_Undoing.{ShowsTheSame};
ghost use Rattle.ctr_record_laws.specs.meta_Tables.{Tables, is_in};
ghost use Rattle.ctr_record_laws.specs.meta_Effects.{opened_by, committed, rolled_back, forgotten_by};
ghost use Rattle.ctr_record_laws.specs.area_Areas.{Title, Area, no_pages};
ghost use Rattle.ctr_record_laws.specs.area_Changes.{with_title, new_title, empty_chains, ChangesEntry};
ghost use Rattle.ctr_record_laws.specs.area_Images.{is_committed_in, made_by_entry, versions_in};
ghost use Rattle.ctr_record_laws.specs.area_Sound.{IsSoundArea};
ghost use Rattle.ctr_record_laws.specs.Bounds.{IsInBounds};
ghost use Rattle.ctr_record_laws.specs.Owed.{AgreeOnCommits, OwedByCreate, OwedByDrop, OwedByUncreate, OwedByUndrop, OwedByDying, OwedByFreeing, OwedByAbort, OwedByCommit};
ghost use Rattle.ctr_names.specs.Shape.{LosesOwn, below_in};
ghost use Rattle.ctr_names.specs.Stand.{IsDropNewer};

/// A Create: the chain of the name is written with the new table, by the transaction that makes it, and no table of its
/// number was made before.
pub fn a_create_writes_its_name()
    ensures chain { (number : Numbers) (counted : ℕ) (tables : Tables) (area new : Area) (x e : ℕ) (name : List ℕ) (columns : List Column)
        → IsInBounds area → IsSoundArea counted tables area → AgreeOnCommits number tables → OwedByCreate tables area x e name
        → ChangesEntry e (new_title x name columns) empty_chains area new
        → NamesSet (versions_in (is_committed_in tables) area) (versions_in (is_committed_in tables) new) name
        (write number x (Some (made_by_entry (e, new_title x name columns))) (names_at (versions_in (is_committed_in tables) area) name)) }
    ensures unmade { (counted : ℕ) (tables : Tables) (area : Area) (x e : ℕ) (name : List ℕ) → IsInBounds area → IsSoundArea counted tables area
        → OwedByCreate tables area x e name → IsUnmadeTable e (versions_in (is_committed_in tables) area) }
{}

/// A Drop: the chain of the name is written with a tombstone, by the transaction that drops the table.
pub fn a_drop_writes_its_name()
    ensures { (number : Numbers) (counted : ℕ) (tables : Tables) (area : Area) (x e : ℕ) → IsSoundArea counted tables area → AgreeOnCommits number tables
        → OwedByDrop tables area x e
        → NamesSet (versions_in (is_committed_in tables) area) (versions_in (is_committed_in tables) (with_title e (record (area.title e) { dropper = x }) area)) (area.title e).name
        (write number x None (names_at (versions_in (is_committed_in tables) area) (area.title e).name)) }
{}

/// An Uncreate and an Undrop: the transaction's version in front of the name's chain goes, or is another one of its own.
pub fn an_undone_item_takes_its_version()
    ensures created { (counted : ℕ) (tables : Tables) (area : Area) (x e : ℕ) → IsInBounds area → IsSoundArea counted tables area → OwedByUncreate tables x e
        → LosesOwn x (versions_in (is_committed_in tables) area) (versions_in (is_committed_in tables) (with_title e (record (area.title e) { state = 2 }) area)) (area.title e).name }
    ensures dropped { (counted : ℕ) (tables : Tables) (area : Area) (x e : ℕ) → IsInBounds area → IsSoundArea counted tables area → OwedByUndrop tables x e
        → LosesOwn x (versions_in (is_committed_in tables) area) (versions_in (is_committed_in tables) (with_title e (record (area.title e) { dropper = 0 }) area)) (area.title e).name }
{}

/// A Trim by which a table is dead whose drop everyone sees: the chain of its name alone changes, and shows the same from the
/// low number on, whoever is at work.
pub fn a_dying_table_shows_the_same()
    ensures chain { (mark e : ℕ) (tables : Tables) (area : Area) → OwedByDying (below_in tables mark) tables area e
        → NamesSet (versions_in (is_committed_in tables) area) (versions_in (is_committed_in tables) (with_title e (record (area.title e) { state = 2 }) area)) (area.title e).name
        (names_at (versions_in (is_committed_in tables) (with_title e (record (area.title e) { state = 2 }) area)) (area.title e).name) }
    ensures same { (counted low mark e : ℕ) (tables : Tables) (area : Area) (number : Numbers) → IsSoundArea counted tables area → 0 < tables.next
        → AgreeOnCommits number tables → IsOld number low (below_in tables mark) → OwedByDying (below_in tables mark) tables area e
        → ShowsTheSame low number (λ x. Unit {0}) (names_at (versions_in (is_committed_in tables) area) (area.title e).name)
        (names_at (versions_in (is_committed_in tables) (with_title e (record (area.title e) { state = 2 }) area)) (area.title e).name) }
{}

/// A Trim that frees the entry of a dead table leaves all versions as they were.
pub fn a_freed_entry_shows_the_same()
    ensures { (counted : ℕ) (tables : Tables) (area new : Area) (e : ℕ) (title : Title) (test : ℕ → Bool) → IsSoundArea counted tables area → OwedByFreeing area e
        → title.state ≡ 0 → ChangesEntry e title no_pages area new → versions_in test new ≡ versions_in test area }
{}

/// A Begin, a Commit whose drops are later than those that are committed, an Abort and a Forget leave all versions as they
/// were: who is committed by then makes no difference.
pub fn records_on_transactions_leave_names()
    ensures begin { (counted : ℕ) (tables : Tables) (area : Area) → IsSoundArea counted tables area → 0 < tables.next
        → versions_in (is_committed_in (opened_by tables.next tables)) area ≡ versions_in (is_committed_in tables) area }
    ensures commit { (counted : ℕ) (tables : Tables) (area : Area) (x : ℕ) → IsSoundArea counted tables area → OwedByCommit tables x → IsDropNewer tables area.title x
        → versions_in (is_committed_in (committed x tables)) area ≡ versions_in (is_committed_in tables) area }
    ensures abort { (counted : ℕ) (tables : Tables) (area : Area) (x : ℕ) → IsSoundArea counted tables area → OwedByAbort tables x
        → versions_in (is_committed_in (rolled_back x tables)) area ≡ versions_in (is_committed_in tables) area }
    ensures forget { (counted : ℕ) (tables : Tables) (area : Area) (x : ℕ) → IsSoundArea counted tables area → is_in x tables.aborted ≡ true
        → versions_in (is_committed_in (forgotten_by x tables)) area ≡ versions_in (is_committed_in tables) area }
{}
