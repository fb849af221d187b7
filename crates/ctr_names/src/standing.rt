// At each number at most one table of a name stands, and later drops have no lower numbers.
ghost use Rattle.std.specs.Prelude.{◌≡◌, ◌⊎◌, ◌+◌, ◌≤◌, ℕ, true, false, Some, None};
ghost use Rattle.ctr_record_laws.specs.versions_Chains.{Numbers};
ghost use Rattle.ctr_record_laws.specs.meta_Tables.{Tables, is_in};
ghost use Rattle.ctr_record_laws.specs.meta_Effects.{committed, rolled_back, forgotten_by};
ghost use Rattle.ctr_record_laws.specs.area_Areas.{Title, Area};
ghost use Rattle.ctr_record_laws.specs.area_Changes.{with_title};
ghost use Rattle.ctr_record_laws.specs.area_Images.{is_committed_in, is_live};
ghost use Rattle.ctr_record_laws.specs.area_Sound.{IsSoundArea};
ghost use Rattle.ctr_record_laws.specs.Owed.{AgreeOnCommits, OwedByCommit, OwedByAbort};
ghost use Rattle.ctr_names.specs.Stand.{NamesStand, IsDropNewer, HasNext, StaysWithCommits};

/// As a run begins, where each number is 0.
pub fn names_stand_at_open()
    ensures { (counted : ℕ) (tables : Tables) (area : Area) (number : Numbers) → IsSoundArea counted tables area → AgreeOnCommits number tables
        → ((x : ℕ) → (number x ≡ None) ⊎ (number x ≡ Some 0)) → NamesStand 0 number area.title }
{}

/// Over a Commit, which gets the number behind all others, where what its transaction dropped was dropped later than what is
/// committed.
pub fn names_stand_over_a_commit()
    ensures { (low counted : ℕ) (tables : Tables) (area : Area) (number new : Numbers) (x n : ℕ) → IsSoundArea counted tables area → OwedByCommit tables x
        → IsDropNewer tables area.title x → AgreeOnCommits number tables → AgreeOnCommits new (committed x tables) → HasNext number new x n
        → NamesStand low number area.title → NamesStand low new area.title }
{}

/// Over records on a title: an open transaction makes a table, or drops one, or its drop is undone; a table is dead or its entry
/// free.
pub fn names_stand_over_titles()
    ensures made { (low : ℕ) (number : Numbers) (area : Area) (e : ℕ) (title : Title) → NamesStand low number area.title → number title.creator ≡ None → title.dropper ≡ 0
        → number 0 ≡ None → NamesStand low number (with_title e title area).title }
    ensures dropped { (low : ℕ) (number : Numbers) (area : Area) (e : ℕ) (title : Title) → NamesStand low number area.title → is_live (area.title e) ≡ true
        → title.name ≡ (area.title e).name → title.creator ≡ (area.title e).creator → number title.dropper ≡ None → number (area.title e).dropper ≡ None
        → NamesStand low number (with_title e title area).title }
    ensures gone { (low : ℕ) (number : Numbers) (area : Area) (e : ℕ) (title : Title) → NamesStand low number area.title → is_live title ≡ false
        → NamesStand low number (with_title e title area).title }
{}

/// Over an Abort, and a Forget, where who stays committed keeps the number.
pub fn names_stand_over_an_end()
    ensures abort { (low counted : ℕ) (tables : Tables) (area : Area) (number new : Numbers) (x : ℕ) → IsSoundArea counted tables area → OwedByAbort tables x
        → StaysWithCommits tables (rolled_back x tables) number new → NamesStand low number area.title → NamesStand low new area.title }
    ensures forget { (low counted : ℕ) (tables : Tables) (area : Area) (number new : Numbers) (x : ℕ) → IsSoundArea counted tables area → is_in x tables.aborted ≡ true
        → StaysWithCommits tables (forgotten_by x tables) number new → NamesStand low number area.title → NamesStand low new area.title }
{}
