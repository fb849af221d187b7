// What is found in the catalog is what the chain of the name shows.
ghost use Rattle.std.specs.Prelude.{◌≡◌, ◌<◌, ◌≤◌, ℕ, Some, None, true, false, List, Option, is_some};
ghost use Rattle.ctr_record_laws.specs.model_declared_state_State.{State};
ghost use Rattle.ctr_record_laws.specs.model_State.{view};
ghost use Rattle.ctr_snap.specs.Seeing.{SnapshotTaken};
ghost use Rattle.ctr_record_laws.specs.versions_Chains.{Numbers, value_seen, by, above, changed_since};
ghost use Rattle.ctr_record_laws.specs.versions_Keys.{schema_writes, schema_named};
ghost use Rattle.ctr_record_laws.specs.versions_Xids.{Xids, IsSnapshotOf, number_of};
ghost use Rattle.ctr_record_laws.specs.versions_Versions.{names_at};
ghost use Rattle.ctr_record_laws.specs.versions_Engine.{SessionHeld, IsSeenIfOld, session_sees};
ghost use Rattle.ctr_record_laws.specs.meta_Tables.{Tables};
ghost use Rattle.ctr_record_laws.specs.meta_Seen.{xid_is_seen, xid_is_changed};
ghost use Rattle.ctr_record_laws.specs.area_Areas.{Area};
ghost use Rattle.ctr_record_laws.specs.area_Images.{is_committed_in, is_live, is_named_so, made_by_entry, versions_in};
ghost use Rattle.ctr_record_laws.specs.area_Sound.{IsAmong, IsSoundArea, xids_in, stands_for};
ghost use Rattle.ctr_record_laws.specs.Bounds.{IsInBounds};
ghost use Rattle.ctr_record_laws.specs.Owed.{AgreeOnCommits, IsNameFreeFor};
ghost use Rattle.ctr_names.specs.Stand.{NamesStand};
ghost use Rattle.ctr_names.specs.Search.{IsOfTables, ShowsNames, Looker, IsLooking, finds, IsNumberOf, IsEntryFound, IsNoneFound, is_changed_for};

/// The entry of a name that stands at a commit number from the low one on is what the chain shows there, and where none
/// stands it shows none, whatever the order in which entries are looked at.
pub fn what_stands_at_a_number_is_shown()
    ensures found { (low : ℕ) (tables : Tables) (area : Area) (number : Numbers) (j : ℕ) (name : List ℕ) (f : ℕ) → AgreeOnCommits number tables
        → NamesStand low number area.title → low ≤ j → IsEntryFound (by number j) name area f
        → value_seen (by number j) (names_at (versions_in (is_committed_in tables) area) name) ≡ Some (made_by_entry (f, area.title f)) }
    ensures none { (low : ℕ) (tables : Tables) (area : Area) (number : Numbers) (j : ℕ) (name : List ℕ) → AgreeOnCommits number tables
        → NamesStand low number area.title → low ≤ j → IsNoneFound (by number j) name area
        → value_seen (by number j) (names_at (versions_in (is_committed_in tables) area) name) ≡ None }
{}

/// What a session finds by its own test, which is the one of the tables, is what the chain shows to it, with what it has
/// made and dropped itself.
pub fn what_a_session_finds_is_shown()
    ensures test { (counted : ℕ) (tables : Tables) (area : Area) (xids : Xids) (session : SessionHeld) (me : Option ℕ) (x : ℕ) → IsSoundArea counted tables area
        → IsOfTables tables xids → IsNumberOf session me → xid_is_seen tables session.snapshot me x ≡ finds xids session x }
    ensures found { (counted low : ℕ) (tables : Tables) (area : Area) (xids : Xids) (state : State) (look : Looker) (f : ℕ) → IsSoundArea counted tables area
        → IsInBounds area → ShowsNames low tables area xids state → IsLooking low tables area xids state look → IsEntryFound (finds xids look.session) look.name area f
        → value_seen (session_sees xids look.session) (names_at (versions_in (is_committed_in tables) area) look.name) ≡ Some (made_by_entry (f, area.title f)) }
    ensures none { (counted low : ℕ) (tables : Tables) (area : Area) (xids : Xids) (state : State) (look : Looker) → IsSoundArea counted tables area
        → IsInBounds area → ShowsNames low tables area xids state → IsLooking low tables area xids state look → IsNoneFound (finds xids look.session) look.name area
        → value_seen (session_sees xids look.session) (names_at (versions_in (is_committed_in tables) area) look.name) ≡ None }
{}

/// The session's view has the table that is found, and none of the name where none is.
pub fn the_view_has_what_is_found()
    ensures found { (counted low : ℕ) (tables : Tables) (area : Area) (xids : Xids) (state : State) (look : Looker) (f : ℕ) → IsSoundArea counted tables area
        → IsInBounds area → ShowsNames low tables area xids state → IsLooking low tables area xids state look → IsEntryFound (finds xids look.session) look.name area f
        → schema_named (view state look.t) look.name ≡ Some (made_by_entry (f, area.title f)).schema }
    ensures none { (counted low : ℕ) (tables : Tables) (area : Area) (xids : Xids) (state : State) (look : Looker) → IsSoundArea counted tables area
        → IsInBounds area → ShowsNames low tables area xids state → IsLooking low tables area xids state look → IsNoneFound (finds xids look.session) look.name area
        → schema_named (view state look.t) look.name ≡ None }
{}

/// Where nobody else has the name and nobody has changed it since the snapshot: an entry that is found wasn't dropped, as
/// a Drop owes; and where the view has no table of it, no entry stands for the session's transaction, as a Create owes.
pub fn a_held_name_can_be_made_or_dropped()
    ensures drop { (counted low : ℕ) (tables : Tables) (area : Area) (xids : Xids) (state : State) (look : Looker) (f : ℕ) → IsSoundArea counted tables area
        → IsInBounds area → ShowsNames low tables area xids state → IsLooking low tables area xids state look
        → IsNameFreeFor look.session.me tables.items area.title look.name → changed_since look.t.snapshot (schema_writes look.name state.asked) ≡ None
        → IsEntryFound (finds xids look.session) look.name area f → (area.title f).dropper ≡ 0 }
    ensures create { (counted low : ℕ) (tables : Tables) (area : Area) (xids : Xids) (state : State) (look : Looker) (f : ℕ) → IsSoundArea counted tables area
        → IsInBounds area → ShowsNames low tables area xids state → IsLooking low tables area xids state look
        → IsAmong look.session.me (xids_in tables.opens) → IsNameFreeFor look.session.me tables.items area.title look.name
        → changed_since look.t.snapshot (schema_writes look.name state.asked) ≡ None → schema_named (view state look.t) look.name ≡ None
        → f < 32 → is_live (area.title f) ≡ true → (area.title f).name ≡ look.name → stands_for (is_committed_in tables) look.session.me (area.title f) ≡ false }
{}

/// Whom the tables' own test tells to have changed something since a snapshot has a later commit number than that. Where
/// one of these made or dropped a live table of a name, the model says that the name was changed; where none did, that it
/// wasn't.
pub fn who_changed_a_name_is_told()
    ensures test { (counted : ℕ) (tables : Tables) (area : Area) (xids : Xids) (snapshot : SnapshotTaken) (n x : ℕ) → IsSoundArea counted tables area
        → IsOfTables tables xids → IsSnapshotOf xids snapshot n → IsSeenIfOld xids snapshot x → xid_is_changed tables snapshot x ≡ is_some (above n (number_of xids x)) }
    ensures changed { (counted low : ℕ) (tables : Tables) (area : Area) (xids : Xids) (state : State) (look : Looker) (f : ℕ) → IsSoundArea counted tables area
        → ShowsNames low tables area xids state → IsLooking low tables area xids state look → f < 32 → is_named_so look.name (f, area.title f) ≡ true
        → is_changed_for tables look.session.snapshot (area.title f) ≡ true → is_some (changed_since look.t.snapshot (schema_writes look.name state.asked)) ≡ true }
    ensures steady { (counted low : ℕ) (tables : Tables) (area : Area) (xids : Xids) (state : State) (look : Looker) → IsSoundArea counted tables area
        → ShowsNames low tables area xids state → IsLooking low tables area xids state look → ((f : ℕ) → f < 32 → is_named_so look.name (f, area.title f) ≡ true
        → is_changed_for tables look.session.snapshot (area.title f) ≡ false) → changed_since look.t.snapshot (schema_writes look.name state.asked) ≡ None }
{}
