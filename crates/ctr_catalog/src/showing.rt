// What searches through the catalog answer, as the laws of names have it.
ghost use Rattle.std.specs.Prelude.{◌≡◌, ◌<◌, ℕ, List, Option, Some, None, Result, Ok, ⊤, is_some, true};
ghost use Rattle.ctr_model.specs.declared.state.State.{State};
ghost use Rattle.ctr_names.specs.versions_Chains.{changed_since};
ghost use Rattle.ctr_names.specs.versions_Keys.{schema_writes};
ghost use Rattle.ctr_names.specs.versions_Xids.{Xids};
ghost use Rattle.ctr_rec.specs.declared.decoding.BadRecord.{BadRecord};
ghost use Rattle.ctr_names.specs.meta_Tables.{Tables};
ghost use Rattle.ctr_names.specs.area_Areas.{Area};
ghost use Rattle.ctr_names.specs.area_Sound.{IsSoundArea};
ghost use Rattle.ctr_names.specs.Search.{IsOfTables, ShowsNames, Looker, IsLooking, IsNumberOf, IsEntryFound, IsNoneFound, finds};
ghost use Rattle.ctr_catalog.specs.Finding.{EndsEntries, entry_seen, changed_in};

/// The entry that `find` answers is found by the session that looks, and where it answers none, none is.
pub fn what_find_answers_is_found()
    ensures found { (counted : ℕ) (tables : Tables) (area : Area) (xids : Xids) (look : Looker) (me : Option ℕ) (check : ℕ → Result ⊤ BadRecord) (f : ℕ) → IsSoundArea counted tables area
        → IsOfTables tables xids → IsNumberOf look.session me → EndsEntries check (entry_seen tables look.session.snapshot me look.name area) (Ok (Some f))
        → IsEntryFound (finds xids look.session) look.name area f }
    ensures none { (counted : ℕ) (tables : Tables) (area : Area) (xids : Xids) (look : Looker) (me : Option ℕ) (check : ℕ → Result ⊤ BadRecord) → IsSoundArea counted tables area
        → IsOfTables tables xids → IsNumberOf look.session me → EndsEntries check (entry_seen tables look.session.snapshot me look.name area) (Ok None)
        → IsNoneFound (finds xids look.session) look.name area }
{}

/// Where `changed` answers somebody of an entry, the model says that the name was changed since the session's snapshot; and
/// where it answers nobody of each of the 32, that it wasn't.
pub fn what_changed_answers_is_told()
    ensures changed { (counted low : ℕ) (tables : Tables) (area : Area) (xids : Xids) (state : State) (look : Looker) (f x : ℕ) → IsSoundArea counted tables area
        → ShowsNames low tables area xids state → IsLooking low tables area xids state look → f < 32
        → changed_in tables look.session.snapshot look.name area f ≡ Some x → is_some (changed_since look.t.snapshot (schema_writes look.name state.asked)) ≡ true }
    ensures steady { (counted low : ℕ) (tables : Tables) (area : Area) (xids : Xids) (state : State) (look : Looker) → IsSoundArea counted tables area
        → ShowsNames low tables area xids state → IsLooking low tables area xids state look
        → ((f : ℕ) → f < 32 → changed_in tables look.session.snapshot look.name area f ≡ None) → changed_since look.t.snapshot (schema_writes look.name state.asked) ≡ None }
{}
