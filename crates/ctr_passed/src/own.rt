// A page of one's own, between its Format and its Link.
ghost use Rattle.std.specs.Prelude.{◌≡◌, ◌≢◌, ◌⊎◌, ◌<◌, ◌∷◌, [], ℕ};
ghost use Rattle.ctr_passed.specs.Words.{State, Header, Place, room_for, slot_at, older_at, IsAmong, slot_places, older_places, IsPlaceOf, columns_on, width_on, slot_said, older_said, pages_in, area_in, IsWholePage, IsDatabaseState, site_of, Action, Does, HasPage, HasBlank, HoldsFact, IsBeside};
ghost use Rattle.ctr_passed.specs.Laid.{LiesAs, width_in, slot_size_in, older_size_in};
ghost use Rattle.ctr_passed.specs.Logged.{IsBlankPage, IsSlotOf, IsOlderOf};

/// A page that a transaction has taken stays as it is over others' actions, and over its own that are beside it: so it is blank still as it is linked.
pub fn an_own_page_stays_blank()
    ensures { (x y p : ℕ) (h : Header) (a : Action) (s t : State) → IsDatabaseState s → Does y a s t → LiesAs a (area_in s) (pages_in s) (pages_in t)
        → HoldsFact x (HasPage p) (site_of s) → IsBeside a (HasBlank p h) ⊎ (x ≢ y) → IsBlankPage p h s → IsBlankPage p h t }
{}
