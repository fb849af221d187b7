// Laws of the secondary log's items: which can be undone, and in which order they stand.
ghost use Rattle.std.specs.Prelude.{◌≡◌, ◌≢◌, ◌+◌, ℕ, true, false, List, ◌∷◌, ◌++◌, length};
ghost use Rattle.ctr_actions.specs.Words.{SlogItem, FreeOf, is_item_by, IsAmong, IsInBounds, IsLastItem, HasNoItems};
ghost use Rattle.ctr_actions.specs.Sites.{Site, IsSoundSite};
ghost use Rattle.ctr_actions.specs.Actions.{Action, Reclaims, Owes, site_after, undoing, item_count};

/// The latest item of a transaction can be undone, and then it has an item less; whatever item is undone, the secondary log has one less.
pub fn the_latest_item_can_be_undone()
    ensures owed { (x : ℕ) (s : Site) (i : SlogItem) → IsLastItem x i s.tables.items → Owes x (undoing i) s }
    ensures fewer { (x : ℕ) (s : Site) (i : SlogItem) → IsInBounds s.area → IsSoundSite s → IsLastItem x i s.tables.items
        → item_count x s.tables ≡ item_count x (site_after x (undoing i) s).tables + 1 }
    ensures shorter { (x : ℕ) (s : Site) (i : SlogItem) → IsAmong i s.tables.items
        → length s.tables.items ≡ length (site_after x (undoing i) s).tables.items + 1 }
{}

/// Just the item that is undone goes, wherever it stands; the others stay in their order.
pub fn an_undone_item_goes_alone()
    ensures { (x : ℕ) (s : Site) (i : SlogItem) (front rest : List SlogItem) → IsInBounds s.area → IsSoundSite s
        → s.tables.items ≡ front ++ i ∷ rest → (site_after x (undoing i) s).tables.items ≡ front ++ rest }
{}

/// The front of the secondary log stays over an action of who has no item there, but for a page there that is free again: what
/// comes and goes stands behind it, and is nobody else's.
pub fn the_front_of_the_log_stays()
    ensures { (x : ℕ) (a : Action) (s : Site) (front run : List SlogItem) → IsInBounds s.area → IsSoundSite s → Owes x a s
        → s.tables.items ≡ front ++ run → ((i : SlogItem) → IsAmong i front → is_item_by x i ≡ false)
        → ((p : ℕ) → a ≡ Reclaims p → IsAmong (FreeOf p) front → ⊥)
        → (later : List SlogItem) × ((site_after x a s).tables.items ≡ front ++ later) × ((y : ℕ) → x ≢ y → HasNoItems y run → HasNoItems y later) }
{}
