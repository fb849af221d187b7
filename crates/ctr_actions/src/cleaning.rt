// When nothing is left to clean.
ghost use Rattle.std.specs.Prelude.{◌≡◌, ◌≤◌, ℕ, Bool, true, []};
ghost use Rattle.ctr_actions.specs.Words.{FreeOf, is_committed_in, IsAmong, IsBare, IsInBounds, PassCommitted};
ghost use Rattle.ctr_actions.specs.Sites.{Site, IsSoundSite};
ghost use Rattle.ctr_actions.specs.Cleaning.{HasNothingToClean};

/// Where no transaction is open, and everyone sees each that is committed, as where there is no snapshot, a site in which the
/// cleaner has nothing to do is bare; each entry is free, live or dead. Whoever is open, no page that left its chain is still to be
/// given back.
pub fn a_site_with_nothing_to_clean_is_bare()
    ensures bare { (passes : ℕ → Bool) (s : Site) → IsInBounds s.area → IsSoundSite s → s.tables.opens ≡ [] → PassCommitted passes s.tables
        → ((x : ℕ) → is_committed_in s.tables x ≡ true → passes x ≡ true) → ((e : ℕ) → (s.area.title e).state ≤ 2) → HasNothingToClean passes s → IsBare s.tables s.area }
    ensures pages { (passes : ℕ → Bool) (s : Site) (p : ℕ) → HasNothingToClean passes s → IsAmong (FreeOf p) s.tables.items → ⊥ }
{}
