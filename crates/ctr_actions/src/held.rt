// What an action gives to who acts, and what that is good for.
ghost use Rattle.std.specs.Prelude.{◌≡◌, ◌<◌, ℕ, List, [], ◌∷◌, length};
ghost use Rattle.ctr_actions.specs.Words.{Header, Place, RowVersion, IsUsedSlot, IsInBounds, older_copy, rows_header, versions_header, first_page};
ghost use Rattle.ctr_actions.specs.Sites.{Site, IsSoundSite};
ghost use Rattle.ctr_actions.specs.Actions.{Action, Begins, Allocates, Formats, Links, LinksOlder, Keeps, Commits, Aborts, Owes, site_after, item_count};
ghost use Rattle.ctr_actions.specs.Facts.{IsOpen, HasPage, HasNoPageBut, HasBlank, HasCopy, HoldsFact, LetsGo};

use ctr_record_laws::{a_kept_version_is_spare, a_record_leaves_what_the_next_owes};

/// An action gives its fact to who acts: it is open; a page is its own; it is empty; a version is a copy of what stands in a slot; and it has
/// a page more, or one less.
pub fn an_action_gives_its_fact()
    ensures begun { (x : ℕ) (s : Site) → HoldsFact x IsOpen (site_after x Begins s) }
    ensures allocated { (x p : ℕ) (s : Site) → HoldsFact x (HasPage p) (site_after x (Allocates p) s) }
    ensures formatted { (x p : ℕ) (h : Header) (s : Site) → Owes x (Formats p h) s → HoldsFact x (HasBlank p h) (site_after x (Formats p h) s) }
    ensures kept { (x : ℕ) (s : Site) (e : ℕ) (at q : Place) (version : RowVersion) → IsSoundSite s → IsUsedSlot s.area e at
        → Owes x (Keeps e q (older_copy (s.area.slot at) version)) s
        → HoldsFact x (HasCopy e at version q) (site_after x (Keeps e q (older_copy (s.area.slot at) version)) s) }
    ensures more { (x p : ℕ) (ps : List ℕ) (s : Site) → HoldsFact x (HasNoPageBut ps) s → HoldsFact x (HasNoPageBut (p ∷ ps)) (site_after x (Allocates p) s) }
    ensures gone { (x : ℕ) (a : Action) (p : ℕ) (ps : List ℕ) (s : Site) → IsInBounds s.area → IsSoundSite s → Owes x a s → LetsGo a p
        → HoldsFact x (HasNoPageBut (p ∷ ps)) s → HoldsFact x (HasNoPageBut ps) (site_after x a s) }
{
    a_record_leaves_what_the_next_owes();
    a_kept_version_is_spare();
}

/// What is held is what the next action owes: a page that is empty can be linked to the chain that its header names; who has no page to
/// link can commit, and who has no item can be aborted.
pub fn what_is_held_pays()
    ensures linked { (x : ℕ) (s : Site) (p e b : ℕ) → HoldsFact x (HasBlank p (rows_header e b (first_page s.area e b))) s
        → b < length (s.area.firsts e).buckets → Owes x (Links p e b) s }
    ensures older_linked { (x : ℕ) (s : Site) (p e : ℕ) → HoldsFact x (HasBlank p (versions_header e (s.area.firsts e).versions)) s
        → e < 32 → Owes x (LinksOlder p e) s }
    ensures committed { (x : ℕ) (s : Site) → HoldsFact x IsOpen s → HoldsFact x (HasNoPageBut []) s → Owes x Commits s }
    ensures aborted { (x : ℕ) (s : Site) → HoldsFact x IsOpen s → item_count x s.tables ≡ 0 → Owes x Aborts s }
{}
