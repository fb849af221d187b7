// Laws of a pass. A call does nothing: what it ensures is the law.
ghost use Rattle.std.specs.Prelude.{◌≡◌, ℕ, Bool, true, List, [], ◌∷◌, ◌++◌, Option, Some};
ghost use Rattle.ctr_actions.specs.Words.{IsAmong};
ghost use Rattle.ctr_page.specs.declared.rows.Place.{Place as PlaceOf};
ghost use Rattle.ctr_walk.specs.redo_States.{State};
ghost use Rattle.ctr_area.specs.Chains.{slot_places, older_places};
ghost use Rattle.ctr_walk.specs.record_effects_Standing.{IsDatabaseState};
ghost use Rattle.ctr_actions.specs.Sites.{Site, IsSoundSite, site_of};
ghost use Rattle.ctr_cursor.specs.declared.position.Position.{Position as PositionOf};
ghost use Rattle.ctr_cursor.specs.declared.position.Position.TheVariants.{Slot, Kept};
ghost use Rattle.ctr_cursor.specs.Standing.{IsPosition, IsCountedPosition};
ghost use Rattle.ctr_cursor.specs.Pass.{start, next_position, GoesBy, IsWholePass, HoldsEverywhere};

/// A whole pass over a sound site comes by every place; so what holds at the start, and at each position that comes behind one at which it
/// holds, holds everywhere. And there is a whole pass: it ends.
pub fn a_pass_comes_by_every_place()
    ensures ends { (s : Site) → IsSoundSite s → (positions : List PositionOf) × IsWholePass s positions }
    ensures everywhere { (s : Site) (positions : List PositionOf) → IsSoundSite s → IsWholePass s positions → HoldsEverywhere (λ x. IsAmong x positions) s }
    ensures handed { (s : Site) (holds : PositionOf → Bool) → IsSoundSite s → holds start ≡ true
        → ((x y : PositionOf) → holds x ≡ true → next_position s x ≡ Some y → holds y ≡ true) → HoldsEverywhere (λ x. holds x ≡ true) s }
{}

/// A pass goes on from the position that it came to; and where it goes is determined.
pub fn a_pass_goes_on()
    ensures further { (s : Site) (x : Option PositionOf) (y : PositionOf) (passed : List PositionOf) → GoesBy s x passed (Some y) → GoesBy s x (passed ++ y ∷ []) (next_position s y) }
    ensures one { (s : Site) (positions others : List PositionOf) → IsWholePass s positions → IsWholePass s others → positions ≡ others }
{}

/// A pass goes from position to position, in a state that may be a database's; and what a position names is there: a place of its table.
pub fn a_pass_goes_from_position_to_position()
    ensures start { (s : Site) → IsPosition start s }
    ensures leads { (s : State) (x y : PositionOf) → IsDatabaseState s → IsPosition x (site_of s) → next_position (site_of s) x ≡ Some y → IsPosition y (site_of s) }
    ensures within { (s : State) (x : PositionOf) → IsDatabaseState s → IsPosition x (site_of s) → IsCountedPosition s.counted x }
    ensures slots { (s : Site) (e bucket : ℕ) (at : PlaceOf) → IsPosition (Slot e bucket at) s → IsAmong at (slot_places s.area e) }
    ensures kept { (s : Site) (e : ℕ) (at : PlaceOf) → IsPosition (Kept e at) s → IsAmong at (older_places s.area e) }
{}
