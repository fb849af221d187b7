// Laws of actions.
ghost use Rattle.std.specs.Prelude.{◌⊎◌, ◌≡◌, ◌≢◌, ◌≤◌, ℕ, Bool, true, false, Ok};
ghost use Rattle.ctr_actions.specs.Words.{Overlay, needs, effect, Place, RowVersion, pages_bound, is_live, IsUsedSlot, IsInBounds, RowMove, OwedByRow, IsSpareFor, ShowTheSame};
ghost use Rattle.ctr_actions.specs.Sites.{Site, IsSoundSite, IsSameEngine};
ghost use Rattle.ctr_actions.specs.Actions.{Action, FreesOlder, MakesDead, Owes, site_after, IsQuietAction, LeavesBounds};
ghost use Rattle.ctr_actions.specs.Records.{record_of};
ghost use Rattle.ctr_actions.specs.Facts.{Fact, HoldsFact, IsAway, IsBeside, IsOtherRow, IsOfNoTable};

use ctr_record_laws::{
    a_begin_stays_sound, a_commit_stays_sound, a_create_stays_sound, a_cut_ends_its_chain,
    a_drop_stays_sound, a_forget_stays_sound, a_format_stays_sound, a_free_entry_shows_the_same,
    a_free_stays_sound, a_keep_shows_the_same, a_link_stays_sound,
    a_record_leaves_what_the_next_owes, a_revert_takes_the_head, a_row_writes_its_chain,
    a_spare_copy_stays_spare, a_trim_cuts_its_chain, a_trimmed_entry_stays_sound,
    an_abort_stays_sound, an_alloc_stays_sound, an_uncreate_stays_sound, an_undrop_stays_sound,
    an_unlink_stays_sound, growth_stays_sound, records_elsewhere_leave_a_slot,
    records_on_pages_leave_a_copy_spare, records_on_pages_leave_a_slot,
    records_on_pages_show_the_same, records_on_titles_leave_a_copy_spare,
    records_on_titles_leave_a_slot,
};

/// What is sound stays so over any action that owes nothing more, and as many pages are counted.
pub fn an_action_stays_sound()
    ensures sound { (x : ℕ) (a : Action) (s : Site) → IsInBounds s.area → s.counted ≤ pages_bound → IsSoundSite s → Owes x a s → IsSoundSite (site_after x a s) }
    ensures counted { (x : ℕ) (a : Action) (s : Site) → (site_after x a s).counted ≡ s.counted }
{
    a_begin_stays_sound();
    an_alloc_stays_sound();
    a_format_stays_sound();
    a_link_stays_sound();
    a_keep_shows_the_same();
    a_row_writes_its_chain();
    a_create_stays_sound();
    a_drop_stays_sound();
    a_commit_stays_sound();
    a_record_leaves_what_the_next_owes();
    a_free_stays_sound();
    an_uncreate_stays_sound();
    an_undrop_stays_sound();
    an_abort_stays_sound();
    a_revert_takes_the_head();
    a_trim_cuts_its_chain();
    a_cut_ends_its_chain();
    a_free_entry_shows_the_same();
    a_trimmed_entry_stays_sound();
    an_unlink_stays_sound();
    a_forget_stays_sound();
}

/// What it leaves is in its bounds, where an area that it carries is, and a version chain that it links to is that of an entry that
/// isn't free. Between states that is given.
pub fn an_action_stays_in_bounds()
    ensures { (x : ℕ) (a : Action) (s : Site) → IsInBounds s.area → IsSoundSite s → Owes x a s → LeavesBounds a s → IsInBounds (site_after x a s).area }
{}

/// The record of an action that owes nothing more fits the tables, and its effect is what the action makes of them.
pub fn an_action_meets_its_needs()
    ensures fits { (x : ℕ) (a : Action) (s : Site) (o : Overlay) → IsInBounds s.area → IsSoundSite s → Owes x a s → needs (record_of x a s o) s.tables ≡ Ok tt }
    ensures leaves { (x : ℕ) (a : Action) (s : Site) (o : Overlay) → Owes x a s → effect (record_of x a s o) s.tables ≡ (site_after x a s).tables }
{
    a_record_leaves_what_the_next_owes();
}

/// An action for room, or for a version that no chain has, shows the same.
pub fn a_quiet_action_shows_the_same()
    ensures { (x : ℕ) (a : Action) (s : Site) → IsInBounds s.area → s.counted ≤ pages_bound → IsSoundSite s → IsQuietAction a → Owes x a s → ShowTheSame s.area (site_after x a s).area }
{
    records_on_pages_show_the_same();
    a_keep_shows_the_same();
    a_free_entry_shows_the_same();
}

/// Nothing that an engine of versions reads changes by it.
pub fn a_quiet_action_leaves_the_engine()
    ensures { (x : ℕ) (a : Action) (s : Site) → IsInBounds s.area → s.counted ≤ pages_bound → IsSoundSite s → IsQuietAction a → Owes x a s → IsSameEngine s (site_after x a s) }
{
    a_quiet_action_shows_the_same();
}

/// What a transaction counts on stays over an action that is away from it, and is another's or beside it.
pub fn what_is_held_stays()
    ensures { (x y : ℕ) (a : Action) (fact : Fact) (s : Site) → IsInBounds s.area → s.counted ≤ pages_bound → IsSoundSite s
        → Owes y a s → IsAway a fact → IsBeside a fact ⊎ (x ≢ y) → HoldsFact x fact s → HoldsFact x fact (site_after y a s) }
{
    a_spare_copy_stays_spare();
    records_elsewhere_leave_a_slot();
    records_on_pages_leave_a_slot();
    records_on_pages_leave_a_copy_spare();
    records_on_titles_leave_a_slot();
    records_on_titles_leave_a_copy_spare();
}

/// So it stays over the action of another one, of undo or of the cleaner, that is away from it.
pub fn another_leaves_what_is_held()
    ensures { (x y : ℕ) (a : Action) (fact : Fact) (s : Site) → IsInBounds s.area → s.counted ≤ pages_bound → IsSoundSite s
        → x ≢ y → Owes y a s → IsAway a fact → HoldsFact x fact s → HoldsFact x fact (site_after y a s) }
{
    what_is_held_stays();
}

/// And over its own that is beside it.
pub fn ones_own_action_leaves_what_is_held()
    ensures { (x : ℕ) (a : Action) (fact : Fact) (s : Site) → IsInBounds s.area → s.counted ≤ pages_bound → IsSoundSite s
        → Owes x a s → IsAway a fact → IsBeside a fact → HoldsFact x fact s → HoldsFact x fact (site_after x a s) }
{
    what_is_held_stays();
}

/// A row that isn't locked by who holds another one stands in another slot: one that is written; one in a used slot, as one that is
/// reverted or trimmed; and a version entry of its key is another one than a copy for the slot.
pub fn locked_rows_are_away()
    ensures written { (s : Site) (m : RowMove) (e : ℕ) (at : Place) → IsInBounds s.area → IsSoundSite s → OwedByRow s.tables s.area m
        → IsUsedSlot s.area e at → IsOtherRow e (s.area.slot at).key m.entry m.key → at ≢ m.at }
    ensures slots { (s : Site) (e f : ℕ) (at b : Place) → IsInBounds s.area → IsSoundSite s → IsUsedSlot s.area f b
        → IsUsedSlot s.area e at → IsOtherRow e (s.area.slot at).key f (s.area.slot b).key → at ≢ b }
    ensures copies { (s : Site) (x e f : ℕ) (at q r : Place) (version : RowVersion) → IsInBounds s.area → IsSoundSite s → Owes x (FreesOlder f r) s
        → IsSpareFor s.area e at version q → IsOtherRow e (s.area.slot at).key f (s.area.older r).key → q ≢ r }
{}

/// A live table is another one than that of an entry that is created or freed, or whose bucket loses a page.
pub fn live_tables_are_away()
    ensures { (x : ℕ) (a : Action) (s : Site) (e f : ℕ) → Owes x a s → IsOfNoTable a f → is_live (s.area.title e) ≡ true → e ≢ f }
{}

/// A table whose dropper not everyone sees is another one than that which is made dead.
pub fn tables_in_use_stay_live()
    ensures { (x : ℕ) (passes : ℕ → Bool) (s : Site) (e f : ℕ) → Owes x (MakesDead passes f) s → passes (s.area.title e).dropper ≡ false → e ≢ f }
{}

/// Where the file grows, what is sound stays so, and so does what a transaction counts on.
pub fn growth_keeps_a_site()
    ensures sound { (s : Site) (more : ℕ) → s.counted ≤ more → IsSoundSite s → IsSoundSite (record s { counted = more }) }
    ensures held { (x : ℕ) (fact : Fact) (s : Site) (more : ℕ) → HoldsFact x fact s → HoldsFact x fact (record s { counted = more }) }
{
    growth_stays_sound();
}
