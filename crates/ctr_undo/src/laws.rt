// Laws of undo. A call does nothing: what it ensures is the law.
ghost use Rattle.std.specs.Prelude.{◌≡◌, ◌≢◌, ◌+◌, ◌++◌, ℕ, true, false, None};
ghost use Rattle.ctr_model.specs.State.{has_name, transaction_of};
ghost use Rattle.ctr_names.specs.Held.{names_of_items};
ghost use Rattle.ctr_redo.specs.States.{State};
ghost use Rattle.ctr_record_effects.specs.States.{area_in};
ghost use Rattle.ctr_actions.specs.Sites.{Site, site_of};
ghost use Rattle.ctr_actions.specs.Actions.{Action};
ghost use Rattle.ctr_store.specs.Store.{View};
ghost use Rattle.ctr_rollback.specs.kept_Walk.{Mind};
ghost use Rattle.ctr_rollback.specs.kept_Turns.{Start, KeepsRun, state_now};
ghost use Rattle.ctr_rollback.specs.stops_World.{KeepsWorld};
ghost use Rattle.ctr_rollback.specs.page_turns_Turns.{LogsAtRest};
ghost use Rattle.ctr_rollback.specs.page_turns_Acts.{ActsBy};
ghost use Rattle.ctr_undo.specs.declared.list.UndoItem.{UndoItem};
ghost use Rattle.ctr_undo.specs.Left.{UndoLeft, left_in, IsUndoOver, Goes};
ghost use Rattle.ctr_undo.specs.Turns.{MayUndo, Undoes};
ghost use Rattle.ctr_undo.specs.Series.{LeadsOn};
ghost use Rattle.ctr_undo.specs.Keeping.{list_of, undone_to, IsOfTable, name_undone, names_undone, IsNameKept, IsNameReleased, released_to};

use ctr_actions::{an_undone_item_goes_alone, what_is_done_stays};
use ctr_disk::Disk;
use ctr_names::recovery_keeps_the_names_of_items;
use ctr_rollback::{
    a_page_is_given_back, a_table_is_undone, a_turn_of_a_world_is_kept, an_action_keeps_the_pages,
    an_orphan_is_ended,
};

/// Undo takes one turn for each item and each transaction that is left.
pub fn undo_takes_a_turn_an_item()
    ensures one { (item : UndoItem) (u v : UndoLeft) → Goes item u v → left_in u ≡ left_in v + 1 }
    ensures left { (n : ℕ) (u v : UndoLeft) → LeadsOn n u v → left_in u ≡ left_in v + n }
    ensures all { (n : ℕ) (u v : UndoLeft) → LeadsOn n u v → IsUndoOver v → n ≡ left_in u }
{}

/// In a World undo may take a turn, whatever sessions have done, and the turn keeps the World. No entry is made, unless the item that is
/// undone was the last of its table's name: then recovery releases the name, at the moment at which the turn ends.
pub fn a_turn_of_undo_is_kept<D: Disk>()
    ensures may { (c : Start) (opened : D) (a : View D) (w : Mind) → KeepsWorld D.Disk c opened a w → MayUndo (list_of w) a.now }
    ensures kept { (c : Start) (opened : D) (a b : View D) (w : Mind) (v : UndoLeft) → KeepsWorld D.Disk c opened a w → (does : Undoes (list_of w) v a.now b.now)
        → IsNameKept does.item (site_of a.now) w → LogsAtRest D.Disk a b → KeepsWorld D.Disk c opened b (undone_to v w) }
    // That recovery is in no transaction is the law `recovery_is_in_no_transaction` of ctr_kept.
    ensures released { (c : Start) (opened : D) (a b : View D) (w : Mind) (v : UndoLeft) → KeepsWorld D.Disk c opened a w → (does : Undoes (list_of w) v a.now b.now)
        → IsNameReleased does.item (site_of a.now) → transaction_of (state_now c w) 0 ≡ None → LogsAtRest D.Disk a b
        → KeepsWorld D.Disk c opened b (released_to v (name_undone does.item (site_of a.now)) (D.Disk.moment_of b.disk) w) }
{
    a_page_is_given_back();
    a_table_is_undone();
    an_orphan_is_ended();
    what_is_done_stays();
    an_action_keeps_the_pages();
    a_turn_of_a_world_is_kept::<D>();
}

/// The names of the tables of items that are left stay, whatever a transaction does, and with an item of a table goes its name, the last of them.
pub fn names_of_what_is_left_stay()
    ensures stay { (x : ℕ) (a : Action) (s t : State) (u : UndoLeft) → MayUndo u s → ActsBy x a s t
        → names_of_items (area_in t).title u.items ≡ names_of_items (area_in s).title u.items }
    // And so they do wherever each entry that was taken keeps its name.
    ensures named { (s t : State) (u : UndoLeft) → MayUndo u s → ((e : ℕ) → ((area_in s).title e).state ≢ 0 → ((area_in t).title e).name ≡ ((area_in s).title e).name)
        → names_of_items (area_in t).title u.items ≡ names_of_items (area_in s).title u.items }
    ensures go { (item : UndoItem) (u v : UndoLeft) (site : Site) → Goes item u v
        → names_of_items site.area.title u.items ≡ names_of_items site.area.title v.items ++ names_undone item site }
{}

/// A name is released with its last item in undo's list: whether there is another one is told by the names of the items that are left there.
pub fn a_name_is_released_with_its_last_item()
    ensures kept { (c : Start) (now : ℕ) (site : Site) (w : Mind) (item : UndoItem) (v : UndoLeft) → KeepsRun c now site w → Goes item (list_of w) v
        → has_name (name_undone item site) (names_of_items site.area.title v.items) ≡ true → IsNameKept item site w }
    ensures released { (c : Start) (now : ℕ) (site : Site) (w : Mind) (item : UndoItem) (v : UndoLeft) → KeepsRun c now site w → Goes item (list_of w) v → IsOfTable item
        → has_name (name_undone item site) (names_of_items site.area.title v.items) ≡ false → IsNameReleased item site }
{
    an_undone_item_goes_alone();
    recovery_keeps_the_names_of_items();
}
