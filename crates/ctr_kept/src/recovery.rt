// Turns of undo and of the cleaner.
ghost use Rattle.std.specs.Prelude.{Bool, ◌<◌, ◌≡◌, ◌≤◌, ◌+◌, ◌++◌, ℕ, List, [], ◌∷◌, None};
ghost use Rattle.ctr_kept.specs.Words.{SlogItem, AllocOf, FreeOf, CreateOf, DropOf, Line, transaction_of, IsNoSessions, Creation, Dropping, IsAmong, IsInBounds, Site, Fact, Scene, Action, Frees, Reclaims, MakesDead, Uncreates, Undrops, Aborts, Owes, site_after, IsItemOfName, MovesTo, IsShown};
ghost use Rattle.ctr_kept.specs.Carried.{IsAwayFromAll};
ghost use Rattle.ctr_kept.specs.Undo.{Undo, left_of, CountsTo, SparesUndo};
ghost use Rattle.ctr_kept.specs.Walk.{Mind};
ghost use Rattle.ctr_kept.specs.Turns.{Start, KeepsRun, state_now, scene_now, undone_mind, release_entry};

use ctr_paged::{another_leaves_what_is_held, tables_in_use_stay_live};

/// Undo gives a page back: one that an orphan took and didn't link, or one that left its chain before the stop.
pub fn a_page_is_given_back()
    ensures taken { (c : Start) (now later x p : ℕ) (site : Site) (w : Mind) (front : List SlogItem) → KeepsRun c now site w → now ≤ later
        → w.undo.items ≡ front ++ AllocOf x p ∷ []
        → IsInBounds (site_after x (Frees p) site).area → KeepsRun c later (site_after x (Frees p) site) (undone_mind front w) }
    ensures left { (c : Start) (now later p : ℕ) (site : Site) (w : Mind) (front : List SlogItem) → KeepsRun c now site w → now ≤ later → w.undo.items ≡ front ++ FreeOf p ∷ []
        → IsInBounds (site_after site.tables.next (Reclaims p) site).area → KeepsRun c later (site_after site.tables.next (Reclaims p) site) (undone_mind front w) }
{
    another_leaves_what_is_held();
}

/// Where no line of the script is of a session 0, that is never in a transaction: recovery's acts are of it.
pub fn recovery_is_in_no_transaction()
    ensures { (c : Start) (now : ℕ) (site : Site) (w : Mind) → KeepsRun c now site w → ((l : Line) → IsAmong l c.lines → 0 < l.session) → transaction_of (state_now c w) 0 ≡ None }
{}

/// Undo undoes an orphan's making or drop of a table, the latest item that is left. Where other items of the name are left no entry is made;
/// with the last one recovery releases the name.
pub fn a_table_is_undone()
    ensures created { (c : Start) (now later x e : ℕ) (site : Site) (w : Mind) (front : List SlogItem) → KeepsRun c now site w → now ≤ later
        → w.undo.items ≡ front ++ CreateOf x e ∷ []
        → IsInBounds (site_after x (Uncreates e) site).area → (z g : ℕ) → IsItemOfName e (Creation e) site z g → IsNoSessions w.run.sessions z
        → KeepsRun c later (site_after x (Uncreates e) site) (undone_mind front w) }
    ensures last_created { (c : Start) (now later x e : ℕ) (site : Site) (w : Mind) (front : List SlogItem) → KeepsRun c now site w → now ≤ later
        → w.undo.items ≡ front ++ CreateOf x e ∷ []
        → IsInBounds (site_after x (Uncreates e) site).area → transaction_of (state_now c w) 0 ≡ None → ((y f : ℕ) → IsItemOfName e (Creation e) site y f → ⊥)
        → KeepsRun c later (site_after x (Uncreates e) site) (record (undone_mind front w) { tape = w.tape ++ release_entry (site.area.title e).name later ∷ [] }) }
    ensures dropped { (c : Start) (now later x e : ℕ) (site : Site) (w : Mind) (front : List SlogItem) → KeepsRun c now site w → now ≤ later
        → w.undo.items ≡ front ++ DropOf x e ∷ []
        → IsInBounds (site_after x (Undrops e) site).area → (z g : ℕ) → IsItemOfName e (Dropping e) site z g → IsNoSessions w.run.sessions z
        → KeepsRun c later (site_after x (Undrops e) site) (undone_mind front w) }
    ensures last_dropped { (c : Start) (now later x e : ℕ) (site : Site) (w : Mind) (front : List SlogItem) → KeepsRun c now site w → now ≤ later
        → w.undo.items ≡ front ++ DropOf x e ∷ []
        → IsInBounds (site_after x (Undrops e) site).area → transaction_of (state_now c w) 0 ≡ None → ((y f : ℕ) → IsItemOfName e (Dropping e) site y f → ⊥)
        → KeepsRun c later (site_after x (Undrops e) site) (record (undone_mind front w) { tape = w.tape ++ release_entry (site.area.title e).name later ∷ [] }) }
{
    another_leaves_what_is_held();
}

/// Behind all items undo marks the transactions that were open at the start, one a turn, in whatever order.
pub fn an_orphan_is_ended()
    ensures { (c : Start) (now later x : ℕ) (site : Site) (w : Mind) (front back : List ℕ) → KeepsRun c now site w → now ≤ later → w.undo.items ≡ [] → w.undo.orphans ≡ front ++ x ∷ back
        → IsInBounds (site_after x Aborts site).area → KeepsRun c later (site_after x Aborts site) (record w { undo = record w.undo { orphans = front ++ back; turns = w.undo.turns + 1 } }) }
{
    another_leaves_what_is_held();
}

/// An action of the cleaner's or the flusher's, which act with a number that nobody has drawn yet, and which is away from what sessions carry: nothing
/// of a run changes. The low number may have risen before.
pub fn an_action_of_nobodys_is_kept()
    ensures { (c : Start) (now later low : ℕ) (site : Site) (w : Mind) (a : Action) (k : KeepsRun c now site w) → now ≤ later → IsShown low site (scene_now c w)
        → Owes site.tables.next a site → IsInBounds (site_after site.tables.next a site).area → MovesTo low site.tables.next a site (scene_now c w) (scene_now c w)
        → IsAwayFromAll a site (scene_now c w) w.facts → SparesUndo a w.undo
        → KeepsRun c later (site_after site.tables.next a site) w }
{
    another_leaves_what_is_held();
}

/// A table that becomes dead is away from what sessions carry, since nobody has dropped a table that one counts on.
pub fn a_dying_table_is_away()
    ensures { (y e : ℕ) (passes : ℕ → Bool) (site : Site) (scene : Scene) (facts : ℕ → List Fact) → Owes y (MakesDead passes e) site → IsAwayFromAll (MakesDead passes e) site scene facts }
{
    tables_in_use_stay_live();
}

/// Where undo has ended all that a stop left open, and no session is in a transaction, no transaction is open in the tables.
pub fn where_nobody_is_inside_none_is_open()
    ensures { (c : Start) (now : ℕ) (site : Site) (w : Mind) → KeepsRun c now site w → w.undo.orphans ≡ [] → ((s : ℕ) → transaction_of (state_now c w) s ≡ None) → site.tables.opens ≡ [] }
{}

/// Undo took as many turns as the start has items and open transactions, where nothing is left; and before that at most so many.
pub fn undo_is_counted()
    ensures all { (size : ℕ) (u : Undo) → CountsTo size u → left_of u ≡ 0 → u.turns ≡ size }
    ensures some { (size : ℕ) (u : Undo) → CountsTo size u → u.turns ≤ size }
{}
