// Turns of a session with a record.
ghost use Rattle.std.specs.Prelude.{◌≡◌, ◌<◌, ◌≤◌, ◌+◌, ℕ, List, [], ◌∷◌, length};
ghost use Rattle.ctr_types.specs.declared.tape.Act.TheVariants as act;
ghost use Rattle.ctr_types.specs.declared.tape.Reply.TheVariants as reply;
ghost use Rattle.ctr_kept.specs.Words.{Change, changes_of, view, with_own, IsDrawnFor, IsInBounds, Site, IsSoundSite, Action, Begins, Commits, Aborts, Owes, site_after, Fact, HasNoPageBut, HoldsFact, with_its, without_its, MovesTo};
ghost use Rattle.ctr_kept.specs.Carried.{Covers};
ghost use Rattle.ctr_kept.specs.Walk.{Mind};
ghost use Rattle.ctr_kept.specs.Turns.{Start, KeepsRun, InTransaction, Telling, MayCome, telling, carrying, Carries, granted_to, drawn_mind, gone_mind, drawn_scene, asked_scene, state_now, scene_now};

use ctr_paged::another_leaves_what_is_held;

/// An action for room, or one that keeps a version, or that undoes an item of the session's own, makes no entry.
pub fn a_turn_without_an_entry_is_kept()
    ensures { (c : Start) (now later s : ℕ) (site : Site) (w : Mind) (seat : InTransaction c w s) (a : Action) (mine : List Fact) (k : KeepsRun c now site w)
        → now ≤ later → 0 < seat.session.me
        → Owes seat.session.me a site → Covers seat.t a site → IsInBounds (site_after seat.session.me a site).area
        → MovesTo k.scene.low seat.session.me a site (scene_now c w) (scene_now c w)
        → Carries seat.session.me seat.t mine (site_after seat.session.me a site) → KeepsRun c later (site_after seat.session.me a site) (carrying s mine w) }
{
    another_leaves_what_is_held();
}

/// The first Lock of a session draws its number.
pub fn a_number_is_drawn()
    ensures { (c : Start) (now s : ℕ) (site : Site) (w : Mind) (seat : InTransaction c w s) (e : Telling c now s) (mine : List Fact) (k : KeepsRun c now site w)
        → MayCome c w e act.Lock reply.Granted
        → Owes site.tables.next Begins site → IsInBounds (site_after site.tables.next Begins site).area
        → MovesTo k.scene.low site.tables.next Begins site (scene_now c w) (drawn_scene seat site.tables.next (granted_to e seat.t))
        → (granted_to e seat.t).snapshot ≡ seat.t.snapshot
        → IsDrawnFor (record seat.session { me = site.tables.next }) (granted_to e seat.t)
        → Carries site.tables.next (granted_to e seat.t) mine (site_after site.tables.next Begins site)
        → KeepsRun c e.later (site_after site.tables.next Begins site) (telling e act.Lock reply.Granted w (drawn_mind s seat.session site.tables.next mine w)) }
{
    another_leaves_what_is_held();
}

/// Who draws a number has no page yet, so that its COMMIT finds none to link where each page that it takes is linked.
pub fn who_draws_a_number_has_no_page()
    ensures { (site : Site) → IsSoundSite site → HoldsFact site.tables.next (HasNoPageBut []) (site_after site.tables.next Begins site) }
{}

/// A Write is one change: a row is written, or a table is made or dropped.
pub fn a_write_is_kept()
    ensures { (c : Start) (now s : ℕ) (site : Site) (w : Mind) (seat : InTransaction c w s) (e : Telling c now s) (a : Action) (change : Change) (mine : List Fact) (k : KeepsRun c now site w)
        → MayCome c w e act.Write reply.Done → 0 < seat.session.me → changes_of (view (state_now c w) seat.t) e.statement ≡ change ∷ []
        → Owes seat.session.me a site → Covers seat.t a site
        → IsInBounds (site_after seat.session.me a site).area
        → MovesTo k.scene.low seat.session.me a site (scene_now c w) (with_its s (with_own change seat.t) (scene_now c w))
        → Carries seat.session.me (with_own change seat.t) mine (site_after seat.session.me a site)
        → KeepsRun c e.later (site_after seat.session.me a site) (telling e act.Write reply.Done w (carrying s mine w)) }
{
    another_leaves_what_is_held();
}

/// COMMIT asks, with the next number of all that asked. From here on the session carries nothing.
pub fn a_commit_is_asked_for()
    ensures { (c : Start) (now s : ℕ) (site : Site) (w : Mind) (seat : InTransaction c w s) (e : Telling c now s) (k : KeepsRun c now site w)
        → MayCome c w e act.Ask (reply.Asked (length (state_now c w).asked + 1))
        → 0 < seat.session.me → Owes seat.session.me Commits site → IsInBounds (site_after seat.session.me Commits site).area
        → MovesTo k.scene.low seat.session.me Commits site (scene_now c w) (asked_scene seat)
        → KeepsRun c e.later (site_after seat.session.me Commits site) (telling e act.Ask (reply.Asked (length (state_now c w).asked + 1)) w (record (carrying s [] w) { run = (asked_scene seat).run })) }
{
    another_leaves_what_is_held();
}

/// A ROLLBACK ends by one mark.
pub fn a_rollback_ends()
    ensures { (c : Start) (now s : ℕ) (site : Site) (w : Mind) (seat : InTransaction c w s) (e : Telling c now s) (k : KeepsRun c now site w)
        → MayCome c w e act.Rollback reply.RolledBack → 0 < seat.session.me
        → Owes seat.session.me Aborts site → IsInBounds (site_after seat.session.me Aborts site).area
        → MovesTo k.scene.low seat.session.me Aborts site (scene_now c w) (without_its s (scene_now c w))
        → KeepsRun c e.later (site_after seat.session.me Aborts site) (telling e act.Rollback reply.RolledBack w (gone_mind s w)) }
{
    another_leaves_what_is_held();
}
