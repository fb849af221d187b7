// An entry of a turn, with a record or without.
ghost use Rattle.std.specs.Prelude.{◌≡◌, ◌<◌, ℕ, false, [], ◌∷◌, ◌++◌, List};
ghost use Rattle.ctr_types.specs.declared.tape.Entry.{Entry};
ghost use Rattle.ctr_model.specs.Laws.{asked_by};
ghost use Rattle.ctr_model.specs.State.{transaction_of};
ghost use Rattle.ctr_model.specs.Tape.{is_answer};
ghost use Rattle.ctr_page.specs.declared.header.Header.{Header};
ghost use Rattle.ctr_area.specs.Sound.{IsAmong};
ghost use Rattle.ctr_rollback.specs.actions_Actions.{Action, site_after};
ghost use Rattle.ctr_rollback.specs.actions_Facts.{Fact, HasBlank};
ghost use Rattle.ctr_views.specs.actions_Sites.{site_of};
ghost use Rattle.ctr_rollback.specs.store_Store.{View};
ghost use Rattle.ctr_rollback.specs.kept_Walk.{Mind, with_facts};
ghost use Rattle.ctr_rollback.specs.kept_Turns.{Start, KeepsRun, InTransaction, state_now};
ghost use Rattle.ctr_rollback.specs.stops_Pages.{CountsOnNoMore, OthersAreHeld};
ghost use Rattle.ctr_rollback.specs.stops_World.{KeepsWorld};
ghost use Rattle.ctr_rollback.specs.page_turns_Acts.{ActsBy};
ghost use Rattle.ctr_rollback.specs.page_turns_Turns.{LogsAtRest, RestsBehind};

use ctr_disk::Disk;
use ctr_model::states_grow;
use ctr_rollback::{a_turn_of_a_world_is_kept, an_action_keeps_the_pages};

/// An entry that is no answer keeps the World, where the walk is kept: of a turn that logged nothing, and by which nobody asks for a commit.
pub(crate) fn an_entry_alone_is_kept<D: Disk>()
    ensures { (c : Start) (opened : D) (a b : View D) (w v : Mind) (e : Entry) → KeepsWorld D.Disk c opened a w → v.tape ≡ w.tape ++ e ∷ []
        → KeepsRun c e.moment (site_of a.now) v → e.moment ≡ D.Disk.moment_of b.disk → asked_by e.reply (transaction_of (state_now c w) e.session) ≡ []
        → is_answer e.reply ≡ false → CountsOnNoMore w v → RestsBehind D.Disk a b → KeepsWorld D.Disk c opened b v }
{
    states_grow();
    a_turn_of_a_world_is_kept::<D>();
}

/// And of a turn of a session that logged the record of an action, behind which the session counts on no empty page.
pub(crate) fn an_entry_with_a_record_is_kept<D: Disk>()
    ensures { (c : Start) (opened : D) (a b : View D) (w v : Mind) (e : Entry) (s : ℕ) (seat : InTransaction c w s) (act : Action) (mine : List Fact) → KeepsWorld D.Disk c opened a w
        → 0 < seat.session.me → ActsBy seat.session.me act a.now b.now → v.tape ≡ w.tape ++ e ∷ [] → KeepsRun c e.moment (site_after seat.session.me act (site_of a.now)) v
        → e.moment ≡ D.Disk.moment_of b.disk → is_answer e.reply ≡ false → OthersAreHeld s w v → v.facts ≡ with_facts s mine w.facts
        → ((p : ℕ) (h : Header) → IsAmong (HasBlank p h) mine → ⊥) → LogsAtRest D.Disk a b → KeepsWorld D.Disk c opened b v }
{
    an_action_keeps_the_pages();
    a_turn_of_a_world_is_kept::<D>();
}
