// What is kept of a pass of the cleaner. A call does nothing: what it ensures is the law.
ghost use Rattle.std.specs.Prelude.{◌≡◌, ℕ, List, ◌++◌};
ghost use Rattle.ctr_types.specs.declared.statement.Line.{Line};
ghost use Rattle.ctr_types.specs.declared.tape.Entry.{Entry};
ghost use Rattle.ctr_model.specs.declared.tape.Point.{Point};
ghost use Rattle.ctr_model.specs.Tape.{final};
ghost use Rattle.ctr_area.specs.Sound.{IsBare};
ghost use Rattle.ctr_walk.specs.record_effects_States.{area_in};
ghost use Rattle.ctr_walk.specs.record_effects_Standing.{IsDatabaseState};
ghost use Rattle.ctr_cleaner.specs.Turning.{Heeded};
ghost use Rattle.ctr_cleaner.specs.cursor_Pass.{start};
ghost use Rattle.ctr_pass.specs.declared.going.Went.{Went};
ghost use Rattle.ctr_pass.specs.declared.pass.Pass.{Pass as PassAt};
ghost use Rattle.ctr_pass.specs.declared.pass.Phase.TheVariants.{Calm, Idle};
ghost use Rattle.ctr_pass.specs.Keeping.{PassedOver, HasNoneOpen, KeepsPass, StaysOrLogs, TurnsUnder};
ghost use Rattle.ctr_pass.specs.Passing.{noted, pass_behind};

use ctr_cleaner::{
    a_pass_goes_from_position_to_position, a_pass_goes_on,
    a_pass_that_finds_nothing_leaves_it_bare, a_position_stays, what_is_found_stays,
};

/// A pass is kept from its beginning, whatever happened before.
pub fn a_pass_begins()
    ensures { (next : ℕ) (v : PassedOver) → v.next ≡ next → KeepsPass (record { at = start; next = next; seen = 0; phase = Calm }) v }
{}

/// A pass is kept while others are at work, whose entries come behind the tape: where nothing was logged, but for more pages that are counted, or one record was.
pub fn a_pass_is_kept_beside_others()
    ensures { (lines : List Line) (first : Point) (p : PassAt) (v u : PassedOver) (es : List Entry) → KeepsPass p v
        → v.led ≡ (final lines first v.tape).state → u.led ≡ (final lines first u.tape).state → u.tape ≡ v.tape ++ es → StaysOrLogs v u → KeepsPass p u }
{
    what_is_found_stays();
    a_position_stays();
}

/// A pass that is idle once the cleaner has looked is kept without a turn.
pub fn an_idle_pass_is_kept()
    ensures { (p : PassAt) (v : PassedOver) → KeepsPass p v → (noted p v.next v.tape).phase ≡ Idle → KeepsPass (noted p v.next v.tape) v }
{}

/// Where a pass is idle, all are at rest, and no item is undo's, the pages are bare: nothing is left to clean.
pub fn an_idle_pass_leaves_it_bare()
    ensures { (p : PassAt) (v : PassedOver) → KeepsPass p v → (noted p v.next v.tape).phase ≡ Idle → HasNoneOpen v → v.undos ≡ 0 → IsDatabaseState v.state
        → IsBare v.state.tables (area_in v.state) }
{
    a_pass_that_finds_nothing_leaves_it_bare();
}

/// A pass that isn't idle is kept by a turn of the cleaner.
pub fn a_pass_is_kept_by_its_turn()
    ensures { (p : PassAt) (h : Heeded) (w : Went) (v u : PassedOver) → KeepsPass p v → IsDatabaseState v.state
        → ((noted p v.next v.tape).phase ≡ Idle → ⊥) → TurnsUnder p h w v u
        → KeepsPass (pass_behind (noted p v.next v.tape) w.from w.did h.may.unlink u.next) u }
{
    what_is_found_stays();
    a_pass_goes_on();
    a_pass_goes_from_position_to_position();
    a_position_stays();
}
