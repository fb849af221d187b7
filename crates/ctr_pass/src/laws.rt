// The cleaner beside sessions. A call does nothing: what it ensures is the law.
ghost use Rattle.std.specs.Prelude.{◌≡◌, ℕ, false, List, Some, None};
ghost use Rattle.ctr_types.specs.declared.statement.Line.{Line};
ghost use Rattle.ctr_types.specs.declared.tape.Entry.{Entry};
ghost use Rattle.ctr_model.specs.declared.state.Transaction.{Transaction};
ghost use Rattle.ctr_model.specs.declared.tape.Point.{Point};
ghost use Rattle.ctr_model.specs.State.{transaction_of};
ghost use Rattle.ctr_model.specs.Tape.{final};
ghost use Rattle.ctr_actions.specs.Sites.{site_of};
ghost use Rattle.ctr_actions.specs.Actions.{Action};
ghost use Rattle.ctr_walk.specs.store_Store.{View};
ghost use Rattle.ctr_cleaner.specs.page_turns_Turns.{LogsAtRest};
ghost use Rattle.ctr_cleaner.specs.page_turns_Acts.{ActsBy};
ghost use Rattle.ctr_exec.specs.ctr_control.kept_Turns.{Start, scene_now};
ghost use Rattle.ctr_exec.specs.ctr_control.kept_Walk.{Mind};
ghost use Rattle.ctr_exec.specs.declared.sessions.Sessions.{Sessions as SessionsAt};
ghost use Rattle.ctr_exec.specs.Sessions.{ShowsSessions};
ghost use Rattle.ctr_cleaner.specs.cleaning_Sparing.{MayClean};
ghost use Rattle.ctr_pass.specs.Beside.{SparesLocked};
ghost use Rattle.ctr_pass.specs.Passing.{HasLocksOf, some_end};

use ctr_cleaner::a_cleaned_world_is_kept;
use ctr_disk::Disk;

/// What the cleaner may do leaves the sessions of a script in their World: each where it is, with its transaction and its locks, and the tape as it
/// was.
pub fn the_cleaner_leaves_the_sessions<D: Disk>()
    ensures { (c : Start) (opened : D) (a b : View D) (h : SessionsAt) (w : Mind) (low : ℕ) (does : Action) → ShowsSessions D.Disk c opened a h w
        → MayClean low does (site_of a.now) (scene_now c w) w.undo → SparesLocked h.locks does → ActsBy a.now.tables.next does a.now b.now → LogsAtRest D.Disk a b
        → ShowsSessions D.Disk c opened b h w }
{
    a_cleaned_world_is_kept::<D>();
}

/// Entries of a tape that end no transaction leave each session in the one that it is in, with the locks that it has: who is in none behind them was in
/// none before.
pub fn a_calm_tape_leaves_who_is_inside()
    ensures inside { (lines : List Line) (p : Point) (es : List Entry) (s : ℕ) (t : Transaction) → some_end es ≡ false → transaction_of p.state s ≡ Some t
        → (u : Transaction) × (transaction_of (final lines p es).state s ≡ Some u) × HasLocksOf t u }
    ensures outside { (lines : List Line) (p : Point) (es : List Entry) (s : ℕ) → some_end es ≡ false → transaction_of (final lines p es).state s ≡ None
        → transaction_of p.state s ≡ None }
{}
