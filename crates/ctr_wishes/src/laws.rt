// What is prepared is what the model says of the Write. A call does nothing: what it ensures is the law.
ghost use Rattle.std.specs.Prelude.{◌≡◌, ℕ, List, Some, None};
ghost use Rattle.ctr_types.specs.declared.value.Column.{Column};
ghost use Rattle.ctr_types.specs.declared.statement.Line.{Line};
ghost use Rattle.ctr_types.specs.declared.statement.Statement.{Statement};
ghost use Rattle.ctr_types.specs.declared.tape.Act.TheVariants as act;
ghost use Rattle.ctr_types.specs.declared.tape.Entry.{Entry};
ghost use Rattle.ctr_model.specs.Laws.{IsSoundState, OthersOnly};
ghost use Rattle.ctr_model.specs.Refusals.{table_of, refusal_of};
ghost use Rattle.ctr_model.specs.Reply.{reply_inside, with_granted};
ghost use Rattle.ctr_model.specs.declared.state.State.{State};
ghost use Rattle.ctr_model.specs.declared.state.Transaction.{Transaction};
ghost use Rattle.ctr_model.specs.State.{transaction_of, with_transaction, view};
ghost use Rattle.ctr_model.specs.declared.tape.Point.{Point};
ghost use Rattle.ctr_model.specs.Tape.{final};
ghost use Rattle.ctr_redo.specs.States.{State as Stored};
ghost use Rattle.ctr_record_effects.specs.States.{area_in};
ghost use Rattle.ctr_record_effects.specs.Standing.{IsDatabaseState};
ghost use Rattle.ctr_legal.specs.Kept.{IsFirm};
ghost use Rattle.ctr_names.specs.Search.{IsEntryFound};
ghost use Rattle.ctr_reading.specs.actions_Sites.{site_of};
ghost use Rattle.ctr_reading.specs.paged_Shown.{Scene, IsShown};
ghost use Rattle.ctr_reading.specs.ctr_views.Viewing.{Viewer, sees_by};
ghost use Rattle.ctr_wishes.specs.declared.making.Prepared.{Prepared};
ghost use Rattle.ctr_wishes.specs.Preparing.{IsPrepared};
ghost use Rattle.ctr_wishes.specs.Models.{IsModels, reply_of};

use ctr_model::snapshots_stay;
use ctr_reading::{a_scan_gives_the_table, an_entry_has_columns, rows_are_those_of_the_view};

/// Where nothing speaks against the Lock of a statement, whose table the session has found, what is prepared is what the model says of its Write: it is
/// refused exactly where the model refuses the Write, and for that; and the head that is laid is a version of a row of the table by any transaction,
/// and says the row of the one change that the model makes. So no BadValue and no NoTable comes.
pub fn what_is_prepared_is_the_models()
    ensures { (low : ℕ) (s : Stored) (scene : Scene) (v : Viewer scene) (name : List ℕ) (e : ℕ) (statement : Statement) (p : Prepared) → IsShown low (site_of s) scene
        → IsDatabaseState s → IsFirm scene.state.asked v.t → IsEntryFound (sees_by (site_of s) v) name (area_in s) e → table_of statement ≡ Some name
        → refusal_of scene.state v.s v.t act.Lock statement ≡ None → IsPrepared (sees_by (site_of s) v) (area_in s) e statement p
        → IsModels (view scene.state v.t) ((area_in s).title e).columns statement p }
{
    rows_are_those_of_the_view();
    a_scan_gives_the_table();
    an_entry_has_columns();
}

/// And so it stays until the Write: once the Lock is granted, and while other sessions act. The reply to the Write is the model's then.
pub fn what_is_prepared_stays_the_models()
    ensures granted { (state : State) (s : ℕ) (t : Transaction) (columns : List Column) (statement : Statement) (p : Prepared) → IsModels (view state t) columns statement p
        → IsModels (view (with_transaction s (with_granted act.Lock (Some statement) t) state) (with_granted act.Lock (Some statement) t)) columns statement p }
    ensures others { (lines : List Line) (at : Point) (es : List Entry) (s : ℕ) (t : Transaction) (columns : List Column) (statement : Statement) (p : Prepared) → IsSoundState at.state
        → transaction_of at.state s ≡ Some t → OthersOnly s es → IsModels (view at.state t) columns statement p → IsModels (view (final lines at es).state t) columns statement p }
    ensures reply { (state : State) (s : ℕ) (t : Transaction) (columns : List Column) (statement : Statement) (p : Prepared) → IsModels (view state t) columns statement p
        → reply_inside state s t act.Write statement ≡ reply_of p }
{
    snapshots_stay();
}
