// A row that is written, in a World. A call does nothing: what it ensures is the law.
ghost use Rattle.std.specs.Prelude.{◌≡◌, ◌<◌, ◌++◌, ◌^◌, ℕ, ℤ, List, Some};
ghost use Rattle.ctr_types.specs.declared.statement.Statement.{Statement as Told};
ghost use Rattle.ctr_types.specs.declared.statement.Statement.TheVariants as st;
ghost use Rattle.ctr_types.specs.declared.tape.Entry.{Entry};
ghost use Rattle.ctr_types.specs.declared.tape.Refusal.{Refusal as Why};
ghost use Rattle.ctr_types.specs.declared.tape.Refusal.TheVariants as refusal;
ghost use Rattle.ctr_types.specs.declared.tape.Reply.TheVariants as reply;
ghost use Rattle.ctr_types.specs.declared.value.Schema.{Schema as Makes};
ghost use Rattle.ctr_model.specs.declared.limits.TheConstants.{CATALOG_ENTRIES, MOST_PAGES};
ghost use Rattle.ctr_model.specs.Laws.{IsSoundState, OthersOnly};
ghost use Rattle.ctr_model.specs.Refusals.{key_written};
ghost use Rattle.ctr_store.specs.Store.{View};
ghost use Rattle.ctr_looks.specs.kept_Walk.{Mind};
ghost use Rattle.ctr_looks.specs.kept_Turns.{Start, state_now};
ghost use Rattle.ctr_looks.specs.stops_World.{KeepsWorld};
ghost use Rattle.ctr_looks.specs.actions_Actions.{Drops};
ghost use Rattle.ctr_looks.specs.page_turns_Acts.{ActsBy};
ghost use Rattle.ctr_looks.specs.page_turns_Turns.{LogsAtRest, RestsBehind};
ghost use Rattle.ctr_looks.specs.ctr_ddl.Tables.{IsCatalogFull, IsMadeAt, MayDrop, MayMake};
ghost use Rattle.ctr_looks.specs.txn_Held.{TxnsHeld, run_of, number_drawn, IsOneOfEight};
ghost use Rattle.ctr_looks.specs.ctr_write.declared.stages.Stage.{Stage as At};
ghost use Rattle.ctr_looks.specs.ctr_write.declared.stages.Stage.TheVariants.{Looking};
ghost use Rattle.ctr_looks.specs.ctr_write.declared.stages.Written.TheVariants as written;
ghost use Rattle.ctr_looks.specs.ctr_write.Steps.{EndsWrite, MayTakeTurn};
ghost use Rattle.ctr_looks.specs.ctr_wishes.HeadMade.{HeadMade};
ghost use Rattle.ctr_looks.specs.ctr_wishes.declared.making.Prepared.{Prepared as Prepares};
ghost use Rattle.ctr_looks.specs.ctr_wishes.declared.making.Prepared.TheVariants.{Refused, Lays};
ghost use Rattle.ctr_looks.specs.ctr_session_world.World.{SessionsHeld};
ghost use Rattle.ctr_looks.specs.ctr_session_world.Told.{IsNextOf};
ghost use Rattle.ctr_looks.specs.declared.tables.TableWrite.TheVariants.{Make, Drop};
ghost use Rattle.ctr_writing.specs.declared.rows.Wrote.TheVariants.{On, Told as Tells};
ghost use Rattle.ctr_writing.specs.Rows.{IsAtRow, TurnOfRow, IsBetweenTurns, wish_by};
ghost use Rattle.ctr_writing.specs.Tables.{IsAtTableWrite, TurnOfTable};

use ctr_disk::Disk;
use ctr_looks::told::{
    a_refusal_is_told, a_row_that_is_written_is_told, a_session_may_count_on_what_holds,
    a_table_may_be_made_or_dropped, a_table_that_is_made_or_dropped_is_told,
    a_write_that_goes_on_is_kept, a_write_without_a_record,
};
use ctr_looks::wishes::what_is_prepared_stays_the_models;
use ctr_looks::writes::a_turn_of_a_write_is_kept;
use ctr_looks::{the_run_is_of_the_sessions, who_rolls_back_is_at_its_rollback};
use ctr_model::snapshots_stay;

/// What a session counts on of its row's Write stays, whatever others do between two of its turns.
pub fn what_a_write_counts_on_stays()
    ensures { (c : Start) (s : ℕ) (statement : Told) (w v : Mind) (e : ℕ) (p : Prepares) (stage : At) (es : List Entry) → IsSoundState (state_now c w) → OthersOnly s es
        → v.tape ≡ w.tape ++ es → v.facts s ≡ w.facts s → IsAtRow c s statement w e p stage → IsAtRow c s statement v e p stage }
{
    snapshots_stay();
    what_is_prepared_stays_the_models();
}

/// In a World a session may take a turn of its row's Write, whatever others did since its last one.
pub(crate) fn a_turn_of_a_row_may_be_taken<D: Disk>()
    ensures { (c : Start) (opened : D) (a b : View D) (h : SessionsHeld) (s : ℕ) (statement : Told) (next : IsNextOf D.Disk c opened a b h s statement 1) (e : ℕ) (key : ℤ) (head : HeadMade) (stage : At)
        → IsOneOfEight s → number_drawn s h.txns < 2 ^ 64 → key_written statement ≡ Some key → IsAtRow c s statement next.mind e (Lays head) stage
        → MayTakeTurn (wish_by (number_drawn s h.txns) e key head) stage a.now }
{
    a_session_may_count_on_what_holds::<D>();
    a_turn_of_a_write_is_kept::<D>();
    the_run_is_of_the_sessions();
}

/// What a turn of the Write leaves in a World, by what it did to the pages: it goes on, by a record or as more pages are counted; or it is told.
pub(crate) fn a_turn_of_a_row_is_told<D: Disk>()
    ensures on { (c : Start) (opened : D) (a b : View D) (h : SessionsHeld) (s : ℕ) (statement : Told) (next : IsNextOf D.Disk c opened a b h s statement 1) (e : ℕ) (key : ℤ) (head : HeadMade) (stage then : At)
        → IsOneOfEight s → number_drawn s h.txns < 2 ^ 64 → key_written statement ≡ Some key → IsAtRow c s statement next.mind e (Lays head) stage
        → EndsWrite (wish_by (number_drawn s h.txns) e key head) stage a.now b.now (written.On then) → IsBetweenTurns then → LogsAtRest D.Disk a b
        → (now : TxnsHeld) → run_of now ≡ run_of h.txns → TurnOfRow next (record h { txns = now }) e (Lays head) (On then) }
    ensures done { (c : Start) (opened : D) (a b : View D) (h : SessionsHeld) (s : ℕ) (statement : Told) (next : IsNextOf D.Disk c opened a b h s statement 1) (e : ℕ) (key : ℤ) (head : HeadMade) (stage : At)
        → IsOneOfEight s → number_drawn s h.txns < 2 ^ 64 → key_written statement ≡ Some key → IsAtRow c s statement next.mind e (Lays head) stage → e < 32
        → EndsWrite (wish_by (number_drawn s h.txns) e key head) stage a.now b.now written.Done → LogsAtRest D.Disk a b
        → TurnOfRow next h e (Lays head) (Tells reply.Done) }
    ensures grown { (c : Start) (opened : D) (a b : View D) (h : SessionsHeld) (s : ℕ) (statement : Told) (next : IsNextOf D.Disk c opened a b h s statement 1) (e : ℕ) (key : ℤ) (head : HeadMade) (stage : At)
        → IsOneOfEight s → key_written statement ≡ Some key → IsAtRow c s statement next.mind e (Lays head) stage
        → EndsWrite (wish_by (number_drawn s h.txns) e key head) stage a.now b.now written.Grown → KeepsWorld D.Disk c opened b next.mind
        → TurnOfRow next h e (Lays head) (On Looking) }
    ensures full { (c : Start) (opened : D) (a b : View D) (h : SessionsHeld) (s : ℕ) (statement : Told) (next : IsNextOf D.Disk c opened a b h s statement 1) (e : ℕ) (key : ℤ) (head : HeadMade) (stage : At)
        → IsOneOfEight s → key_written statement ≡ Some key → IsAtRow c s statement next.mind e (Lays head) stage
        → EndsWrite (wish_by (number_drawn s h.txns) e key head) stage a.now b.now written.Full → RestsBehind D.Disk a b
        → TurnOfRow next h e (Lays head) (Tells (reply.Refused (refusal.Full MOST_PAGES))) }
    ensures refused { (c : Start) (opened : D) (a b : View D) (h : SessionsHeld) (s : ℕ) (statement : Told) (next : IsNextOf D.Disk c opened a b h s statement 1) (e : ℕ) (why : Why) (stage : At)
        → IsOneOfEight s → IsAtRow c s statement next.mind e (Refused why) stage → RestsBehind D.Disk a b
        → TurnOfRow next h e (Refused why) (Tells (reply.Refused why)) }
{
    a_refusal_is_told::<D>();
    a_row_that_is_written_is_told::<D>();
    a_session_may_count_on_what_holds::<D>();
    a_turn_of_a_write_is_kept::<D>();
    a_write_that_goes_on_is_kept::<D>();
    a_write_without_a_record();
    the_run_is_of_the_sessions();
    what_is_prepared_stays_the_models();
}

/// In a World a session that holds the name may make the table of its statement, or drop the one that was found.
pub(crate) fn a_table_may_be_written<D: Disk>()
    ensures made { (c : Start) (opened : D) (a b : View D) (h : SessionsHeld) (s : ℕ) (name : List ℕ) (schema : Makes) (next : IsNextOf D.Disk c opened a b h s (st.Create name schema) 1) → IsOneOfEight s
        → IsAtTableWrite c s (st.Create name schema) next.mind Make → MayMake (number_drawn s h.txns) name a.now }
    ensures dropped { (c : Start) (opened : D) (a b : View D) (h : SessionsHeld) (s : ℕ) (statement : Told) (next : IsNextOf D.Disk c opened a b h s statement 1) (e : ℕ) → IsOneOfEight s
        → IsAtTableWrite c s statement next.mind (Drop e) → e < 32 → MayDrop (number_drawn s h.txns) e a.now }
{
    a_table_may_be_made_or_dropped::<D>();
    the_run_is_of_the_sessions();
    who_rolls_back_is_at_its_rollback();
}

/// And what its turn leaves: it is told, as done by a record, or as refused, where no entry of the catalog is free.
pub(crate) fn a_turn_of_a_table_is_told<D: Disk>()
    ensures made { (c : Start) (opened : D) (a b : View D) (h : SessionsHeld) (s : ℕ) (name : List ℕ) (schema : Makes) (next : IsNextOf D.Disk c opened a b h s (st.Create name schema) 1) (f : ℕ) → IsOneOfEight s
        → IsAtTableWrite c s (st.Create name schema) next.mind Make → IsMadeAt (number_drawn s h.txns) f name schema.columns a.now b.now → LogsAtRest D.Disk a b
        → (now : TxnsHeld) → run_of now ≡ run_of h.txns → TurnOfTable next (record h { txns = now }) reply.Done }
    ensures full { (c : Start) (opened : D) (a b : View D) (h : SessionsHeld) (s : ℕ) (name : List ℕ) (schema : Makes) (next : IsNextOf D.Disk c opened a b h s (st.Create name schema) 1) → IsOneOfEight s
        → IsAtTableWrite c s (st.Create name schema) next.mind Make → IsCatalogFull a.now b.now → RestsBehind D.Disk a b → TurnOfTable next h (reply.Refused (refusal.CatalogFull CATALOG_ENTRIES)) }
    ensures dropped { (c : Start) (opened : D) (a b : View D) (h : SessionsHeld) (s : ℕ) (statement : Told) (next : IsNextOf D.Disk c opened a b h s statement 1) (e : ℕ) → IsOneOfEight s
        → IsAtTableWrite c s statement next.mind (Drop e) → e < 32 → ActsBy (number_drawn s h.txns) (Drops e) a.now b.now → LogsAtRest D.Disk a b
        → (now : TxnsHeld) → run_of now ≡ run_of h.txns → TurnOfTable next (record h { txns = now }) reply.Done }
{
    a_refusal_is_told::<D>();
    a_table_that_is_made_or_dropped_is_told::<D>();
    the_run_is_of_the_sessions();
    who_rolls_back_is_at_its_rollback();
}
