// Acts that log nothing: BEGIN, a Read, a refusal, and the end of a transaction that wrote nothing.
ghost use Rattle.std.specs.Prelude.{◌≡◌, ℕ, List, None};
ghost use Rattle.ctr_types.specs.declared.tape.Act.{Act};
ghost use Rattle.ctr_types.specs.declared.tape.Act.TheVariants as act;
ghost use Rattle.ctr_types.specs.declared.tape.Refusal.{Refusal};
ghost use Rattle.ctr_types.specs.declared.tape.Reply.TheVariants as reply;
ghost use Rattle.ctr_types.specs.declared.value.Rows.{Rows};
ghost use Rattle.ctr_model.specs.State.{transaction_of};
ghost use Rattle.ctr_rollback.specs.actions_Facts.{Fact};
ghost use Rattle.ctr_views.specs.actions_Sites.{site_of};
ghost use Rattle.ctr_rollback.specs.store_Store.{View};
ghost use Rattle.ctr_rollback.specs.kept_Walk.{Mind};
ghost use Rattle.ctr_rollback.specs.kept_Turns.{Start, Telling, MayCome, telling, begun_mind, gone_mind, state_now};
ghost use Rattle.ctr_rollback.specs.stops_World.{KeepsWorld};
ghost use Rattle.ctr_rollback.specs.page_turns_Turns.{RestsBehind};
ghost use Rattle.ctr_told.specs.Turning.{TellsTurnOf, TellsTurnOutside, IdleCountsOn};

use crate::entries::an_entry_alone_is_kept;
use ctr_disk::Disk;
use ctr_rollback::{
    a_reader_ends, a_refusal_outside_is_kept, a_session_begins, locks_and_reads_are_kept,
};

/// A session begins a transaction: its snapshot is of the commits that are answered.
pub fn a_begin_is_told<D: Disk>()
    ensures { (c : Start) (opened : D) (a b : View D) (w : Mind) (s : ℕ) (tells : TellsTurnOutside D.Disk c opened a b w s)
        → MayCome c w tells.e act.Begin (reply.Began (state_now c w).answered) → RestsBehind D.Disk a b
        → KeepsWorld D.Disk c opened b (telling tells.e act.Begin (reply.Began (state_now c w).answered) w (begun_mind s (site_of a.now) (state_now c w).answered w)) }
{
    a_session_begins();
    an_entry_alone_is_kept::<D>();
}

/// Rows that are read leave the session what it counts on between two statements.
pub fn rows_that_are_read_are_told<D: Disk>()
    ensures { (c : Start) (opened : D) (a b : View D) (w : Mind) (s : ℕ) (tells : TellsTurnOf D.Disk c opened a b w s) (rows : Rows) (more : List Fact) → IdleCountsOn tells.seat.session.me more (w.facts s)
        → MayCome c w tells.e act.Read (reply.Rows rows) → RestsBehind D.Disk a b → KeepsWorld D.Disk c opened b (telling tells.e act.Read (reply.Rows rows) w w) }
{
    locks_and_reads_are_kept();
    an_entry_alone_is_kept::<D>();
}

/// A refused act changes nothing but the tape, whether the session is in a transaction or in none.
pub fn a_refusal_is_told<D: Disk>()
    ensures inside { (c : Start) (opened : D) (a b : View D) (w : Mind) (s : ℕ) (tells : TellsTurnOf D.Disk c opened a b w s) (x : Act) (why : Refusal)
        → MayCome c w tells.e x (reply.Refused why) → RestsBehind D.Disk a b → KeepsWorld D.Disk c opened b (telling tells.e x (reply.Refused why) w w) }
    ensures outside { (c : Start) (opened : D) (a b : View D) (w : Mind) (s : ℕ) (tells : TellsTurnOutside D.Disk c opened a b w s) (x : Act) (why : Refusal)
        → MayCome c w tells.e x (reply.Refused why) → RestsBehind D.Disk a b → KeepsWorld D.Disk c opened b (telling tells.e x (reply.Refused why) w w) }
{
    locks_and_reads_are_kept();
    a_refusal_outside_is_kept();
    an_entry_alone_is_kept::<D>();
}

/// The transaction of a session without a number ends at its COMMIT or its ROLLBACK.
pub fn a_reader_that_ends_is_told<D: Disk>()
    ensures commit { (c : Start) (opened : D) (a b : View D) (w : Mind) (s : ℕ) (tells : TellsTurnOf D.Disk c opened a b w s) → tells.seat.session.me ≡ 0
        → MayCome c w tells.e act.Ask reply.ReadOnly → RestsBehind D.Disk a b → KeepsWorld D.Disk c opened b (telling tells.e act.Ask reply.ReadOnly w (gone_mind s w)) }
    ensures rollback { (c : Start) (opened : D) (a b : View D) (w : Mind) (s : ℕ) (tells : TellsTurnOf D.Disk c opened a b w s) → tells.seat.session.me ≡ 0
        → MayCome c w tells.e act.Rollback reply.RolledBack → RestsBehind D.Disk a b → KeepsWorld D.Disk c opened b (telling tells.e act.Rollback reply.RolledBack w (gone_mind s w)) }
{
    a_reader_ends();
    an_entry_alone_is_kept::<D>();
}
