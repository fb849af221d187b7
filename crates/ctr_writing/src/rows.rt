// The Write of a row.
ghost use Rattle.std.specs.Prelude.{◌≡◌, ◌<◌, ℕ, true, List, is_some, IfOk, IfErr};
ghost use Rattle.ctr_disk.specs.declared.fault.StoreFault.TheVariants.{Fault};
ghost use Rattle.ctr_types.specs.declared.statement.Statement.{Statement as Said};
ghost use Rattle.ctr_model.specs.Refusals.{key_written};
ghost use Rattle.ctr_base.specs.Base.{WhereSound};
ghost use Rattle.ctr_looks.specs.kept_Turns.{Start};
ghost use Rattle.ctr_locks.specs.Held.{LocksOfSession};
ghost use Rattle.ctr_looks.specs.ctr_wishes.declared.making.Prepared.TheVariants.{Lays};
ghost use Rattle.ctr_looks.specs.ctr_session_world.Ready.{LeavesOver, MayTurn, LeavesDisk};
ghost use Rattle.ctr_looks.specs.ctr_session_world.Told.{IsNextOf};
ghost use Rattle.ctr_writing.specs.Rows.{IsAtRow, TurnOfRow, WentBy, MayGoOn, LeavesStage};

use crate::laws::{a_turn_of_a_row_is_told, a_turn_of_a_row_may_be_taken};
use crate::room::{keep_room, there_is_room_for_a_turn};
use ctr_base::Origin;
use ctr_disk::{Disk, StoreFault};
use ctr_looks::told::{a_write_without_a_record, growth_behind_pages_keeps_a_world};
use ctr_looks::wishes::{Head, Prepared};
use ctr_looks::writes::{Stage, Written, write};
use ctr_looks::{Txns, a_turn_goes_or_counts_a_fault, a_turn_is_told_by_its_number};
use ctr_model::MOST_PAGES;
use ctr_statement::key_written;
use ctr_store::Store;
use ctr_types::{Refusal, Reply, Statement};

/// What a turn of the Write of a row answers.
#[derive(Drop)]
pub enum Wrote {
    /// It goes on at its session's next turn, and is so far now.
    On(Stage),
    /// It is done, or refused.
    Told(Reply),
}

// A turn of a Write that lays a head, for the row of a key in the table of an entry.
fn lay<D: Disk, O: Origin>(
    store: &mut Store<D, O>,
    txns: &mut Txns,
    s: u8,
    entry: u8,
    key: i64,
    head: &Head,
    stage: Stage,
) -> Result<Wrote, StoreFault>
    requires may { MayTurn s txns.old store.old }
    requires at { (entry < 32) × MayGoOn s txns.old store.old.now.counted stage }
    ensures stage { IfOk result (LeavesStage s txns.new store.new.now.counted) }
    ensures went { IfOk result (WentBy store.old store.new) }
    ensures over { LeavesOver s txns.old txns.new store.old store.new result }
    ensures told { (c : Start) (opened : D) (locks : List (ℕ × LocksOfSession)) (statement : Said) → WhereSound O.first D.Disk ((next : IsNextOf D.Disk c opened store.old store.new (record { txns = txns.old; locks = locks }) s statement 1)
        → key_written statement ≡ Some key → IsAtRow c s statement next.mind entry (Lays head.now) stage → IfOk result (λ r. TurnOfRow next (record { txns = txns.new; locks = locks }) entry (Lays head.now) r)) }
    ensures refused { (c : Start) (opened : D) (locks : List (ℕ × LocksOfSession)) (statement : Said) → WhereSound O.first D.Disk ((next : IsNextOf D.Disk c opened store.old store.new (record { txns = txns.old; locks = locks }) s statement 1)
        → key_written statement ≡ Some key → IsAtRow c s statement next.mind entry (Lays head.now) stage → IfErr result (λ e. e ≡ Fault)) }
    ensures disk { LeavesDisk O.first D.Disk store.old store.new result }
{
    a_turn_goes_or_counts_a_fault::<D, Written>();
    a_turn_is_told_by_its_number::<D, Written>();
    a_turn_of_a_row_is_told::<D>();
    a_turn_of_a_row_may_be_taken::<D>();
    a_write_without_a_record();
    growth_behind_pages_keeps_a_world::<D, Written>();
    there_is_room_for_a_turn::<D>();
    let x = txns.me(s);
    let version = head.version(x);
    let written = write(store, x, entry, key, &version, stage);
    store.rests();
    match written {
        Err(fault) => Err(fault),
        Ok(written) => match written {
            Written::On(then) => {
                keep_room(txns, s, then);
                Ok(Wrote::On(then))
            }
            Written::Grown => Ok(Wrote::On(Stage::Looking)),
            Written::Done => Ok(Wrote::Told(Reply::Done)),
            Written::Full => Ok(Wrote::Told(Reply::Refused {
                refusal: Refusal::Full { limit: MOST_PAGES },
            })),
        },
    }
}

/// A turn of the Write of an INSERT, UPDATE or DELETE, whose Lock was granted: of the row of its key, in the table of an entry of the catalog,
/// what was prepared at the Lock. It is refused at once, as it was prepared; or it lays the head, in as many turns as it takes: each logs one
/// record, or counts more pages; or it is refused, as no page is free and no more can be counted. It takes no memory. What was worked out stays at hand between its turns,
/// with how far the Write is.
pub fn write_row<D: Disk, O: Origin>(
    store: &mut Store<D, O>,
    txns: &mut Txns,
    s: u8,
    statement: &Statement,
    entry: u8,
    prepared: &Prepared,
    stage: Stage,
) -> Result<Wrote, StoreFault>
    requires may { MayTurn s txns.old store.old }
    requires writes { is_some (key_written statement.now) ≡ true }
    requires at { (entry < 32) × MayGoOn s txns.old store.old.now.counted stage }
    // Whatever the disk tells, its next turn may be taken, where it goes on.
    ensures stage { IfOk result (LeavesStage s txns.new store.new.now.counted) }
    // It goes on by a record, or as more pages are counted.
    ensures went { IfOk result (WentBy store.old store.new) }
    ensures over { LeavesOver s txns.old txns.new store.old store.new result }
    // In a World it goes on, or it is told.
    ensures told { (c : Start) (opened : D) (locks : List (ℕ × LocksOfSession)) → WhereSound O.first D.Disk ((next : IsNextOf D.Disk c opened store.old store.new (record { txns = txns.old; locks = locks }) s statement.now 1)
        → IsAtRow c s statement.now next.mind entry prepared.now stage → IfOk result (λ r. TurnOfRow next (record { txns = txns.new; locks = locks }) entry prepared.now r)) }
    // There it fails by the disk alone.
    ensures refused { (c : Start) (opened : D) (locks : List (ℕ × LocksOfSession)) → WhereSound O.first D.Disk ((next : IsNextOf D.Disk c opened store.old store.new (record { txns = txns.old; locks = locks }) s statement.now 1)
        → IsAtRow c s statement.now next.mind entry prepared.now stage → IfErr result (λ e. e ≡ Fault)) }
    // However it ends, time doesn't go back, a fault is told where the disk counts one more, and a crash in it leaves what was hardened with
    // some of what waited.
    ensures disk { LeavesDisk O.first D.Disk store.old store.new result }
{
    a_turn_of_a_row_is_told::<D>();
    store.rests();
    let Some(key) = key_written(statement) else {
        unreachable!()
    };
    match prepared {
        Prepared::Refused(refusal) => Ok(Wrote::Told(Reply::Refused { refusal: *refusal })),
        Prepared::Lays(head) => lay(store, txns, s, entry, key.number(), head, stage),
    }
}
