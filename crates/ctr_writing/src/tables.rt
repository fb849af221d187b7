// The Write of a CREATE TABLE and of a DROP TABLE.
ghost use Rattle.std.specs.Prelude.{◌≡◌, ◌<◌, ℕ, List, IfOk, IfErr};
ghost use Rattle.ctr_disk.specs.declared.fault.StoreFault.TheVariants.{Fault};
ghost use Rattle.ctr_types.specs.declared.statement.Statement.{Statement as Said};
ghost use Rattle.ctr_types.specs.declared.statement.Statement.TheVariants as st;
ghost use Rattle.ctr_value.specs.Columns.{ColumnsFit};
ghost use Rattle.ctr_base.specs.Base.{WhereSound};
ghost use Rattle.ctr_looks.specs.kept_Turns.{Start};
ghost use Rattle.ctr_locks.specs.Held.{LocksOfSession};
ghost use Rattle.ctr_looks.specs.ctr_session_world.Ready.{LeavesOver, MayTurn, LeavesDisk};
ghost use Rattle.ctr_looks.specs.ctr_session_world.Told.{IsNextOf};
ghost use Rattle.ctr_looks.specs.declared.tables.TableWrite.TheVariants.{Make, Drop};
ghost use Rattle.ctr_looks.specs.Granting.{HasItem};
ghost use Rattle.ctr_looks.specs.Locking.{IsWriteOf};
ghost use Rattle.ctr_writing.specs.Tables.{HasFittingColumns, IsAtTableWrite, TurnOfTable};

use crate::laws::{a_table_may_be_written, a_turn_of_a_table_is_told};
use crate::room::{spend_room, there_is_room_for_an_item};
use ctr_base::Origin;
use ctr_disk::{Disk, StoreFault};
use ctr_looks::ddl::{Made, drop_live, make_table};
use ctr_looks::{TableWrite, Txns, a_turn_goes_or_counts_a_fault, a_turn_is_told_by_its_number};
use ctr_model::CATALOG_ENTRIES;
use ctr_store::Store;
use ctr_types::{Name, Refusal, Reply, Schema, Statement};

// A table is made.
fn make<D: Disk, O: Origin>(
    store: &mut Store<D, O>,
    txns: &mut Txns,
    s: u8,
    name: &Name,
    schema: &Schema,
) -> Result<Reply, StoreFault>
    requires may { MayTurn s txns.old store.old }
    requires item { HasItem s txns.old }
    requires fits { ColumnsFit schema.now.columns }
    ensures over { LeavesOver s txns.old txns.new store.old store.new result }
    ensures told { (c : Start) (opened : D) (locks : List (ℕ × LocksOfSession)) → WhereSound O.first D.Disk
        ((next : IsNextOf D.Disk c opened store.old store.new (record { txns = txns.old; locks = locks }) s (st.Create name.now schema.now) 1) → IsAtTableWrite c s (st.Create name.now schema.now) next.mind Make
        → IfOk result (TurnOfTable next (record { txns = txns.new; locks = locks }))) }
    ensures refused { (c : Start) (opened : D) (locks : List (ℕ × LocksOfSession)) → WhereSound O.first D.Disk
        ((next : IsNextOf D.Disk c opened store.old store.new (record { txns = txns.old; locks = locks }) s (st.Create name.now schema.now) 1) → IsAtTableWrite c s (st.Create name.now schema.now) next.mind Make
        → IfErr result (λ e. e ≡ Fault)) }
    ensures disk { LeavesDisk O.first D.Disk store.old store.new result }
{
    a_table_may_be_written::<D>();
    a_turn_goes_or_counts_a_fault::<D, Made>();
    a_turn_is_told_by_its_number::<D, Made>();
    a_turn_of_a_table_is_told::<D>();
    there_is_room_for_an_item::<D>();
    let x = txns.me(s);
    let made = make_table(store, x, name, schema);
    store.rests();
    match made {
        Err(fault) => Err(fault),
        Ok(made) => match made {
            Made::At(_) => {
                spend_room(txns, s);
                Ok(Reply::Done)
            }
            Made::CatalogFull => Ok(Reply::Refused {
                refusal: Refusal::CatalogFull {
                    limit: CATALOG_ENTRIES,
                },
            }),
        },
    }
}

// The table of an entry is dropped.
fn drop_one<D: Disk, O: Origin>(
    store: &mut Store<D, O>,
    txns: &mut Txns,
    s: u8,
    entry: u8,
) -> Result<Reply, StoreFault>
    requires may { MayTurn s txns.old store.old }
    requires item { HasItem s txns.old }
    requires there { entry < 32 }
    ensures over { LeavesOver s txns.old txns.new store.old store.new result }
    ensures told { (c : Start) (opened : D) (locks : List (ℕ × LocksOfSession)) (statement : Said) → WhereSound O.first D.Disk
        ((next : IsNextOf D.Disk c opened store.old store.new (record { txns = txns.old; locks = locks }) s statement 1) → IsAtTableWrite c s statement next.mind (Drop entry)
        → IfOk result (TurnOfTable next (record { txns = txns.new; locks = locks }))) }
    ensures refused { (c : Start) (opened : D) (locks : List (ℕ × LocksOfSession)) (statement : Said) → WhereSound O.first D.Disk
        ((next : IsNextOf D.Disk c opened store.old store.new (record { txns = txns.old; locks = locks }) s statement 1) → IsAtTableWrite c s statement next.mind (Drop entry)
        → IfErr result (λ e. e ≡ Fault)) }
    ensures disk { LeavesDisk O.first D.Disk store.old store.new result }
{
    a_table_may_be_written::<D>();
    a_turn_is_told_by_its_number::<D, ()>();
    a_turn_of_a_table_is_told::<D>();
    there_is_room_for_an_item::<D>();
    let x = txns.me(s);
    let dropped = drop_live(store, x, entry);
    store.rests();
    match dropped {
        Err(fault) => Err(fault),
        Ok(()) => {
            spend_room(txns, s);
            Ok(Reply::Done)
        }
    }
}

/// The Write of a CREATE TABLE or a DROP TABLE, whose Lock was granted and told what it will do: the table gets the lowest free entry of the catalog, or the
/// transaction is the dropper of the one that was found, by one record. It is refused where no entry of the catalog is free. It takes no memory.
pub fn write_table<D: Disk, O: Origin>(
    store: &mut Store<D, O>,
    txns: &mut Txns,
    s: u8,
    statement: &Statement,
    what: TableWrite,
) -> Result<Reply, StoreFault>
    requires may { MayTurn s txns.old store.old }
    requires at { IsWriteOf statement.now what × HasItem s txns.old }
    requires fits { HasFittingColumns statement.now }
    ensures over { LeavesOver s txns.old txns.new store.old store.new result }
    // In a World it is told.
    ensures told { (c : Start) (opened : D) (locks : List (ℕ × LocksOfSession)) → WhereSound O.first D.Disk
        ((next : IsNextOf D.Disk c opened store.old store.new (record { txns = txns.old; locks = locks }) s statement.now 1) → IsAtTableWrite c s statement.now next.mind what
        → IfOk result (TurnOfTable next (record { txns = txns.new; locks = locks }))) }
    // There it fails by the disk alone.
    ensures refused { (c : Start) (opened : D) (locks : List (ℕ × LocksOfSession)) → WhereSound O.first D.Disk
        ((next : IsNextOf D.Disk c opened store.old store.new (record { txns = txns.old; locks = locks }) s statement.now 1) → IsAtTableWrite c s statement.now next.mind what
        → IfErr result (λ e. e ≡ Fault)) }
    // However it ends, time doesn't go back, a fault is told where the disk counts one more, and a crash in it leaves what was hardened with
    // some of what waited.
    ensures disk { LeavesDisk O.first D.Disk store.old store.new result }
{
    match what {
        TableWrite::Make => {
            let Statement::Create { table, schema } = statement else {
                unreachable!()
            };
            make(store, txns, s, table, schema)
        }
        TableWrite::Drop(entry) => drop_one(store, txns, s, entry),
    }
}
