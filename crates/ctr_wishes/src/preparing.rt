// What a Write will do, prepared at its Lock.
ghost use Rattle.std.specs.Prelude.{◌≡◌, ◌<◌, false, true, is_some, IfErr, IfOk, IfSome};
ghost use Rattle.ctr_model.specs.Refusals.{key_written};
ghost use Rattle.ctr_value.specs.Columns.{ColumnsFit};
ghost use Rattle.ctr_base.specs.Base.{WhereSound};
ghost use Rattle.ctr_record_effects.specs.States.{area_in};
ghost use Rattle.ctr_record_effects.specs.Standing.{HasSoundArea, IsDatabaseState};
ghost use Rattle.ctr_reading.specs.walk_Damage.{ReadsPages};
ghost use Rattle.ctr_reading.specs.catalog_Columns.{columns_there};
ghost use Rattle.ctr_reading.specs.Reading.{as_told, sight_sees, IsDiskOrMemory};
ghost use Rattle.ctr_wishes.specs.Preparing.{schema_read, columns_read, IsPrepared};

use crate::making::{Prepared, wished};
use ctr_base::Origin;
use ctr_disk::Disk;
use ctr_reading::{
    ReadRefusal, SchemaRefusal, Sight, a_catalog_search_meets_no_damage, row_of_key, schema,
};
use ctr_statement::key_written;
use ctr_store::Store;
use ctr_types::{Refusal, Schema, Statement};
use std::alloc::Global;

// Why the columns aren't read, as a reading is refused.
fn refused(refusal: SchemaRefusal) -> ReadRefusal
    ensures { result ≡ schema_read refusal }
{
    match refusal {
        SchemaRefusal::Store(fault) => ReadRefusal::Store(fault),
        SchemaRefusal::OutOfMemory => ReadRefusal::OutOfMemory,
    }
}

// The columns of the table of an entry of the catalog; none where it is free.
fn columns<D: Disk, O: Origin>(
    alloc: Global,
    store: &mut Store<D, O>,
    entry: u8,
) -> Result<Option<Schema>, ReadRefusal>
    requires going { store.old.stopped ≡ false }
    requires there { entry < 32 }
    ensures gives { WhereSound O.first D.Disk (IfOk result (λ found. columns_there (area_in store.old.now) entry ≡ columns_read found)) }
    ensures fits { IfOk result (λ found. IfSome found (λ schema. ColumnsFit schema.columns)) }
    ensures refused { WhereSound O.first D.Disk (IsDatabaseState store.old.now → IfErr result IsDiskOrMemory) }
    ensures leaves { ReadsPages O.first D.Disk store.old store.new (as_told result) }
{
    a_catalog_search_meets_no_damage();
    match schema(store, alloc, entry) {
        Err(refusal) => Err(refused(refusal)),
        Ok(found) => Ok(found),
    }
}

/// What the Write of an INSERT, UPDATE or DELETE will do, worked out at its Lock: the head that it lays, or why it is refused, by the table's
/// columns and the row of the key that the session sees. The table is that of an entry of the catalog, 0 to 31. What is read on the way is
/// checked as it is read. It logs nothing. Memory is taken for the columns, the rows and the head; the Write itself takes none.
pub fn prepare<D: Disk, O: Origin>(
    alloc: Global,
    store: &mut Store<D, O>,
    sight: &Sight,
    entry: u8,
    statement: &Statement,
) -> Result<Prepared, ReadRefusal>
    requires going { store.old.stopped ≡ false }
    requires there { entry < 32 }
    requires writes { is_some (key_written statement.now) ≡ true }
    // It is what the statement comes to, by the columns of the table and the row that is seen.
    ensures prepared { WhereSound O.first D.Disk (HasSoundArea store.old.now
        → IfOk result (IsPrepared (sight_sees store.old.now.tables sight.now) (area_in store.old.now) entry statement.now)) }
    // It is refused for no other cause than that the disk failed, or for want of memory.
    ensures refused { WhereSound O.first D.Disk (IsDatabaseState store.old.now → IfErr result IsDiskOrMemory) }
    // It logs nothing; and a fault is told where the disk counts one more, by `a_fault_of_reading_is_counted`.
    ensures leaves { ReadsPages O.first D.Disk store.old store.new (as_told result) }
{
    let Some(key) = key_written(statement) else {
        unreachable!();
    };
    let number = key.number();
    let found = match columns(alloc, store, entry) {
        Err(refusal) => return Err(refusal),
        Ok(found) => found,
    };
    let Some(schema) = found else {
        return Ok(Prepared::Refused(Refusal::NoTable));
    };
    let row = match row_of_key(alloc, store, sight, entry, number) {
        Err(refusal) => return Err(refusal),
        Ok(row) => row,
    };
    match wished(alloc, &schema, statement, &row) {
        Err(_) => Err(ReadRefusal::OutOfMemory),
        Ok(prepared) => Ok(prepared),
    }
}
