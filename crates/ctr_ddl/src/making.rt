// A table is made.
ghost use Rattle.std.specs.Prelude.{◌≡◌, IfOk, IfErr};
ghost use Rattle.ctr_disk.specs.declared.fault.StoreFault.TheVariants.{Fault};
ghost use Rattle.ctr_value.specs.Columns.{ColumnsFit};
ghost use Rattle.ctr_base.specs.Base.{WhereSound};
ghost use Rattle.ctr_page_turns.specs.walk_OneRecord.{HasRoomForOne};
ghost use Rattle.ctr_page_turns.specs.Turns.{Turns};
ghost use Rattle.ctr_ddl.specs.Tables.{MayMake, MakesBy, IsEntryMade, MakingLeaves, next_made};

use ctr_base::Origin;
use ctr_disk::{Disk, StoreFault};
use ctr_page_turns::{
    Store, a_record_acts, a_record_is_refused_by_the_disk_alone, a_turn_goes_on,
    tables_lie_as_their_actions, tables_pass_their_checks,
};
use ctr_types::{Name, Schema, Xid};
use ctr_undamaged::{CatalogRefusal, a_catalog_search_meets_no_damage, create};

/// What a turn did that was to make a table.
#[derive(Clone, Copy, Debug, PartialEq, Eq)]
pub enum Made {
    /// The table has this entry of the catalog.
    At(u8),
    /// No entry of the catalog is free: it has 32.
    CatalogFull,
}

/// The Write of a CREATE TABLE: the table gets the lowest free entry of the catalog, by one record, which isn't hardened yet. That the
/// transaction sees no table of the name, and that nobody else makes or drops one, is by its hold of the name.
pub fn make_table<D: Disk, O: Origin>(
    store: &mut Store<D, O>,
    x: Xid,
    name: &Name,
    schema: &Schema,
) -> Result<Made, StoreFault>
    requires room { HasRoomForOne 0 1 store.old }
    requires fits { ColumnsFit schema.now.columns }
    // It logs one record, or reads pages.
    ensures turns { Turns O.first D.Disk store.old store.new result }
    // The table has one of the 32 entries.
    ensures inside { IfOk result IsEntryMade }
    // The room of an item goes with a table that is made.
    ensures left { IfOk result (λ m. MakingLeaves m store.old.meta store.new.meta) }
    // The log's next number goes with its record.
    ensures numbers { IfOk result (λ m. store.new.next ≡ next_made m store.old.next) }
    // What its record owes is met, and its bytes pass their checks; or no entry is free.
    ensures makes { WhereSound O.first D.Disk (MayMake x name.now store.old.now → IfOk result (MakesBy x name.now schema.now.columns store.old.now store.new.now)) }
    // It is refused for no other cause than that the disk failed.
    ensures refused { WhereSound O.first D.Disk (MayMake x name.now store.old.now → IfErr result (λ e. e ≡ Fault)) }
{
    let _tables = store.meta();
    a_record_is_refused_by_the_disk_alone::<D, ()>();
    a_catalog_search_meets_no_damage();
    a_turn_goes_on::<D, u8, Made>();
    a_turn_goes_on::<D, (), Made>();
    a_record_acts::<D>();
    tables_lie_as_their_actions();
    tables_pass_their_checks();
    let _bytes = name.as_slice();
    match create(store, x, name, schema) {
        Ok(entry) => Ok(Made::At(entry)),
        Err(refusal) => match refusal {
            CatalogRefusal::CatalogFull => Ok(Made::CatalogFull),
            CatalogRefusal::Store(fault) => Err(fault),
        },
    }
}
