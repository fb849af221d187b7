// How many tables there are, and how many rows they have.
ghost use Rattle.std.specs.Prelude.{◌≡◌, ◌<◌, false, IfErr, IfOk};
ghost use Rattle.ctr_base.specs.Base.{WhereSound};
ghost use Rattle.ctr_area.specs.Images.{is_committed_in};
ghost use Rattle.ctr_record_effects.specs.States.{area_in};
ghost use Rattle.ctr_record_effects.specs.Standing.{HasSoundArea, IsDatabaseState};
ghost use Rattle.ctr_walk.specs.Damage.{ReadsPages};
ghost use Rattle.ctr_reading.specs.Reading.{as_told, sight_sees, IsDiskOrMemory};
ghost use Rattle.ctr_survey.specs.Standing.{CountsEntry, AreCounts, SeesCommitted, with_entry_counts};

use crate::entries::{made, stands};
use ctr_base::Origin;
use ctr_disk::Disk;
use ctr_reading::{ReadRefusal, Sight, rows_of_table};
use ctr_store::Store;
use std::alloc::Global;

/// The entries of the catalog.
const ENTRIES: u8 = 32;

/// How many tables, and how many rows they have together, of which no more than 2^64 - 1 is told.
#[derive(Clone, Copy, Debug, PartialEq, Eq)]
pub(crate) struct Counts {
    pub(crate) tables: u64,
    pub(crate) rows: u64,
}

impl Counts {
    /// The counts with those of one more entry, of which a table may stand with so many rows.
    fn with(self, found: Option<u64>) -> Counts
        requires { self.tables < ENTRIES }
        ensures { result ≡ with_entry_counts found self }
    {
        match found {
            None => self,
            Some(rows) => Counts {
                tables: self.tables + 1,
                rows: self.rows.saturating_add(rows),
            },
        }
    }
}

/// How many rows who reads sees in the table of an entry, or none where no table stands there. It takes memory for these rows.
fn rows_standing<D: Disk, O: Origin>(
    alloc: Global,
    store: &mut Store<D, O>,
    sight: &Sight,
    entry: u8,
) -> Result<Option<u64>, ReadRefusal>
    requires going { store.old.stopped ≡ false }
    requires there { entry < 32 }
    ensures counts { WhereSound O.first D.Disk (HasSoundArea store.old.now → IfOk result (CountsEntry (sight_sees store.old.now.tables sight.now) (area_in store.old.now) entry)) }
    ensures refused { WhereSound O.first D.Disk (IsDatabaseState store.old.now → IfErr result IsDiskOrMemory) }
    ensures leaves { ReadsPages O.first D.Disk store.old store.new (as_told result) }
{
    let made = match made(store, entry) {
        Err(fault) => return Err(ReadRefusal::Store(fault)),
        Ok(made) => made,
    };
    if !stands(store.meta(), sight, made) {
        return Ok(None);
    }
    match rows_of_table(alloc, store, sight, entry) {
        Err(refusal) => Err(refusal),
        Ok(rows) => Ok(Some(rows.rows.len() as u64)),
    }
}

/// How many tables there are, and how many rows they have, where who reads sees all that is committed. The entries of the catalog are
/// gone through, and of each table that stands the rows are read.
pub(crate) fn count<D: Disk, O: Origin>(
    alloc: Global,
    store: &mut Store<D, O>,
    sight: &Sight,
) -> Result<Counts, ReadRefusal>
    requires going { store.old.stopped ≡ false }
    ensures counts { WhereSound O.first D.Disk (HasSoundArea store.old.now → SeesCommitted store.old.now.tables sight.now
        → IfOk result (AreCounts (is_committed_in store.old.now.tables) (area_in store.old.now))) }
    ensures refused { WhereSound O.first D.Disk (IsDatabaseState store.old.now → IfErr result IsDiskOrMemory) }
    ensures leaves { ReadsPages O.first D.Disk store.old store.new (as_told result) }
{
    let mut counts = Counts { tables: 0, rows: 0 };
    for entry in 0..ENTRIES {
        match rows_standing(alloc, store, sight, entry) {
            Err(refusal) => return Err(refusal),
            Ok(found) => counts = counts.with(found),
        }
    }
    Ok(counts)
}
