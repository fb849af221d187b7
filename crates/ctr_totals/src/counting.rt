// The rows of a table, along the positions of a pass.
ghost use Rattle.std.specs.Prelude.{◌≡◌, ◌≤◌, ◌<◌, ◌+◌, ◌*◌, ℕ, ℤ, false, List, length, IfOk, IfErr, IfSome};
ghost use Rattle.ctr_disk.specs.declared.fault.StoreFault.TheVariants.{Fault};
ghost use Rattle.ctr_base.specs.Base.{WhereSound};
ghost use Rattle.ctr_load.specs.Statements.{load_columns};
ghost use Rattle.ctr_page.specs.declared.rows.Place.{Place as PlaceOf};
ghost use Rattle.ctr_area.specs.Chains.{slot_places};
ghost use Rattle.ctr_area.specs.Images.{is_committed_in};
ghost use Rattle.ctr_record_effects.specs.States.{area_in};
ghost use Rattle.ctr_record_effects.specs.Standing.{IsDatabaseState};
ghost use Rattle.ctr_actions.specs.Sites.{site_of};
ghost use Rattle.ctr_walk.specs.Damage.{ReadsPages};
ghost use Rattle.ctr_cursor.specs.declared.position.Position.TheVariants.{Slot};
ghost use Rattle.ctr_cursor.specs.Pass.{next_position};
ghost use Rattle.ctr_cursor.specs.Standing.{IsPosition, IsCountedPosition};
ghost use Rattle.ctr_totals.specs.Facts.{number_at};
ghost use Rattle.ctr_totals.specs.Counting.{IsSmall, IsNear, AddsTo, AreCountedOf};
ghost use Rattle.ctr_totals.specs.Along.{GoesAlong, IsSlotIn};

use crate::chains::seen_at;
use ctr_base::Origin;
use ctr_cursor::{Position, a_pass_goes_from_position_to_position, advance};
use ctr_disk::{Disk, StoreFault};
use ctr_page::Place;
use ctr_store::Store;

/// The rows of the table of a generated script, and the sum of their second column.
#[derive(Clone, Copy, Debug, PartialEq, Eq)]
pub struct Totals {
    pub rows: u64,
    pub sum: i128,
}

impl Totals {
    /// No rows.
    pub const NONE: Totals = Totals { rows: 0, sum: 0 };

    /// With one more row, where there is one, of which this is the number.
    fn with(self, number: Option<i64>) -> Totals
        requires small { IsSmall self }
        ensures adds { AddsTo number self result }
        ensures near { IsNear self result }
    {
        match number {
            None => self,
            Some(number) => Totals {
                rows: self.rows + 1,
                sum: self.sum + i128::from(number),
            },
        }
    }
}

/// More slots than all pages have that can be counted.
const MOST_SLOTS: u32 = 40_800_000;

/// A slot of a table, where a pass is.
#[derive(Clone, Copy, Debug, PartialEq, Eq)]
struct SlotAt {
    entry: u8,
    bucket: u8,
    place: Place,
}

/// The slot that a pass is at, if it is at one.
fn slot_in(position: Option<Position>) -> Option<SlotAt>
    ensures { IsSlotIn position result }
{
    match position {
        Some(
            Position::Slot {
                entry,
                bucket,
                place,
            },
        ) => Some(SlotAt {
            entry,
            bucket,
            place,
        }),
        Some(Position::Entry { .. }) => None,
        Some(Position::Kept { .. }) => None,
        Some(Position::Aborted { .. }) => None,
        None => None,
    }
}

/// What there is to count of a slot, and where a pass goes on.
#[derive(Clone, Copy, Debug, PartialEq, Eq)]
struct Counted {
    /// The number of the row's newest committed version.
    number: Option<i64>,
    next: Option<Position>,
}

/// What there is to count of a slot of a table, and the position behind it.
fn count_one<D: Disk, O: Origin>(
    store: &mut Store<D, O>,
    slot: SlotAt,
) -> Result<Counted, StoreFault>
    requires going { store.old.stopped ≡ false }
    requires within { IsCountedPosition store.old.now.counted (Slot slot.entry slot.bucket slot.place) }
    ensures number { WhereSound O.first D.Disk (IsDatabaseState store.old.now → ((area_in store.old.now).title slot.entry).columns ≡ load_columns
        → IsPosition (Slot slot.entry slot.bucket slot.place) (site_of store.old.now) → IfOk result (λ c. c.number ≡ number_at (is_committed_in store.old.now.tables) (area_in store.old.now) slot.place)) }
    ensures next { WhereSound O.first D.Disk (IfOk result (λ c. c.next ≡ next_position (site_of store.old.now) (Slot slot.entry slot.bucket slot.place))) }
    ensures refused { WhereSound O.first D.Disk (IsDatabaseState store.old.now → ((area_in store.old.now).title slot.entry).columns ≡ load_columns
        → IsPosition (Slot slot.entry slot.bucket slot.place) (site_of store.old.now) → IfErr result (λ f. f ≡ Fault)) }
    ensures inside { IfOk result (λ c. IfSome c.next (IsCountedPosition store.old.now.counted)) }
    ensures leaves { ReadsPages O.first D.Disk store.old store.new result }
{
    a_pass_goes_from_position_to_position();
    let number = match seen_at(store, slot.place) {
        Err(fault) => return Err(fault),
        Ok(number) => number,
    };
    let position = Position::Slot {
        entry: slot.entry,
        bucket: slot.bucket,
        place: slot.place,
    };
    match advance(store, position) {
        Err(fault) => Err(fault),
        Ok(next) => Ok(Counted { number, next }),
    }
}

/// The totals of the slots that a pass comes by from a position on, up to the first that is no slot.
fn count_from<D: Disk, O: Origin>(
    store: &mut Store<D, O>,
    first: Option<Position>,
) -> Result<Totals, StoreFault>
    requires going { store.old.stopped ≡ false }
    requires within { IfSome first (IsCountedPosition store.old.now.counted) }
    ensures counts { (e : ℕ) (places : List PlaceOf) → WhereSound O.first D.Disk (IsDatabaseState store.old.now → ((area_in store.old.now).title e).columns ≡ load_columns
        → GoesAlong (site_of store.old.now) e first places → IfSome first (λ x. IsPosition x (site_of store.old.now)) → length places ≤ MOST_SLOTS
        → IfOk result (AreCountedOf (is_committed_in store.old.now.tables) (area_in store.old.now) places)) }
    ensures refused { (e : ℕ) (places : List PlaceOf) → WhereSound O.first D.Disk (IsDatabaseState store.old.now → ((area_in store.old.now).title e).columns ≡ load_columns
        → GoesAlong (site_of store.old.now) e first places → IfSome first (λ x. IsPosition x (site_of store.old.now)) → IfErr result (λ f. f ≡ Fault)) }
    ensures leaves { ReadsPages O.first D.Disk store.old store.new result }
{
    a_pass_goes_from_position_to_position();
    store.rests();
    let mut totals = Totals::NONE;
    let mut at = first;
    let mut left = MOST_SLOTS;
    while left != 0 {
        let Some(slot) = slot_in(at) else {
            return Ok(totals);
        };
        match count_one(store, slot) {
            Err(fault) => return Err(fault),
            Ok(counted) => {
                totals = totals.with(counted.number);
                at = counted.next;
            }
        }
        left -= 1;
    }
    Ok(totals)
}

/// The totals of the slots of an entry of the catalog, whose table has the columns of a generated script. It logs nothing, and takes no memory.
pub(crate) fn count<D: Disk, O: Origin>(
    store: &mut Store<D, O>,
    entry: u8,
) -> Result<Totals, StoreFault>
    requires going { store.old.stopped ≡ false }
    requires there { entry < 32 }
    ensures counts { WhereSound O.first D.Disk (IsDatabaseState store.old.now → ((area_in store.old.now).title entry).columns ≡ load_columns
        → IfOk result (AreCountedOf (is_committed_in store.old.now.tables) (area_in store.old.now) (slot_places (area_in store.old.now) entry))) }
    ensures refused { WhereSound O.first D.Disk (IsDatabaseState store.old.now → ((area_in store.old.now).title entry).columns ≡ load_columns → IfErr result (λ f. f ≡ Fault)) }
    ensures leaves { ReadsPages O.first D.Disk store.old store.new result }
{
    a_pass_goes_from_position_to_position();
    match advance(store, Position::Entry { entry }) {
        Err(fault) => Err(fault),
        Ok(first) => count_from(store, first),
    }
}
