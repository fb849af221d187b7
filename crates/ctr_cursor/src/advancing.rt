// A pass goes on by one position.
ghost use Rattle.std.specs.Prelude.{◌≡◌, ◌+◌, ◌<◌, false, IfErr, IfOk, IfSome};
ghost use Rattle.ctr_walk.specs.base_Base.{WhereSound};
ghost use Rattle.ctr_disk.specs.declared.fault.StoreFault.TheVariants.{Fault};
ghost use Rattle.ctr_actions.specs.Sites.{site_of};
ghost use Rattle.ctr_walk.specs.record_effects_Standing.{IsDatabaseState};
ghost use Rattle.ctr_walk.specs.Damage.{ReadsPages};
ghost use Rattle.ctr_cursor.specs.Pass.{aborted_from as aborted_at, behind_pages_of as entry_next, kept_of, buckets_from, next_position};
ghost use Rattle.ctr_cursor.specs.Standing.{IsPosition, IsCountedPosition};

use crate::places::{first_place, place_behind};
use crate::position::Position;
use ctr_disk::{Disk, StoreFault};
use ctr_meta::Meta;
use ctr_page::Chain;
use ctr_walk::{Origin, Store};

/// The buckets of a table.
const BUCKETS: u8 = 8;

/// The entries of the catalog.
const ENTRIES: u8 = 32;

/// The aborted transaction of a number in the order of abort, where there is one.
fn aborted_from(meta: &Meta, nth: usize) -> Option<Position>
    ensures { result ≡ aborted_at nth meta.now.tables }
{
    match meta.aborted_at(nth) {
        None => None,
        Some(_) => Some(Position::Aborted { nth }),
    }
}

/// The one behind it.
fn aborted_behind(meta: &Meta, nth: usize) -> Option<Position>
    ensures { result ≡ aborted_at (nth + 1) meta.now.tables }
{
    let _next = meta.next();
    match nth.checked_add(1) {
        None => None,
        Some(next) => aborted_from(meta, next),
    }
}

/// What is behind all pages of an entry.
fn behind_pages_of(meta: &Meta, entry: u8) -> Option<Position>
    requires there { entry < 32 }
    ensures { result ≡ entry_next entry meta.now.tables }
{
    if entry + 1 < ENTRIES {
        return Some(Position::Entry { entry: entry + 1 });
    }
    aborted_from(meta, 0)
}

/// The first version entry of an entry, or what is behind its pages.
fn kept_from<D: Disk, O: Origin>(
    store: &mut Store<D, O>,
    entry: u8,
) -> Result<Option<Position>, StoreFault>
    requires going { store.old.stopped ≡ false }
    requires there { entry < 32 }
    ensures next { WhereSound O.first D.Disk (IfOk result (λ x. x ≡ kept_of entry (site_of store.old.now))) }
    ensures refused { WhereSound O.first D.Disk (IsDatabaseState store.old.now → IfErr result (λ e. e ≡ Fault)) }
    ensures inside { IfOk result (λ x. IfSome x (IsCountedPosition store.old.now.counted)) }
    ensures leaves { ReadsPages O.first D.Disk store.old store.new result }
{
    match first_place(store, Chain::Versions { entry }) {
        Err(fault) => Err(fault),
        Ok(None) => Ok(behind_pages_of(store.meta(), entry)),
        Ok(Some(place)) => Ok(Some(Position::Kept { entry, place })),
    }
}

/// The first slot of an entry from a bucket on, or what is behind all its slots. Its entry of the catalog is read for each bucket.
fn slots_from<D: Disk, O: Origin>(
    store: &mut Store<D, O>,
    entry: u8,
    first: u8,
) -> Result<Option<Position>, StoreFault>
    requires going { store.old.stopped ≡ false }
    requires there { entry < 32 }
    ensures next { WhereSound O.first D.Disk (IfOk result (λ x. x ≡ buckets_from entry first (site_of store.old.now))) }
    ensures refused { WhereSound O.first D.Disk (IsDatabaseState store.old.now → IfErr result (λ e. e ≡ Fault)) }
    ensures inside { IfOk result (λ x. IfSome x (IsCountedPosition store.old.now.counted)) }
    ensures leaves { ReadsPages O.first D.Disk store.old store.new result }
{
    store.rests();
    for bucket in first..BUCKETS {
        match first_place(store, Chain::Rows { entry, bucket }) {
            Err(fault) => return Err(fault),
            Ok(None) => {}
            Ok(Some(place)) => {
                return Ok(Some(Position::Slot {
                    entry,
                    bucket,
                    place,
                }));
            }
        }
    }
    kept_from(store, entry)
}

/// The position behind one of a pass; none where the pass is over. At most two pages are read, each several times: the one that the
/// position is on, and the page of the catalog with its entry. It logs nothing, and takes no memory.
pub fn advance<D: Disk, O: Origin>(
    store: &mut Store<D, O>,
    position: Position,
) -> Result<Option<Position>, StoreFault>
    requires going { store.old.stopped ≡ false }
    requires within { IsCountedPosition store.old.now.counted position }
    ensures next { WhereSound O.first D.Disk (IfOk result (λ x. x ≡ next_position (site_of store.old.now) position)) }
    // At a position of a state that may be a database's it is refused for no other cause than that the disk failed.
    ensures refused { WhereSound O.first D.Disk (IsDatabaseState store.old.now → IsPosition position (site_of store.old.now) → IfErr result (λ e. e ≡ Fault)) }
    ensures inside { IfOk result (λ x. IfSome x (IsCountedPosition store.old.now.counted)) }
    ensures leaves { ReadsPages O.first D.Disk store.old store.new result }
{
    store.rests();
    match position {
        Position::Entry { entry } => slots_from(store, entry, 0),
        Position::Slot {
            entry,
            bucket,
            place,
        } => match place_behind(store, Chain::Rows { entry, bucket }, place) {
            Err(fault) => Err(fault),
            Ok(None) => slots_from(store, entry, bucket + 1),
            Ok(Some(place)) => Ok(Some(Position::Slot {
                entry,
                bucket,
                place,
            })),
        },
        Position::Kept { entry, place } => {
            match place_behind(store, Chain::Versions { entry }, place) {
                Err(fault) => Err(fault),
                Ok(None) => Ok(behind_pages_of(store.meta(), entry)),
                Ok(Some(place)) => Ok(Some(Position::Kept { entry, place })),
            }
        }
        Position::Aborted { nth } => Ok(aborted_behind(store.meta(), nth)),
    }
}
