// Pages that are read before a turn of the cleaner, so that its row is found without a walk.
ghost use Rattle.std.specs.Prelude.{◌≡◌, ◌<◌, true, false, IfErr, IfOk, IfSome};
ghost use Rattle.ctr_disk.specs.declared.fault.StoreFault.TheVariants.{Fault};
ghost use Rattle.ctr_walk.specs.base_Base.{WhereSound};
ghost use Rattle.ctr_walk.specs.store_Store.{LeavesPage};
ghost use Rattle.ctr_walk.specs.record_effects_Standing.{IsDatabaseState};
ghost use Rattle.ctr_actions.specs.Sites.{site_of};
ghost use Rattle.ctr_walk.specs.Damage.{ReadsPages};
ghost use Rattle.ctr_cleaner.specs.cursor_Standing.{IsPosition, IsCountedPosition};

use crate::going::place_for;
use ctr_cleaner::{Position, bucket_of, look_older};
use ctr_disk::{Disk, StoreFault};
use ctr_types::Xid;
use ctr_walk::{Origin, Store};

/// Whether a position is a version entry.
fn is_version(at: Position) -> bool {
    match at {
        Position::Kept { .. } => true,
        Position::Entry { .. } | Position::Slot { .. } | Position::Aborted { .. } => false,
    }
}

/// The table and the bucket in which a turn at a position looks for a row by its key: those of a version entry that is in use, of a commit that everybody sees.
fn bucket_at<D: Disk, O: Origin>(
    store: &mut Store<D, O>,
    low: Xid,
    at: Position,
) -> Result<Option<(u8, u8)>, StoreFault>
    requires going { store.old.stopped ≡ false }
    requires within { IsCountedPosition store.old.now.counted at }
    ensures there { IfOk result (λ sought. IfSome sought (λ b. (b.0 < 32) × (b.1 < 8))) }
    ensures refused { WhereSound O.first D.Disk (IsDatabaseState store.old.now → IsPosition at (site_of store.old.now) → IfErr result (λ f. f ≡ Fault)) }
    ensures leaves { ReadsPages O.first D.Disk store.old store.new result }
{
    store.rests();
    match at {
        Position::Entry { .. } | Position::Slot { .. } | Position::Aborted { .. } => Ok(None),
        Position::Kept { entry, place } => match look_older(store, place) {
            Err(fault) => Err(fault),
            Ok(facts) => {
                if facts.used && facts.xid < low {
                    Ok(Some((entry, bucket_of(facts.key))))
                } else {
                    Ok(None)
                }
            }
        },
    }
}

/// Reads pages of a table's bucket that aren't remembered, so many at most: whether more may be left.
fn read_bucket<D: Disk, O: Origin>(
    store: &mut Store<D, O>,
    entry: u8,
    bucket: u8,
    most: u32,
) -> Result<bool, StoreFault>
    requires going { store.old.stopped ≡ false }
    requires there { (entry < 32) × (bucket < 8) }
    ensures some { IfOk result (λ more. more ≡ true → 0 < most) }
    ensures leaves { LeavesPage O.first D.Disk store.old store.new result }
{
    store.rests();
    let mut more = most != 0;
    for _ in 0..most {
        if !more {
            break;
        }
        match store.read_on(entry, bucket) {
            Err(fault) => return Err(fault),
            Ok(left) => more = left,
        }
    }
    Ok(more)
}

/// Reads pages for a turn of the cleaner at a pass's position, so many at most: those by which the row of a version entry is found, where they aren't remembered yet. It answers whether
/// more may be left. Where pages can't be remembered it answers false, and the turn walks the row's bucket. It logs nothing.
pub fn read_for<D: Disk, O: Origin>(
    store: &mut Store<D, O>,
    low: Xid,
    at: Position,
    stayed: bool,
    most: u32,
) -> Result<bool, StoreFault>
    requires going { store.old.stopped ≡ false }
    requires within { IsCountedPosition store.old.now.counted at }
    // None are left where none may be read.
    ensures some { IfOk result (λ more. more ≡ true → 0 < most) }
    // It is refused for no other cause than that the disk failed.
    ensures refused { WhereSound O.first D.Disk (IsDatabaseState store.old.now → (stayed ≡ true → IsPosition at (site_of store.old.now)) → IfErr result (λ f. f ≡ Fault)) }
    ensures leaves { ReadsPages O.first D.Disk store.old store.new result }
{
    store.rests();
    if most == 0 || !is_version(at) {
        return Ok(false);
    }
    match place_for(store, at, stayed) {
        Err(fault) => Err(fault),
        Ok(from) => match bucket_at(store, low, from) {
            Err(fault) => Err(fault),
            Ok(None) => Ok(false),
            Ok(Some((entry, bucket))) => read_bucket(store, entry, bucket, most),
        },
    }
}
