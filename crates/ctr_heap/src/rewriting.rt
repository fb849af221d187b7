// The slot that a write leaves, and the version that is to be kept before it.
ghost use Rattle.std.specs.Prelude.{◌≡◌, ℕ, ◌<◌, ◌≤◌, ◌^◌, ℤ, FitsSigned, Bool, List, drop, replicate, IfSome};
ghost use Rattle.std.specs.Int.{w64};
ghost use Rattle.ctr_types.specs.declared.value.Value.{Value};
ghost use Rattle.ctr_model.specs.Refusals.{key_of};
ghost use Rattle.ctr_value.specs.Payload.{IsKeyed, IsRow, payload_of};
ghost use Rattle.ctr_page.specs.declared.rows.Version.{Version as Kept};
ghost use Rattle.ctr_page.specs.Columns.{kinds_of, kinds_width};
ghost use Rattle.std.specs.Option.{option_map};
ghost use Rattle.ctr_types.specs.declared.value.Column.{Column};
ghost use Rattle.ctr_meta.specs.Tables.{Tables};
ghost use Rattle.ctr_page.specs.Making.{IsVersion, IsSlot, IsEntry};
ghost use Rattle.ctr_passed.specs.area_Areas.{Slot};
ghost use Rattle.ctr_passed.specs.area_Reading.{version_said, slot_said, older_said};
ghost use Rattle.ctr_passed.specs.area_Images.{is_committed_in};
ghost use Rattle.ctr_passed.specs.record_laws_Owed.{older_copy, FirstVersion, written_slot, loses_head};
ghost use Rattle.ctr_passed.specs.Logged.{IsSlotOf, IsOlderOf};
ghost use Rattle.ctr_heap.specs.Ways.{IsWay, kept_version, writing_by, IsHeadOf, MayBeWritten};

use crate::ways::Way;
use ctr_page::{Place, RowSlot, Use, Version, VersionEntry};
use ctr_rec::Bytes;
use ctr_types::Xid;

/// The place that names none.
const NOWHERE: Place = Place { page: 0, slot: 0 };

/// The entry that keeps a version of a slot, under the slot's key: it leads on as the slot does.
fn entry_of<'a>(slot: &RowSlot<'a>, version: &Version<'a>) -> VersionEntry<'a>
    ensures { result ≡ record { used = 1; key = slot.now.key; version = version.now; older = slot.now.older } }
{
    VersionEntry {
        used: Use::USED,
        key: slot.key,
        version: Version {
            xid: version.xid,
            tombstone: version.tombstone,
            payload: Bytes::new(version.payload.as_slice()),
        },
        older: slot.older,
    }
}

/// The version that is to be kept before a used slot is written in a way: the previous one or the head, under the slot's key, and it leads
/// on as the slot does; or none.
pub fn to_keep<'a>(way: Way, slot: &RowSlot<'a>) -> Option<VersionEntry<'a>>
    ensures copy { (columns : List Column) → slot.now.used ≡ 1
        → option_map (older_said columns) result ≡ option_map (older_copy (slot_said columns slot.now)) (kept_version way (slot_said columns slot.now)) }
    // It can be kept.
    ensures fits { (w : ℕ) → IsSlot w slot.now → IfSome result (IsEntry w) }
    // It is well made where the slot is.
    ensures made { (counted : ℕ) (columns : List Column) → IsSlotOf counted columns slot.now → slot.now.used ≡ 1 → IfSome result (IsOlderOf counted columns) }
{
    match way {
        Way::ReplaceHead | Way::MoveHead => None,
        Way::KeepPrevious => match &slot.previous {
            Some(version) => Some(entry_of(slot, version)),
            None => None,
        },
        Way::KeepHead => Some(entry_of(slot, &slot.head)),
    }
}

/// A used slot that is written in a way, with its new head. The version that was to be kept first is at the place `kept`, which isn't
/// looked at where there was none.
pub fn written<'a>(way: Way, kept: Place, slot: RowSlot<'a>, head: Version<'a>) -> RowSlot<'a>
    ensures said { (columns : List Column) → slot.entry.used ≡ 1
        → slot_said columns result ≡ written_slot (writing_by way kept) (version_said columns slot.entry.key head.entry) slot.entry.key (slot_said columns slot.entry) }
    // It can be put where the old slot can, and the new version.
    ensures fits { (w : ℕ) (committed : Bool) → IsSlot w slot.entry → 0 < slot.entry.head.xid → IsWay committed slot.entry way → IsVersion w head.entry → IsSlot w result }
    // It is well made where the old slot is, and the new version.
    ensures made { (counted : ℕ) (columns : List Column) → MayBeWritten counted columns slot.entry way kept head.entry → IsSlotOf counted columns result }
{
    let RowSlot {
        used,
        key,
        head: old,
        previous,
        older,
    } = slot;
    let (previous, older) = match way {
        Way::ReplaceHead => (previous, older),
        Way::MoveHead => (Some(old), older),
        Way::KeepPrevious => (Some(old), kept),
        Way::KeepHead => (previous, kept),
    };
    RowSlot {
        used,
        key,
        head,
        previous,
        older,
    }
}

/// The slot of a key with the first version of its row.
pub fn first<'a>(key: i64, head: Version<'a>) -> RowSlot<'a>
    ensures said { (columns : List Column) (old : Slot) → slot_said columns result ≡ written_slot FirstVersion (version_said columns key head.entry) key old }
    // It can be put where the version can.
    ensures fits { (w : ℕ) → IsVersion w head.entry → IsSlot w result }
    // It is well made where the version is.
    ensures made { (counted : ℕ) (columns : List Column) → IsHeadOf columns key head.entry → IsSlotOf counted columns result }
{
    RowSlot {
        used: Use::USED,
        key,
        head,
        previous: None,
        older: NOWHERE,
    }
}

/// A version is one of a table's where its payload is that of a row, as `encode_row` writes it, or that of a tombstone: zeros.
pub fn a_payload_is_of_its_table()
    ensures row { (columns : List Column) (values : List Value) (v : Kept) → IsRow columns values → v.payload ≡ payload_of (drop 1 columns) (drop 1 values)
        → v.xid < 256 ^ 8 → v.tombstone ≤ 1 → IsHeadOf columns (key_of values) v }
    ensures zeros { (columns : List Column) (key : ℤ) (v : Kept) → IsKeyed columns → FitsSigned w64 key → v.payload ≡ replicate (kinds_width (kinds_of columns)) 0
        → v.xid < 256 ^ 8 → v.tombstone ≤ 1 → IsHeadOf columns key v }
{}

/// The transaction that loses its head where a used slot is written in a way, or 0 for none.
pub fn replaced(way: Way, slot: &RowSlot) -> Xid
    ensures { (tables : Tables) (columns : List Column) → slot.now.used ≡ 1 → IsWay (is_committed_in tables slot.now.head.xid) slot.now way
        → result ≡ loses_head tables (slot_said columns slot.now) }
{
    match way {
        Way::ReplaceHead => slot.head.xid,
        Way::MoveHead | Way::KeepPrevious | Way::KeepHead => 0,
    }
}
