// What there is to know of a version of a row: whose it is, and the number in the row's second column.
ghost use Rattle.std.specs.Prelude.{◌≡◌, ◌≤◌, ℕ, ℤ, length};
ghost use Rattle.std.specs.Int.{w64, cast_signed};
ghost use Rattle.ctr_bytes.specs.Fields.{field};
ghost use Rattle.ctr_load.specs.Statements.{load_columns};
ghost use Rattle.ctr_area.specs.Reading.{version_said, slot_said, older_said};
ghost use Rattle.ctr_cursor.specs.pvs_Slots.{part_lent, slot_lent};
ghost use Rattle.ctr_pvs.specs.Lending.{entry_lent};
ghost use Rattle.ctr_passed.specs.Logged.{IsSlotOf, IsOlderOf};
ghost use Rattle.ctr_meta.specs.Tables.{Tables};
ghost use Rattle.ctr_area.specs.Images.{is_committed_in};
ghost use Rattle.ctr_totals.specs.Facts.{IsKnown, IsKnownIfAny, IsKnownSlot, IsKnownOlder, IsSeenIn};

use ctr_bytes::get_i64;
use ctr_meta::Meta;
use ctr_page::Place;
use ctr_pvs::{LentPart, LentSlot, LentVersion};
use ctr_types::{Fate, Xid};

/// Whose a version of a row is, and the number in the row's second column; none for a tombstone.
#[derive(Clone, Copy, Debug, PartialEq, Eq)]
pub(crate) struct VersionFacts {
    pub(crate) xid: Xid,
    pub(crate) number: Option<i64>,
}

/// What there is to know of a slot. Where it isn't used the rest says nothing.
#[derive(Clone, Copy, Debug, PartialEq, Eq)]
pub(crate) struct SlotFacts {
    pub(crate) used: bool,
    pub(crate) head: VersionFacts,
    pub(crate) previous: Option<VersionFacts>,
    /// Page 0 where it leads nowhere.
    pub(crate) next: Place,
}

/// What there is to know of a version entry that is used, and where it leads.
#[derive(Clone, Copy, Debug, PartialEq, Eq)]
pub(crate) struct OlderFacts {
    pub(crate) version: VersionFacts,
    pub(crate) next: Place,
}

/// The number that a payload begins with.
fn number_in(payload: &[u8]) -> i64
    ensures { 8 ≤ length payload.now → result ≡ cast_signed w64 (field 8 0 payload.now) }
{
    if payload.len() < 8 {
        return 0;
    }
    get_i64(payload, 0)
}

/// What there is to know of a version with this payload.
fn facts_of(xid: Xid, tombstone: u8, payload: &[u8]) -> VersionFacts
    ensures { (key : ℤ) → 8 ≤ length payload.now → IsKnown (version_said load_columns key (record { xid = xid; tombstone = tombstone; payload = payload.now })) result }
{
    let number = if tombstone == 0 {
        Some(number_in(payload))
    } else {
        None
    };
    VersionFacts { xid, number }
}

/// The same of a version that may be there.
fn facts_if_any(part: &Option<LentPart>) -> Option<VersionFacts>
    ensures { (key : ℤ) → IsKnownIfAny key part.now result }
{
    match part {
        None => None,
        Some(part) => Some(facts_of(part.xid, part.tombstone, part.payload)),
    }
}

/// What there is to know of a slot that is lent.
pub(crate) fn slot_facts(slot: &LentSlot) -> SlotFacts
    ensures { (counted : ℕ) → IsSlotOf counted load_columns (slot_lent slot.now) → IsKnownSlot (slot_said load_columns (slot_lent slot.now)) result }
{
    SlotFacts {
        used: slot.used == 1,
        head: facts_of(slot.head.xid, slot.head.tombstone, slot.head.payload),
        previous: facts_if_any(&slot.previous),
        next: slot.older,
    }
}

/// What there is to know of a version entry that is lent. One that isn't used has nobody's version, and leads nowhere.
pub(crate) fn older_facts(entry: &LentVersion) -> OlderFacts
    ensures { (counted : ℕ) → IsOlderOf counted load_columns (entry_lent entry.now) → IsKnownOlder (older_said load_columns (entry_lent entry.now)) result }
{
    if entry.used != 1 {
        return OlderFacts {
            version: VersionFacts {
                xid: 0,
                number: None,
            },
            next: Place { page: 0, slot: 0 },
        };
    }
    OlderFacts {
        version: facts_of(entry.xid, entry.tombstone, entry.payload),
        next: entry.older,
    }
}

/// Whether a transaction is committed; 0 is nobody's number.
pub(crate) fn is_committed(meta: &Meta, x: Xid) -> bool
    ensures { result ≡ is_committed_in meta.now.tables x }
{
    x != 0 && meta.fate(x) == Fate::Committed
}

/// What a slot alone says of its row: the number of the newest committed version, where that is in the slot, or none where it is a tombstone or
/// the slot isn't used; or nothing, where the version is off the row.
pub(crate) fn seen_in(meta: &Meta, slot: &SlotFacts) -> Option<Option<i64>>
    ensures { IsSeenIn (is_committed_in meta.now.tables) slot.now result }
{
    if !slot.used {
        return Some(None);
    }
    if is_committed(meta, slot.head.xid) {
        return Some(slot.head.number);
    }
    match slot.previous {
        Some(previous) if is_committed(meta, previous.xid) => Some(previous.number),
        _ => None,
    }
}
