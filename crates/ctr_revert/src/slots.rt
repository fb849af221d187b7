// The bytes of a slot without its head.
ghost use Rattle.std.specs.Prelude.{◌≡◌, ◌≤◌, take};
ghost use Rattle.ctr_page.specs.Places.{slot_size as size_of_slot};
ghost use Rattle.ctr_page.specs.Making.{slot_bytes, IsSlot, IsEntry};
ghost use Rattle.ctr_revert.specs.Reverting.{blank_slot, MadeFrom, MadeByEntry, IsMadeOr, if_used};

use ctr_page::{Place, RowSlot, Tombstone, Use, Version, VersionEntry, make_slot};
use ctr_rec::Bytes;
use ctr_types::Xid;

/// The most bytes of a slot.
pub(crate) const SLOT_MOST: usize = 2_072;

/// The most bytes of a payload.
const WIDEST: usize = 2_048;

/// What a slot says that is to lose its head.
#[derive(Drop)]
pub(crate) struct FromSlot {
    /// Whose the head is.
    pub(crate) x: Xid,
    pub(crate) used: Use,
    pub(crate) key: i64,
    /// Where the next version behind the slot is kept.
    pub(crate) older: Place,
    /// Where the slot has a previous version, the slot with this one as its head.
    pub(crate) made: Option<[u8; SLOT_MOST]>,
}

/// What is laid over a slot that loses its head.
#[derive(Drop)]
pub(crate) struct SlotLaid {
    /// Whose the head is.
    pub(crate) x: Xid,
    /// The width of its rows.
    pub(crate) w: usize,
    /// Its bytes, at the front of others.
    pub(crate) bytes: [u8; SLOT_MOST],
}

/// The bytes of a slot, at the front of others.
fn bytes_of(w: usize, slot: &RowSlot) -> [u8; SLOT_MOST]
    requires width { w ≤ 2048 }
    requires room { size_of_slot w ≤ 2072 }
    requires fits { IsSlot w slot.now }
    ensures { take (size_of_slot w) result ≡ slot_bytes w slot.now }
{
    let mut bytes = [0; SLOT_MOST];
    let _ = make_slot(w, slot, &mut bytes);
    bytes
}

/// What a slot says that is to lose its head.
pub(crate) fn from_slot(w: usize, slot: RowSlot) -> FromSlot
    requires width { w ≤ 2048 }
    requires room { size_of_slot w ≤ 2072 }
    requires fits { IsSlot w slot }
    ensures { MadeFrom w slot.entry result }
{
    let RowSlot {
        used,
        key,
        head,
        previous,
        older,
    } = slot;
    let x = head.xid;
    let made = match previous {
        None => None,
        Some(version) => {
            let next = RowSlot {
                used,
                key,
                head: version,
                previous: None,
                older,
            };
            Some(bytes_of(w, &next))
        }
    };
    FromSlot {
        x,
        used,
        key,
        older,
        made,
    }
}

/// The bytes of a slot of a key whose head is that of a version entry, or none where the entry isn't used.
pub(crate) fn from_entry(
    w: usize,
    used: Use,
    key: i64,
    entry: VersionEntry,
) -> Option<[u8; SLOT_MOST]>
    requires width { w ≤ 2048 }
    requires room { size_of_slot w ≤ 2072 }
    requires fits { IsEntry w entry }
    ensures { MadeByEntry w used key (if_used entry.entry) result }
{
    if entry.used != Use::USED {
        return None;
    }
    let VersionEntry { version, older, .. } = entry;
    let next = RowSlot {
        used,
        key,
        head: version,
        previous: None,
        older,
    };
    Some(bytes_of(w, &next))
}

/// The bytes of a free slot.
pub(crate) fn blank_bytes(w: usize) -> [u8; SLOT_MOST]
    requires width { w ≤ 2048 }
    requires room { size_of_slot w ≤ 2072 }
    ensures { take (size_of_slot w) result ≡ slot_bytes w (blank_slot w) }
{
    let zeros = [0; WIDEST];
    let blank = RowSlot {
        used: Use::FREE,
        key: 0,
        head: Version {
            xid: 0,
            tombstone: Tombstone::NONE,
            payload: Bytes::new(&zeros[..w]),
        },
        previous: None,
        older: Place { page: 0, slot: 0 },
    };
    bytes_of(w, &blank)
}

/// These bytes, or else those of a free slot.
pub(crate) fn or_blank(w: usize, made: Option<[u8; SLOT_MOST]>) -> [u8; SLOT_MOST]
    requires width { w ≤ 2048 }
    requires room { size_of_slot w ≤ 2072 }
    ensures { IsMadeOr w made result }
{
    match made {
        Some(bytes) => bytes,
        None => blank_bytes(w),
    }
}
