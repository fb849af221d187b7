// What is left of a slot that is trimmed, and its bytes.
ghost use Rattle.std.specs.Prelude.{◌≡◌, ◌≤◌, length, replicate, take};
ghost use Rattle.ctr_page.specs.Places.{slot_size as size_of_slot};
ghost use Rattle.ctr_page.specs.Making.{slot_bytes, IsSlot};
ghost use Rattle.ctr_undamaged.specs.heap_Writing.{slot_width};
ghost use Rattle.ctr_pvs.specs.Slots.{slot_lent};
ghost use Rattle.ctr_trim.specs.Trimming.{slot_left, IsBytesOf};

use ctr_page::{Place, RowSlot, Tombstone, Use, Version, make_slot};
use ctr_pvs::LentSlot;
use ctr_rec::Bytes;

/// The most bytes of a slot.
pub(crate) const SLOT_MOST: usize = 2_072;

/// The most bytes of a payload.
const WIDEST: usize = 2_048;

/// The place that names none.
const NOWHERE: Place = Place { page: 0, slot: 0 };

/// What is trimmed of a slot.
#[derive(Clone, Copy, Debug, PartialEq, Eq)]
pub enum TrimWay {
    /// All behind the head, which everybody sees.
    BehindHead,
    /// All behind the previous version, which everybody sees.
    BehindPrevious,
    /// The slot itself, whose head is a tombstone that everybody sees.
    WholeSlot,
}

/// What is laid over a slot.
#[derive(Drop)]
pub(crate) struct SlotLaid {
    /// The width of its rows.
    pub(crate) w: usize,
    /// Its bytes, at the front of others.
    pub(crate) bytes: [u8; SLOT_MOST],
}

/// What is left of a slot. So many zeros are lent as its rows are wide.
fn left<'a>(way: TrimWay, slot: RowSlot<'a>, zeros: &'a [u8]) -> RowSlot<'a>
    requires wide { zeros.now ≡ replicate (slot_width slot) 0 }
    ensures { result ≡ slot_left way slot.entry }
{
    let RowSlot {
        used,
        key,
        head,
        previous,
        older: _,
    } = slot;
    match way {
        TrimWay::BehindHead => RowSlot {
            used,
            key,
            head,
            previous: None,
            older: NOWHERE,
        },
        TrimWay::BehindPrevious => RowSlot {
            used,
            key,
            head,
            previous,
            older: NOWHERE,
        },
        TrimWay::WholeSlot => RowSlot {
            used: Use::FREE,
            key: 0,
            head: Version {
                xid: 0,
                tombstone: Tombstone::NONE,
                payload: Bytes::new(zeros),
            },
            previous: None,
            older: NOWHERE,
        },
    }
}

/// The bytes of a slot, at the front of others.
fn bytes_of(w: usize, slot: &RowSlot) -> [u8; SLOT_MOST]
    requires width { w ≤ 2048 }
    requires room { size_of_slot w ≤ 2072 }
    requires fits { IsSlot w slot.now }
    ensures { take (size_of_slot w) result ≡ slot_bytes w slot.now }
{
    let mut bytes = [0; SLOT_MOST];
    let _ = make_slot(w, slot, &mut bytes);
    bytes
}

/// The bytes of what is left of a slot that is lent.
pub(crate) fn trimmed(way: TrimWay, lent: &LentSlot) -> SlotLaid
    requires width { length lent.now.head.payload.now ≤ 2048 }
    requires fits { IsSlot (length lent.now.head.payload.now) (slot_lent lent.now) }
    ensures { IsBytesOf way (slot_lent lent.now) result }
{
    let w = lent.head.payload.len();
    let zeros = [0; WIDEST];
    let blank = &zeros[..w];
    let slot = left(way, lent.slot(), blank);
    SlotLaid {
        w,
        bytes: bytes_of(w, &slot),
    }
}
