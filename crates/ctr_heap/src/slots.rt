// The slots of a page of rows.
ghost use Rattle.std.specs.Prelude.{◌≡◌, ◌≤◌, ◌<◌, ◌+◌, ◌↔◌, IsTrue, ℕ, List, length, Ok, Option};
ghost use Rattle.ctr_types.specs.declared.value.Kind.{Kind};
ghost use Rattle.ctr_page.specs.declared.table.TheConstants.{PAGE_SIZE};
ghost use Rattle.ctr_page.specs.Columns.{kinds_of};
ghost use Rattle.ctr_page.specs.Places.{slot_size as size_of_slot, start_of};
ghost use Rattle.ctr_page.specs.Searching.{IsFirst};
ghost use Rattle.ctr_passed.specs.area_Reading.{header_on, columns_on, area_of};
ghost use Rattle.ctr_heap.specs.declared.slots.SlotSought.{SlotSought};
ghost use Rattle.ctr_heap.specs.Slots.{seeks_slot, EndsSlots, seeks_in};

use ctr_bytes::get_u8;
use ctr_page::{BadPage, Place, Use, check_slot, kinds_width, read_slot, room_for, slot_size};
use ctr_types::Kind;
use ctr_walk::PageSought;

/// The bytes of a page.
const PAGE: usize = 4_096;

/// The bytes of its header.
const HEADER: usize = 16;

/// The most bytes of a payload that a slot may have.
const WIDEST: usize = 2_048;

/// Which slot is sought.
#[derive(Clone, Copy, Debug, PartialEq, Eq)]
pub enum SlotSought {
    /// The one of a key.
    Key(i64),
    /// One that is free.
    Free,
}

impl SlotSought {
    /// Whether it is the slot of this number, on a page of rows so wide. Of a free one no more than its first byte is looked at.
    fn is(self, w: usize, slot: u16, page: &[u8]) -> bool
        requires width { w ≤ 2048 }
        requires inside { start_of (size_of_slot w) slot + size_of_slot w ≤ length page.now }
        ensures { result ≡ seeks_slot w self page.now slot }
    {
        match self {
            SlotSought::Key(key) => {
                let row = read_slot(page, w, slot);
                row.used == Use::USED && row.key == key
            }
            SlotSought::Free => get_u8(page, HEADER + slot as usize * slot_size(w)) == 0,
        }
    }
}

impl PageSought for SlotSought {
    ghost ends = { EndsSlots };

    fn search(&self, kinds: &[Kind], counted: u32, page: &[u8]) -> Result<Option<u16>, BadPage> {
        search_slots(kinds, counted, *self, page)
    }
}

/// Searches the slots of a page of rows, whose columns behind the key are of these kinds, where so many
/// pages are counted: the first slot that is sought, or the damage of the first that fails its checks. No
/// slot behind it is looked at. It takes no memory.
pub fn search_slots(
    kinds: &[Kind],
    counted: u32,
    sought: SlotSought,
    page: &[u8],
) -> Result<Option<u16>, BadPage>
    requires some { 0 < counted }
    requires few { length kinds.now ≤ 7 }
    requires whole { length page.now ≡ PAGE_SIZE }
    ensures { EndsSlots sought kinds.now counted page.now result }
{
    let w = kinds_width(kinds);
    let count = room_for(slot_size(w)) as u16;
    for slot in 0..count {
        check_slot(kinds, counted, slot, page)?;
        if sought.is(w, slot, page) {
            return Ok(Some(slot));
        }
    }
    Ok(None)
}

/// Whether a slot of rows so wide, in bytes behind the key, lies on a page at a place: rows of a table are at most 1,792 bytes wide.
pub fn slot_lies(place: Place, width: usize) -> bool
    ensures { IsTrue result ↔ ((width ≤ 2048) × (start_of (size_of_slot width) place.slot + size_of_slot width ≤ PAGE_SIZE)) }
{
    if width > WIDEST {
        return false;
    }
    let size = slot_size(width);
    HEADER + place.slot as usize * size + size <= PAGE
}

/// A search that ends without damage, on a page of rows by the columns of its table, has found the first slot
/// of the area there that is sought, or there is none.
pub fn found_in_area()
    ensures { (pages : ℕ → List ℕ) (p counted : ℕ) (sought : SlotSought) (found : Option ℕ) → (header_on pages p).kind ≡ 1
        → EndsSlots sought (kinds_of (columns_on pages p)) counted (pages p) (Ok found)
        → IsFirst (seeks_in (area_of pages) p sought) 0 ((area_of pages).room p) found }
{}
