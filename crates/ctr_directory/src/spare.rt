// Which pages of a bucket's chain may have a free slot.
ghost use Rattle.std.specs.Prelude.{◌≡◌, ◌≢◌, ◌≤◌, ◌<◌, ◌+◌, ◌*◌, ℕ, List, true, false, length, is_some, nat_eq, OnOk};
ghost use Rattle.indexmap.specs.IndexSet.{contains};
ghost use Rattle.ctr_rec.specs.types_Kind.{Kind};
ghost use Rattle.ctr_page.specs.declared.table.TheConstants.{PAGE_SIZE};
ghost use Rattle.ctr_page.specs.Places.{slot_size as size_of_slot};
ghost use Rattle.ctr_page.specs.Columns.{kinds_width as width_of_kinds};
ghost use Rattle.ctr_directory.specs.Keys.{key_on as key_there, slots_of_kinds, AllUsed};

use crate::slots::{Unkept, slots_on};
use ctr_page::{kinds_width, slot_size};
use ctr_rec::{Kind, PageNo, get_u8};
use indexmap::IndexSet;

/// Whether a slot of so many bytes is used: its first byte says so.
fn is_used(size: usize, slot: u16, page: &[u8]) -> bool
    requires whole { length page.now ≡ PAGE_SIZE }
    requires inside { 16 + slot * size + size ≤ PAGE_SIZE }
    ensures { (kinds : List Kind) → size ≡ size_of_slot (width_of_kinds kinds) → slot < slots_of_kinds kinds → result ≡ is_some (key_there kinds slot page.now) }
{
    get_u8(page, 16 + slot as usize * size) == 1
}

/// Whether each slot of a page of rows is used.
fn is_full(kinds: &[Kind], page: &[u8]) -> bool
    requires few { length kinds.now ≤ 7 }
    requires whole { length page.now ≡ PAGE_SIZE }
    ensures { result ≡ true → AllUsed kinds.now page.now }
{
    let size = slot_size(kinds_width(kinds));
    let count = slots_on(kinds);
    for slot in 0..count {
        if !is_used(size, slot, page) {
            return false;
        }
    }
    true
}

/// A page was read or has other bytes: it is one of those that may have a free slot exactly where it has one. Where memory for it is
/// refused, what is remembered of its bucket can't be kept.
pub(crate) fn note(
    spare: &mut IndexSet<PageNo>,
    number: PageNo,
    kinds: &[Kind],
    page: &[u8],
) -> Result<(), Unkept>
    requires few { length kinds.now ≤ 7 }
    requires whole { length page.now ≡ PAGE_SIZE }
    ensures full { OnOk result (contains nat_eq spare.new number ≡ false → AllUsed kinds.now page.now) }
    ensures others { OnOk result ((q : ℕ) → q ≢ number → contains nat_eq spare.new q ≡ contains nat_eq spare.old q) }
{
    if is_full(kinds, page) {
        let _ = spare.swap_remove(&number);
        return Ok(());
    }
    match spare.insert(number) {
        Ok(_) => Ok(()),
        Err(_) => Err(Unkept),
    }
}
