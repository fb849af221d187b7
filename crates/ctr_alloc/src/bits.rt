// The bit of a page in its byte of page 0.
ghost use Rattle.std.specs.Prelude.{◌≡◌, ◌<◌, ◌/◌, ◌%◌, ℕ, true, false, List, length, slice_index};
ghost use Rattle.ctr_actions.specs.area_Reading.{area_of};
ghost use Rattle.ctr_actions.specs.area_Changes.{with_taken as area_with_taken, IsBitSet, with_byte_of};

use ctr_rec::PageNo;

/// The bits of a byte, in which one is 1.
fn with_one(byte: u8, k: u32) -> u8
    requires { k < 8 }
    ensures { IsBitSet k true byte result }
{
    byte | (1 << k)
}

/// The bits of a byte, in which one is 0.
fn with_zero(byte: u8, k: u32) -> u8
    requires { k < 8 }
    ensures { IsBitSet k false byte result }
{
    byte & !(1 << k)
}

fn set_bit(page: &[u8], p: PageNo) -> u8
    requires { p / 8 < length page.now }
    ensures { IsBitSet (p % 8) true (slice_index page.now (p / 8)) result }
{
    with_one(page[p as usize / 8], p % 8)
}

fn clear_bit(page: &[u8], p: PageNo) -> u8
    requires { p / 8 < length page.now }
    ensures { IsBitSet (p % 8) false (slice_index page.now (p / 8)) result }
{
    with_zero(page[p as usize / 8], p % 8)
}

/// The byte of page 0 in which a page has its bit, where this page is allocated. Its place is the number
/// of the page by 8.
pub fn with_taken(page: &[u8], p: PageNo) -> u8
    requires { p / 8 < length page.now }
    // The bits of other pages stay.
    ensures byte { IsBitSet (p % 8) true (slice_index page.now (p / 8)) result }
    // Over page 0 it allocates the page, and changes nothing else in the pages.
    ensures area { (pages : ℕ → List ℕ) → pages 0 ≡ page.now → area_of (with_byte_of p result pages) ≡ area_with_taken p true (area_of pages) }
{
    set_bit(page, p)
}

/// The byte of page 0 in which a page has its bit, where this page is free.
pub fn with_free(page: &[u8], p: PageNo) -> u8
    requires { p / 8 < length page.now }
    // The bits of other pages stay.
    ensures byte { IsBitSet (p % 8) false (slice_index page.now (p / 8)) result }
    // Over page 0 it frees the page, and changes nothing else in the pages.
    ensures area { (pages : ℕ → List ℕ) → pages 0 ≡ page.now → area_of (with_byte_of p result pages) ≡ area_with_taken p false (area_of pages) }
{
    clear_bit(page, p)
}
