// The lowest free page, by the bytes of page 0: eight pages a byte.
ghost use Rattle.std.specs.Prelude.{◌≡◌, ◌≤◌, ◌<◌, ◌/◌, ◌%◌, ℕ, None, slice_index, IfSome};
ghost use Rattle.std.specs.Int.{bit_at};
ghost use Rattle.ctr_walk.specs.base_growing_TheConstants.{MOST_PAGES};
ghost use Rattle.ctr_alloc.specs.Free.{marks_in, AreFullBelow, AreTakenBelow, IsFree, IsNextFree, taken_in};

use ctr_rec::PageNo;
use ctr_walk::MOST_PAGES;

/// Where a page can be had.
#[derive(Clone, Copy, Debug, PartialEq, Eq)]
pub enum NextFree {
    /// The lowest free page of those that are counted.
    Page(PageNo),
    /// None of them is free, and more can be counted.
    Grow,
    /// None of them is free, and no more can be counted.
    Full,
}

/// A byte of a page; behind its end there are zeros.
pub(crate) fn byte_at(page: &[u8], at: usize) -> u8
    ensures { result ≡ slice_index page.now at }
{
    if at < page.len() { page[at] } else { 0 }
}

/// A byte of page 0, in which the pages 0, 1 and 2 count as allocated.
fn marks(page: &[u8], at: usize) -> u8
    ensures { result ≡ marks_in page.now at }
{
    if at == 0 {
        byte_at(page, at) | 7
    } else {
        byte_at(page, at)
    }
}

/// The first byte before an end in which a bit is 0.
fn first_open(page: &[u8], end: usize) -> Option<usize>
    ensures found { IfSome result (λ at. (at < end) × AreFullBelow page.now at × (marks_in page.now at < 255)) }
    ensures none { result ≡ None → AreFullBelow page.now end }
{
    for at in 0..end {
        if marks(page, at) != 255 {
            return Some(at);
        }
    }
    None
}

/// The page of the lowest bit that is 0 in a byte.
fn first_in(page: &[u8], at: usize) -> PageNo
    requires small { at < 4096 }
    requires some { marks_in page.now at < 255 }
    ensures place { result / 8 ≡ at }
    ensures zero { bit_at (marks_in page.now at) (result % 8) ≡ 0 }
    ensures first { (k : ℕ) → k < result % 8 → bit_at (marks_in page.now at) k ≡ 1 }
{
    at as u32 * 8 + marks(page, at).trailing_ones()
}

/// The lowest free page, or the end where none before it is free.
fn lowest(end: PageNo, page: &[u8]) -> PageNo
    requires few { end ≤ MOST_PAGES }
    ensures taken { AreTakenBelow result (taken_in page.now) }
    ensures small { result ≤ end }
    ensures free { result < end → IsFree (taken_in page.now) result }
{
    match first_open(page, (end as usize + 7) / 8) {
        None => end,
        Some(at) => first_in(page, at).min(end),
    }
}

/// Where a page can be had, by the bytes of page 0, where so many pages are counted. It takes no memory.
pub fn next_free_on(counted: u32, page: &[u8]) -> NextFree
    ensures { IsNextFree counted (taken_in page.now) result }
{
    let end = counted.min(MOST_PAGES);
    let found = lowest(end, page);
    if found < end {
        return NextFree::Page(found);
    }
    if counted < MOST_PAGES {
        return NextFree::Grow;
    }
    NextFree::Full
}
