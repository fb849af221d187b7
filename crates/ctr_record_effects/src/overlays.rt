// The overlays of records: bytes over those of a page.
ghost use Rattle.std.specs.Prelude.{◌≡◌, ◌≤◌, ◌<◌, ◌+◌, ◌*◌, ◌%◌};
ghost use Rattle.ctr_area.specs.ctr_page.declared.table.TheConstants.{PAGE_SIZE, ENTRY_SIZE};
ghost use Rattle.ctr_area.specs.ctr_page.Places.{start_of};
ghost use Rattle.ctr_record_effects.specs.Changing.{laid_at, laid_clear, laid_in_entry, laid_on_place};

use ctr_area::Place;
use ctr_redo::{Bytes, Overlay, PageNo};

/// Bytes over those of a page from a place on.
pub fn over_page<'a>(page: PageNo, at: u16, bytes: &'a [u8]) -> Overlay<'a>
    ensures { result ≡ laid_at page at bytes.now }
{
    Overlay {
        page,
        clear: false,
        offset: at,
        bytes: Bytes::new(bytes),
    }
}

/// Bytes at the front of a page that is cleared first.
pub fn over_cleared<'a>(page: PageNo, bytes: &'a [u8]) -> Overlay<'a>
    ensures { result ≡ laid_clear page bytes.now }
{
    Overlay {
        page,
        clear: true,
        offset: 0,
        bytes: Bytes::new(bytes),
    }
}

/// Bytes over those of an entry of the catalog from a place in it on.
pub fn over_entry<'a>(entry: u8, at: u8, bytes: &'a [u8]) -> Overlay<'a>
    ensures { result ≡ laid_in_entry entry at bytes.now }
{
    over_page(
        1 + (entry / 16) as PageNo,
        256 * (entry % 16) as u16 + at as u16,
        bytes,
    )
}

/// Bytes over what stands at a place, where what stands on the page has this size.
pub fn over_place<'a>(place: Place, size: usize, bytes: &'a [u8]) -> Overlay<'a>
    requires { start_of size place.slot ≤ PAGE_SIZE }
    ensures { result ≡ laid_on_place place size bytes.now }
{
    over_page(place.page, (16 + place.slot as usize * size) as u16, bytes)
}
