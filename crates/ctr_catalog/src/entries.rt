// The entries on a page of the catalog.
ghost use Rattle.std.specs.Prelude.{◌≡◌, ◌<◌, ◌+◌, ℕ, List, Option, length, Ok};
ghost use Rattle.ctr_names.specs.page_table_TheConstants.{PAGE_SIZE, ENTRY_SIZE};
ghost use Rattle.ctr_names.specs.page_Readable.{HasParts};
ghost use Rattle.ctr_names.specs.page_Searching.{EndsSearch, IsFirst};
ghost use Rattle.ctr_alloc.specs.area_Reading.{area_of};
ghost use Rattle.ctr_catalog.specs.declared.entries.TheConstants.{ENTRIES_ON_PAGE};
ghost use Rattle.ctr_catalog.specs.Entries.{is_live_of, is_unused, checks_entry, frees_in};
ghost use Rattle.ctr_names.specs.page_Columns.{entry_at as entry_of};

use ctr_names::{BadPage, CatalogEntry, EntryState, check_entry, read_entry};
use ctr_types::Name;

/// How many entries a page of the catalog has.
pub const ENTRIES_ON_PAGE: u8 = 16;

pub(crate) fn is_live_of(name: &Name, entry: &CatalogEntry) -> bool
    requires whole { length entry.now.bytes ≡ ENTRY_SIZE }
    requires parts { HasParts entry.now }
    ensures { result ≡ is_live_of name.now entry.now }
{
    entry.state == EntryState::LIVE && entry.name() == name.as_slice()
}

/// The lowest free entry on a page of the catalog, where so many pages are counted; or the damage of the
/// first entry that fails its checks. It takes no memory.
pub fn find_free(counted: u32, page: &[u8]) -> Result<Option<u8>, BadPage>
    requires some { 0 < counted }
    requires whole { length page.now ≡ PAGE_SIZE }
    ensures { EndsSearch (checks_entry counted page.now) (λ n. is_unused (entry_of n page.now)) 0 ENTRIES_ON_PAGE result }
{
    for entry in 0..ENTRIES_ON_PAGE {
        check_entry(counted, entry, page)?;
        if read_entry(page, entry).state == EntryState::FREE {
            return Ok(Some(entry));
        }
    }
    Ok(None)
}

/// A search that ends without damage, on the first page of the catalog (0) or the second (1), has found the
/// first entry of the area there that is free, or there is none.
pub fn found_in_area()
    ensures { (pages : ℕ → List ℕ) (half from counted : ℕ) (found : Option ℕ) → half < 2
        → EndsSearch (checks_entry counted (pages (1 + half))) (λ n. is_unused (entry_of n (pages (1 + half)))) from ENTRIES_ON_PAGE (Ok found)
        → IsFirst (frees_in (area_of pages) half) from ENTRIES_ON_PAGE found }
{}
