// Laws of areas, each on a call that does nothing else.
ghost use Rattle.std.specs.Prelude.{◌≡◌, ◌≢◌, ◌∷◌, ◌<◌, ◌≤◌, ◌+◌, ◌*◌, ◌/◌, ◌%◌, ◌^◌, ℕ, Bool, List, [], length, slice_index, Ok};
ghost use Rattle.ctr_meta.specs.Tables.{no_tables};
ghost use Rattle.ctr_page.specs.declared.rows.Place.{Place};
ghost use Rattle.ctr_page.specs.declared.rows.RowSlot.{RowSlot};
ghost use Rattle.ctr_page.specs.declared.rows.VersionEntry.{VersionEntry};
ghost use Rattle.ctr_page.specs.types_Column.{Column};
ghost use Rattle.ctr_page.specs.ctr_value.Columns.{ColumnsFit};
ghost use Rattle.ctr_meta.specs.ctr_bytes.Fields.{spelled};
ghost use Rattle.ctr_page.specs.declared.table.TheConstants.{DROPPER_AT, FIRSTS_AT, VERSIONS_AT};
ghost use Rattle.ctr_page.specs.declared.header.Header.{Header};
ghost use Rattle.ctr_page.specs.Readable.{PartsHaveRoom};
ghost use Rattle.ctr_page.specs.Making.{slot_bytes, kept_bytes, IsHeader, IsSlot, IsEntry};
ghost use Rattle.ctr_page.specs.Columns.{entry_in, columns_in, new_entry_bytes};
ghost use Rattle.ctr_area.specs.Reading.{slot_said, older_said, entry_bytes, title_of, firsts_of, columns_on, width_on, area_of};
ghost use Rattle.ctr_page.specs.declared.checks.Chain.{Chain};
ghost use Rattle.ctr_page.specs.Walking.{most_in_chain, chain_check};
ghost use Rattle.ctr_area.specs.Chains.{pages_bound, pages_from};
ghost use Rattle.ctr_area.specs.Checked.{ChainPasses};
ghost use Rattle.ctr_area.specs.Images.{new_pages, image_rows, undo_size};
ghost use Rattle.ctr_area.specs.Sound.{IsSoundArea, IsBare};
ghost use Rattle.ctr_area.specs.Changes.{with_slot, with_older, with_title, with_firsts, with_bucket, with_taken, with_blank, new_title, empty_chains, ChangesEntry, IsBitSet, with_byte_of, with_header, with_bytes_at, with_entry, with_in_entry, IsPlaceOf};

/// The bytes of a slot over what stands at a place of a page of rows: the area changes at this place, and
/// nowhere else.
pub fn slot_changes_its_place()
    ensures { (pages : ℕ → List ℕ) (at : Place) (s : RowSlot) → IsPlaceOf 1 pages at → IsSlot (width_on pages at.page) s
        → area_of (with_bytes_at at (slot_bytes (width_on pages at.page) s) pages) ≡ with_slot at (slot_said (columns_on pages at.page) s) (area_of pages) }
{}

/// The bytes of a version entry over what stands at a place of a page of versions, likewise.
pub fn version_changes_its_place()
    ensures { (pages : ℕ → List ℕ) (at : Place) (e : VersionEntry) → IsPlaceOf 2 pages at → IsEntry (width_on pages at.page) e
        → area_of (with_bytes_at at (kept_bytes e) pages) ≡ with_older at (older_said (columns_on pages at.page) e) (area_of pages) }
{}

/// The bytes of an entry of the catalog, whose columns are those of before, over what stands there: its title
/// and its first pages become those of the new bytes, and nothing else changes.
pub fn entry_changes_alone()
    ensures { (pages : ℕ → List ℕ) (e : ℕ) (new : List ℕ) → e < 32 → length new ≡ 256 → 256 * (e % 16) + 256 ≤ length (pages (1 + e / 16))
        → columns_in new ≡ columns_in (entry_bytes pages e)
        → area_of (with_entry e new pages) ≡ with_firsts e (firsts_of (entry_in new)) (with_title e (title_of (entry_in new)) (area_of pages)) }
{}

/// A byte of page 0 in which the bit of one page is as wanted, and the others are as before: this page is
/// allocated or free, and nothing else changes.
pub fn bit_changes_alone()
    ensures { (pages : ℕ → List ℕ) (p byte : ℕ) (taken : Bool) → p / 8 < length (pages 0)
        → IsBitSet (p % 8) taken (slice_index (pages 0) (p / 8)) byte
        → area_of (with_byte_of p byte pages) ≡ with_taken p taken (area_of pages) }
{}

/// A page behind the catalog that is cleared and has a header: nothing is used on it, it has room for the
/// rows of the header's table, and nothing else changes.
pub fn page_is_cleared()
    ensures { (pages : ℕ → List ℕ) (p : ℕ) (h : Header) → 3 ≤ p → IsHeader h
        → area_of (with_header p h pages) ≡ with_blank p h (area_of pages) }
{}

/// The bytes of a new entry over one of the catalog: its title is the new one, it has no page, and other
/// entries and what stands on their pages stay.
pub fn entry_is_made()
    ensures { (pages : ℕ → List ℕ) (e creator : ℕ) (name : List ℕ) (cs : List Column) → e < 32
        → 256 * (e % 16) + 256 ≤ length (pages (1 + e / 16)) → creator < 256 ^ 8 → length name ≤ 16 → ColumnsFit cs
        → ChangesEntry e (new_title creator name cs) empty_chains (area_of pages)
        (area_of (with_entry e (new_entry_bytes creator name cs) pages)) }
{}

/// Any bytes over an entry of the catalog: its title and its chains become those of the new bytes; other
/// entries and what stands on their pages stay.
pub fn entry_is_written_over()
    ensures { (pages : ℕ → List ℕ) (e : ℕ) (new : List ℕ) → e < 32 → length new ≡ 256 → 256 * (e % 16) + 256 ≤ length (pages (1 + e / 16))
        → ChangesEntry e (title_of (entry_in new)) (firsts_of (entry_in new)) (area_of pages) (area_of (with_entry e new pages)) }
{}

/// The number of a transaction in the place of the one that dropped a table, or 0: the table is dropped by
/// it, or not any more, and nothing else changes.
pub fn dropper_changes_alone()
    ensures { (pages : ℕ → List ℕ) (e x : ℕ) → e < 32 → 256 * (e % 16) + 256 ≤ length (pages (1 + e / 16)) → x < 256 ^ 8
        → area_of (with_in_entry e DROPPER_AT (spelled 8 x) pages) ≡ with_title e (record ((area_of pages).title e) { dropper = x }) (area_of pages) }
{}

/// Another state of an entry that isn't free, and isn't to be: nothing else changes.
pub fn state_changes_alone()
    ensures { (pages : ℕ → List ℕ) (e s : ℕ) → e < 32 → 256 * (e % 16) + 256 ≤ length (pages (1 + e / 16)) → s ≢ 0 → ((area_of pages).title e).state ≢ 0
        → area_of (with_in_entry e 0 (s ∷ []) pages) ≡ with_title e (record ((area_of pages).title e) { state = s }) (area_of pages) }
{}

/// The number of a page in the place of the first of a chain of an entry that passes its checks: the chain
/// begins there, and nothing else changes.
pub fn first_changes_alone()
    ensures bucket { (pages : ℕ → List ℕ) (e b p : ℕ) → e < 32 → 256 * (e % 16) + 256 ≤ length (pages (1 + e / 16)) → b < 8 → p < 256 ^ 4
        → ((area_of pages).title e).state ≢ 0 → PartsHaveRoom (entry_bytes pages e)
        → area_of (with_in_entry e (FIRSTS_AT + 4 * b) (spelled 4 p) pages) ≡ with_firsts e (with_bucket b p ((area_of pages).firsts e)) (area_of pages) }
    ensures versions { (pages : ℕ → List ℕ) (e p : ℕ) → e < 32 → 256 * (e % 16) + 256 ≤ length (pages (1 + e / 16)) → p < 256 ^ 4
        → ((area_of pages).title e).state ≢ 0 → PartsHaveRoom (entry_bytes pages e)
        → area_of (with_in_entry e VERSIONS_AT (spelled 4 p) pages) ≡ with_firsts e (record ((area_of pages).firsts e) { versions = p }) (area_of pages) }
{}

/// A chain of pages that is read without damage: each of its pages passes its check, and it ends.
pub fn a_checked_chain_ends()
    ensures passes { (chain : Chain) (counted : ℕ) (pages : ℕ → List ℕ) (last p : ℕ) → counted ≤ pages_bound
        → chain_check chain counted pages (most_in_chain counted) last p ≡ Ok tt → ChainPasses counted pages chain p }
    ensures ends { (chain : Chain) (counted : ℕ) (pages : ℕ → List ℕ) (last p : ℕ) → counted ≤ pages_bound
        → chain_check chain counted pages (most_in_chain counted) last p ≡ Ok tt
        → pages_from (pages_bound + 1) (area_of pages).header p ≡ pages_from pages_bound (area_of pages).header p }
{}

/// A new database has pages of zeros and no transaction. It is sound, however many of its pages are
/// counted; nothing is to clean or to undo, and there is no row.
pub fn new_database()
    ensures sound { (counted : ℕ) → IsSoundArea counted no_tables (area_of new_pages) }
    ensures bare { IsBare no_tables (area_of new_pages) }
    ensures rows { (committed : ℕ → Bool) → image_rows committed (area_of new_pages) ≡ [] }
    ensures undo { undo_size no_tables ≡ 0 }
{}
