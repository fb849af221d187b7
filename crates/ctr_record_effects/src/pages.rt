// Records on whole pages: their bits, their headers, the chains that they begin.
ghost use Rattle.std.specs.Prelude.{◌≡◌, ◌≢◌, ◌<◌, ◌≤◌, ◌/◌, ◌%◌, ◌+◌, ◌^◌, ℕ, true, false, slice_index};
ghost use Rattle.ctr_redo.specs.States.{State, step};
ghost use Rattle.ctr_area.specs.ctr_page.declared.header.Header.{Header};
ghost use Rattle.ctr_area.specs.ctr_page.Readable.{PartsHaveRoom};
ghost use Rattle.ctr_area.specs.ctr_page.Making.{IsHeader};
ghost use Rattle.ctr_area.specs.Reading.{entry_bytes};
ghost use Rattle.ctr_area.specs.Changes.{with_taken, with_blank, with_firsts, with_bucket, IsBitSet};
ghost use Rattle.ctr_record_effects.specs.States.{pages_in, area_in, IsWholePage};
ghost use Rattle.ctr_record_effects.specs.Changing.{alloc_record, free_record, format_record, link_record, link_older_record, unlink_record, unlink_older_record};

/// An Alloc whose byte sets the page's bit and leaves the others: the page is allocated, and nothing else changes.
pub fn an_alloc_changes_its_bit()
    ensures { (s : State) (x p byte : ℕ) → IsWholePage 0 s → p < 30000 → IsBitSet (p % 8) true (slice_index (pages_in s 0) (p / 8)) byte
        → area_in (step (alloc_record x p byte) s) ≡ with_taken p true (area_in s) }
{}

/// A Free whose byte clears the page's bit and leaves the others: the page is free, and nothing else changes.
pub fn a_free_changes_its_bit()
    ensures { (s : State) (p byte : ℕ) → IsWholePage 0 s → p < 30000 → IsBitSet (p % 8) false (slice_index (pages_in s 0) (p / 8)) byte
        → area_in (step (free_record p byte) s) ≡ with_taken p false (area_in s) }
{}

/// A Format of a page behind the catalog: it has the header, nothing is used on it, and nothing else changes.
pub fn a_format_clears_its_page()
    ensures { (s : State) (x p : ℕ) (h : Header) → IsWholePage p s → 3 ≤ p → IsHeader h
        → area_in (step (format_record x p h) s) ≡ with_blank p h (area_in s) }
{}

/// A Link to an entry that isn't free, and passes its checks: the chain begins with the page, and nothing else changes.
pub fn a_link_changes_its_chain()
    ensures bucket { (s : State) (x p e b : ℕ) → IsWholePage (1 + e / 16) s → e < 32 → b < 8 → p < 256 ^ 4
        → ((area_in s).title e).state ≢ 0 → PartsHaveRoom (entry_bytes (pages_in s) e)
        → area_in (step (link_record x p e b) s) ≡ with_firsts e (with_bucket b p ((area_in s).firsts e)) (area_in s) }
    ensures versions { (s : State) (x p e : ℕ) → IsWholePage (1 + e / 16) s → e < 32 → p < 256 ^ 4
        → ((area_in s).title e).state ≢ 0 → PartsHaveRoom (entry_bytes (pages_in s) e)
        → area_in (step (link_older_record x p e) s) ≡ with_firsts e (record ((area_in s).firsts e) { versions = p }) (area_in s) }
{}

/// An Unlink, likewise: the chain begins with the next page.
pub fn an_unlink_changes_its_chain()
    ensures bucket { (s : State) (p next e b : ℕ) → IsWholePage (1 + e / 16) s → e < 32 → b < 8 → next < 256 ^ 4
        → ((area_in s).title e).state ≢ 0 → PartsHaveRoom (entry_bytes (pages_in s) e)
        → area_in (step (unlink_record p next e b) s) ≡ with_firsts e (with_bucket b next ((area_in s).firsts e)) (area_in s) }
    ensures versions { (s : State) (p next e : ℕ) → IsWholePage (1 + e / 16) s → e < 32 → next < 256 ^ 4
        → ((area_in s).title e).state ≢ 0 → PartsHaveRoom (entry_bytes (pages_in s) e)
        → area_in (step (unlink_older_record p next e) s) ≡ with_firsts e (record ((area_in s).firsts e) { versions = next }) (area_in s) }
{}
