// Records on what stands at a place of a page: Row, Revert and Trim of a slot; Keep and Trim of a version entry.
ghost use Rattle.std.specs.Prelude.{◌≡◌};
ghost use Rattle.ctr_redo.specs.rec_Record.{Record};
ghost use Rattle.ctr_redo.specs.States.{State, step};
ghost use Rattle.ctr_area.specs.ctr_page.declared.rows.Place.{Place};
ghost use Rattle.ctr_area.specs.ctr_page.declared.rows.RowSlot.{RowSlot};
ghost use Rattle.ctr_area.specs.ctr_page.declared.rows.VersionEntry.{VersionEntry};
ghost use Rattle.ctr_area.specs.ctr_page.Places.{slot_size, kept_size};
ghost use Rattle.ctr_area.specs.ctr_page.Making.{slot_bytes, kept_bytes, IsSlot, IsEntry};
ghost use Rattle.ctr_area.specs.Reading.{slot_said, older_said, columns_on, width_on};
ghost use Rattle.ctr_area.specs.Changes.{with_slot, with_older, IsPlaceOf};
ghost use Rattle.ctr_record_effects.specs.States.{pages_in, area_in, IsWholePage};
ghost use Rattle.ctr_record_effects.specs.Changing.{laid_on_place, Lays};

/// A record that lays the bytes of a slot over a place of a page of rows: the slot there is this one, and nothing
/// else changes.
pub fn a_slot_is_laid()
    ensures { (s : State) (r : Record) (at : Place) (slot : RowSlot) → IsWholePage at.page s → IsPlaceOf 1 (pages_in s) at
        → IsSlot (width_on (pages_in s) at.page) slot
        → Lays r (laid_on_place at (slot_size (width_on (pages_in s) at.page)) (slot_bytes (width_on (pages_in s) at.page) slot))
        → area_in (step r s) ≡ with_slot at (slot_said (columns_on (pages_in s) at.page) slot) (area_in s) }
{}

/// A record that lays the bytes of a version entry over a place of a page of versions, likewise.
pub fn a_version_is_laid()
    ensures { (s : State) (r : Record) (at : Place) (older : VersionEntry) → IsWholePage at.page s → IsPlaceOf 2 (pages_in s) at
        → IsEntry (width_on (pages_in s) at.page) older
        → Lays r (laid_on_place at (kept_size (width_on (pages_in s) at.page)) (kept_bytes older))
        → area_in (step r s) ≡ with_older at (older_said (columns_on (pages_in s) at.page) older) (area_in s) }
{}
