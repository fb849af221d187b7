// That a slot may be written in the way that the table gives.
ghost use Rattle.std.specs.Prelude.{◌≡◌, ℕ, ℤ, Bool, true, Option};
ghost use Rattle.ctr_types.specs.declared.value.Row.{Row};
ghost use Rattle.ctr_meta.specs.Tables.{Tables, is_in};
ghost use Rattle.ctr_page.specs.declared.rows.Place.{Place};
ghost use Rattle.ctr_page.specs.declared.rows.Version.{Version};
ghost use Rattle.ctr_page.specs.declared.rows.RowSlot.{RowSlot};
ghost use Rattle.ctr_passed.specs.redo_States.{State};
ghost use Rattle.ctr_passed.specs.area_Areas.{Area};
ghost use Rattle.ctr_passed.specs.area_Reading.{version_said, slot_said, columns_on};
ghost use Rattle.ctr_passed.specs.area_Images.{is_committed_in};
ghost use Rattle.ctr_passed.specs.record_laws_Owed.{FitsWriting, OwedByRow, Writing, written_slot, loses_head};
ghost use Rattle.ctr_passed.specs.record_effects_States.{pages_in, area_in};
ghost use Rattle.ctr_heap.specs.declared.ways.Way.{Way};
ghost use Rattle.ctr_heap.specs.Writing.{LaysMove};
ghost use Rattle.ctr_heap.specs.Ways.{IsWay, writing_by, IsReadyForWrite};

/// The way that the table gives fits its slot, once the version that is to be kept first was kept; so an open transaction may log a Row
/// for it.
pub fn a_way_fits_its_slot()
    ensures fits { (committed : ℕ → Bool) (area : Area) (e : ℕ) (at : Place) (s : RowSlot) (way : Way) (q : Place)
        → IsReadyForWrite area e at s way q → IsWay (committed s.head.xid) s way → FitsWriting (writing_by way q) committed area e s.key at }
    ensures owed { (tables : Tables) (area : Area) (e : ℕ) (at : Place) (s : RowSlot) (way : Way) (q : Place) (x : ℕ) (row : Option Row)
        → IsReadyForWrite area e at s way q → IsWay (is_committed_in tables s.head.xid) s way → is_in x tables.opens ≡ true
        → OwedByRow tables area (record { entry = e; at = at; key = s.key; writing = writing_by way q; xid = x; row = row }) }
{}

/// A slot that is written over what stands at a place, in whichever way, is the one that a move leaves there; so `put_slot` does that
/// move. What `written` and `first` give is such a slot, and `replaced` tells whose head it replaces.
pub fn what_is_written_is_a_move()
    ensures { (s : State) (e over : ℕ) (at : Place) (key : ℤ) (way : Writing) (head : Version) (slot : RowSlot)
        → slot_said (columns_on (pages_in s) at.page) slot ≡ written_slot way (version_said (columns_on (pages_in s) at.page) key head) key ((area_in s).slot at)
        → over ≡ loses_head s.tables ((area_in s).slot at)
        → LaysMove s head.xid over at slot (record { entry = e; at = at; key = key; writing = way; xid = head.xid; row = (version_said (columns_on (pages_in s) at.page) key head).1 }) }
{}
