// Which records leave a version entry in no chain, and which leave it so; what stays of the slot that a copy waits for.
ghost use Rattle.std.specs.Prelude.{ℕ, Bool, ◌≢◌, ◌≤◌, List};
ghost use Rattle.ctr_area.specs.meta_Tables.{Tables};
ghost use Rattle.ctr_area.specs.ctr_page.declared.rows.Place.{Place};
ghost use Rattle.ctr_area.specs.Areas.{Area, Older, free_older, RowVersion, Title, no_pages, Slot};
ghost use Rattle.ctr_area.specs.Sound.{IsAmong, along, IsSoundArea, IsUsedSlot};
ghost use Rattle.ctr_record_laws.specs.Owed.{ToKept, OwedByRevert, reverted_at, Trimming, OwedByTrim, trimmed_at, OwedByCut, cut_at, IsSpareCopy, OwedByKeep, RowMove, row_moved, OwedByRow, Reverting, IsInNoChain, OwedByFormat, OwedByLink, OwedByOlderLink, OwedByUnlink, OwedByOlderUnlink, OwedByCreate, OwedByFreeing, older_copy};
ghost use Rattle.ctr_record_laws.specs.Loose.{IsLoose, behind_entry, Links, IsSpareFor, IsSameSlot};
ghost use Rattle.ctr_area.specs.Changes.{with_older, with_taken, with_blank, with_firsts, with_bucket, with_title, new_title, empty_chains, ChangesEntry, with_slot};
ghost use Rattle.ctr_area.specs.ctr_page.declared.header.Header.{Header};
ghost use Rattle.ctr_area.specs.Chains.{pages_bound};
ghost use Rattle.ctr_record_laws.specs.Bounds.{IsInBounds};
ghost use Rattle.ctr_area.specs.types_Column.{Column};

/// A Revert to the version that is kept where the pointer leads: its entry is used as it was, and in no chain
/// afterwards; it is a spare copy of the new head.
pub fn a_revert_leaves_its_entry()
    ensures loose { (counted : ℕ) (tables : Tables) (area : Area) (e : ℕ) (at : Place)
        → IsSoundArea counted tables area → OwedByRevert tables area e at ToKept
        → IsLoose (reverted_at at ToKept area) e (area.slot at).pointer (area.older (area.slot at).pointer) }
    ensures spare { (counted : ℕ) (tables : Tables) (area : Area) (e : ℕ) (at : Place)
        → IsSoundArea counted tables area → OwedByRevert tables area e at ToKept
        → IsSpareCopy (reverted_at at ToKept area) e ((reverted_at at ToKept area).slot at) ((reverted_at at ToKept area).slot at).head (area.slot at).pointer }
{}

/// A Trim of a slot leaves each version entry of its chain used as it was, and in no chain; a Trim of a version
/// entry that leads nowhere from then on leaves so each one behind it.
pub fn a_trim_leaves_its_entries()
    ensures slot { (passes : ℕ → Bool) (counted : ℕ) (tables : Tables) (area : Area) (e : ℕ) (at : Place) (way : Trimming) (q : Place)
        → IsSoundArea counted tables area → OwedByTrim passes tables area e at way → IsAmong q (along area at)
        → IsLoose (trimmed_at at way area) e q (area.older q) }
    ensures entry { (passes : ℕ → Bool) (counted : ℕ) (tables : Tables) (area : Area) (e : ℕ) (at p q : Place)
        → IsSoundArea counted tables area → OwedByCut passes area e at p → IsAmong q (behind_entry area p)
        → IsLoose (cut_at p area) e q (area.older q) }
{}

/// A used version entry that no chain has stays as it is, and in no chain: over a Keep, a Row that doesn't link it, a
/// Revert, a Trim of a slot, of a version entry that leads nowhere from then on, and of another one that is freed.
pub fn a_loose_entry_stays_loose()
    ensures keep { (counted : ℕ) (tables : Tables) (area : Area) (e f : ℕ) (q p : Place) (it older : Older) → IsSoundArea counted tables area
        → OwedByKeep tables area f p older → IsLoose area e q it → IsLoose (with_older p older area) e q it }
    ensures row { (tables : Tables) (area : Area) (e : ℕ) (q : Place) (it : Older) (m : RowMove)
        → OwedByRow tables area m → (Links m.writing q → ⊥) → IsLoose area e q it → IsLoose (row_moved m area) e q it }
    ensures revert { (counted : ℕ) (tables : Tables) (area : Area) (e f : ℕ) (q b : Place) (it : Older) (way : Reverting) → IsSoundArea counted tables area
        → OwedByRevert tables area f b way → IsLoose area e q it → IsLoose (reverted_at b way area) e q it }
    ensures trim { (area : Area) (e : ℕ) (q b : Place) (it : Older) (way : Trimming)
        → IsLoose area e q it → IsLoose (trimmed_at b way area) e q it }
    ensures cut { (passes : ℕ → Bool) (area : Area) (e f : ℕ) (q b p : Place) (it : Older)
        → OwedByCut passes area f b p → IsLoose area e q it → IsLoose (cut_at p area) e q it }
    ensures freed { (area : Area) (e : ℕ) (q p : Place) (it : Older)
        → IsInNoChain area p → p ≢ q → IsLoose area e q it → IsLoose (with_older p free_older area) e q it }
{}

/// A used version entry that no chain has stays as it is, and in no chain: over an Alloc, a Free, a Format, a Link, and
/// an Unlink, but for one from its own version chain.
pub fn records_on_pages_leave_an_entry_loose()
    ensures taken { (area : Area) (e : ℕ) (q : Place) (it : Older) (p : ℕ) (taken : Bool)
        → IsLoose area e q it → IsLoose (with_taken p taken area) e q it }
    ensures format { (counted : ℕ) (tables : Tables) (area : Area) (e : ℕ) (q : Place) (it : Older) (x p : ℕ) (h : Header) → IsInBounds area
        → IsSoundArea counted tables area → OwedByFormat tables x p → IsLoose area e q it → IsLoose (with_blank p h area) e q it }
    ensures link { (tables : Tables) (area : Area) (e : ℕ) (q : Place) (it : Older) (x p f bucket : ℕ) → OwedByLink tables area x p f bucket
        → IsLoose area e q it → IsLoose (with_firsts f (with_bucket bucket p (area.firsts f)) area) e q it }
    ensures older_link { (counted : ℕ) (tables : Tables) (area : Area) (e : ℕ) (q : Place) (it : Older) (x p f : ℕ) → counted ≤ pages_bound → IsInBounds area
        → IsSoundArea counted tables area → OwedByOlderLink tables area x p f
        → IsLoose area e q it → IsLoose (with_firsts f (record (area.firsts f) { versions = p }) area) e q it }
    ensures unlink { (counted : ℕ) (tables : Tables) (area : Area) (e : ℕ) (q : Place) (it : Older) (p f bucket : ℕ)
        → IsSoundArea counted tables area → OwedByUnlink tables area p f bucket
        → IsLoose area e q it → IsLoose (with_firsts f (with_bucket bucket (area.header p).next (area.firsts f)) area) e q it }
    ensures older_unlink { (area : Area) (e : ℕ) (q : Place) (it : Older) (p f : ℕ) → e ≢ f
        → IsLoose area e q it → IsLoose (with_firsts f (record (area.firsts f) { versions = (area.header p).next }) area) e q it }
{}

/// A version that was kept of what stands in a used slot still is a spare copy of it over each of them; an Unlink from a
/// version chain is of another table.
pub fn records_on_pages_leave_a_copy_spare()
    ensures taken { (area : Area) (e : ℕ) (at q : Place) (version : RowVersion) (p : ℕ) (taken : Bool)
        → IsSpareFor area e at version q → IsSpareFor (with_taken p taken area) e at version q }
    ensures format { (counted : ℕ) (tables : Tables) (area : Area) (e : ℕ) (at q : Place) (version : RowVersion) (x p : ℕ) (h : Header) → IsInBounds area
        → IsSoundArea counted tables area → OwedByFormat tables x p → IsUsedSlot area e at
        → IsSpareFor area e at version q → IsSpareFor (with_blank p h area) e at version q }
    ensures link { (tables : Tables) (area : Area) (e : ℕ) (at q : Place) (version : RowVersion) (x p f bucket : ℕ) → OwedByLink tables area x p f bucket
        → IsSpareFor area e at version q → IsSpareFor (with_firsts f (with_bucket bucket p (area.firsts f)) area) e at version q }
    ensures older_link { (counted : ℕ) (tables : Tables) (area : Area) (e : ℕ) (at q : Place) (version : RowVersion) (x p f : ℕ) → counted ≤ pages_bound
        → IsInBounds area → IsSoundArea counted tables area → OwedByOlderLink tables area x p f
        → IsSpareFor area e at version q → IsSpareFor (with_firsts f (record (area.firsts f) { versions = p }) area) e at version q }
    ensures unlink { (counted : ℕ) (tables : Tables) (area : Area) (e : ℕ) (at q : Place) (version : RowVersion) (p f bucket : ℕ)
        → IsSoundArea counted tables area → OwedByUnlink tables area p f bucket
        → IsSpareFor area e at version q → IsSpareFor (with_firsts f (with_bucket bucket (area.header p).next (area.firsts f)) area) e at version q }
    ensures older_unlink { (area : Area) (e : ℕ) (at q : Place) (version : RowVersion) (p f : ℕ) → OwedByOlderUnlink area p f → IsUsedSlot area e at
        → IsSpareFor area e at version q → IsSpareFor (with_firsts f (record (area.firsts f) { versions = (area.header p).next }) area) e at version q }
{}

/// A used version entry that no chain has stays as it is, and in no chain: over a record that changes one title, as an
/// Uncreate, a Drop, an Undrop and a Trim of a dropped table do, a Create, and a Trim that frees an entry.
pub fn records_on_titles_leave_an_entry_loose()
    ensures title { (area : Area) (e : ℕ) (q : Place) (it : Older) (f : ℕ) (title : Title)
        → IsLoose area e q it → IsLoose (with_title f title area) e q it }
    ensures create { (counted : ℕ) (tables : Tables) (old new : Area) (e : ℕ) (q : Place) (it : Older) (x f : ℕ) (name : List ℕ) (columns : List Column)
        → IsInBounds old → IsSoundArea counted tables old → OwedByCreate tables old x f name → ChangesEntry f (new_title x name columns) empty_chains old new
        → IsLoose old e q it → IsLoose new e q it }
    ensures free { (counted : ℕ) (tables : Tables) (old new : Area) (e : ℕ) (q : Place) (it : Older) (f : ℕ) (title : Title)
        → IsSoundArea counted tables old → OwedByFreeing old f → ChangesEntry f title no_pages old new
        → IsLoose old e q it → IsLoose new e q it }
{}

/// A version that was kept of what stands in a used slot still is a spare copy of it over each of them.
pub fn records_on_titles_leave_a_copy_spare()
    ensures title { (area : Area) (e : ℕ) (at q : Place) (version : RowVersion) (f : ℕ) (title : Title)
        → IsSpareFor area e at version q → IsSpareFor (with_title f title area) e at version q }
    ensures create { (counted : ℕ) (tables : Tables) (old new : Area) (e : ℕ) (at q : Place) (version : RowVersion) (x f : ℕ) (name : List ℕ) (columns : List Column)
        → IsInBounds old → IsSoundArea counted tables old → OwedByCreate tables old x f name → ChangesEntry f (new_title x name columns) empty_chains old new
        → IsUsedSlot old e at → IsSpareFor old e at version q → IsSpareFor new e at version q }
    ensures free { (counted : ℕ) (tables : Tables) (old new : Area) (e : ℕ) (at q : Place) (version : RowVersion) (f : ℕ) (title : Title)
        → IsSoundArea counted tables old → OwedByFreeing old f → ChangesEntry f title no_pages old new
        → IsUsedSlot old e at → IsSpareFor old e at version q → IsSpareFor new e at version q }
{}

/// A spare copy is a used version entry that no chain has; and one that holds a version of a slot, and leads on as
/// the slot does, is a spare copy.
pub fn a_spare_copy_is_loose()
    ensures loose { (area : Area) (e : ℕ) (slot : Slot) (version : RowVersion) (q : Place)
        → IsSpareCopy area e slot version q → IsLoose area e q (older_copy slot version) }
    ensures spare { (area : Area) (e : ℕ) (slot : Slot) (version : RowVersion) (q : Place)
        → IsLoose area e q (older_copy slot version) → IsSpareCopy area e slot version q }
{}

/// A version that was kept of what stands in a slot still is a spare copy of it: over a Keep, a Row on another slot,
/// which can't link it, a Revert and a Trim of another slot, a Trim of a version entry that leads nowhere from then on,
/// and of another one that is freed.
pub fn a_spare_copy_stays_spare()
    ensures keep { (counted : ℕ) (tables : Tables) (area : Area) (e f : ℕ) (at q p : Place) (version : RowVersion) (older : Older)
        → IsSoundArea counted tables area → OwedByKeep tables area f p older
        → IsSpareFor area e at version q → IsSpareFor (with_older p older area) e at version q }
    ensures row { (counted : ℕ) (tables : Tables) (area : Area) (e : ℕ) (at q : Place) (version : RowVersion) (m : RowMove)
        → IsSoundArea counted tables area → OwedByRow tables area m → IsUsedSlot area e at → at ≢ m.at
        → IsSpareFor area e at version q → IsSpareFor (row_moved m area) e at version q }
    ensures revert { (counted : ℕ) (tables : Tables) (area : Area) (e f : ℕ) (at q b : Place) (version : RowVersion) (way : Reverting)
        → IsSoundArea counted tables area → OwedByRevert tables area f b way → at ≢ b
        → IsSpareFor area e at version q → IsSpareFor (reverted_at b way area) e at version q }
    ensures trim { (area : Area) (e : ℕ) (at q b : Place) (version : RowVersion) (way : Trimming) → at ≢ b
        → IsSpareFor area e at version q → IsSpareFor (trimmed_at b way area) e at version q }
    ensures cut { (passes : ℕ → Bool) (area : Area) (e f : ℕ) (at q b p : Place) (version : RowVersion) → OwedByCut passes area f b p
        → IsSpareFor area e at version q → IsSpareFor (cut_at p area) e at version q }
    ensures freed { (area : Area) (e : ℕ) (at q p : Place) (version : RowVersion) → IsInNoChain area p → p ≢ q
        → IsSpareFor area e at version q → IsSpareFor (with_older p free_older area) e at version q }
{}

/// A used slot of a table is used as it was: over a Row, a Revert and a Trim of another slot, and over a Keep and a Trim of
/// a version entry.
pub fn records_elsewhere_leave_a_slot()
    ensures slot { (area : Area) (e : ℕ) (at b : Place) (slot : Slot) → at ≢ b
        → IsUsedSlot area e at → IsSameSlot area (with_slot b slot area) e at }
    ensures older { (area : Area) (e : ℕ) (at p : Place) (older : Older)
        → IsUsedSlot area e at → IsSameSlot area (with_older p older area) e at }
{}

/// A used slot of a table is used as it was: over an Alloc, a Free, a Format, a Link, an Unlink from a version chain, and
/// an Unlink of another page than the slot's.
pub fn records_on_pages_leave_a_slot()
    ensures taken { (area : Area) (e : ℕ) (at : Place) (p : ℕ) (taken : Bool)
        → IsUsedSlot area e at → IsSameSlot area (with_taken p taken area) e at }
    ensures format { (counted : ℕ) (tables : Tables) (area : Area) (e : ℕ) (at : Place) (x p : ℕ) (h : Header) → IsInBounds area
        → IsSoundArea counted tables area → OwedByFormat tables x p → IsUsedSlot area e at → IsSameSlot area (with_blank p h area) e at }
    ensures link { (counted : ℕ) (tables : Tables) (area : Area) (e : ℕ) (at : Place) (x p f bucket : ℕ) → counted ≤ pages_bound → IsInBounds area
        → IsSoundArea counted tables area → OwedByLink tables area x p f bucket
        → IsUsedSlot area e at → IsSameSlot area (with_firsts f (with_bucket bucket p (area.firsts f)) area) e at }
    ensures unlink { (tables : Tables) (area : Area) (e : ℕ) (at : Place) (p f bucket : ℕ) → OwedByUnlink tables area p f bucket → at.page ≢ p
        → IsUsedSlot area e at → IsSameSlot area (with_firsts f (with_bucket bucket (area.header p).next (area.firsts f)) area) e at }
    ensures versions { (area : Area) (e : ℕ) (at : Place) (f p : ℕ)
        → IsUsedSlot area e at → IsSameSlot area (with_firsts f (record (area.firsts f) { versions = p }) area) e at }
{}

/// A used slot of a table is used as it was: over a record that changes one title, a Create, and a Trim that frees an
/// entry of the catalog.
pub fn records_on_titles_leave_a_slot()
    ensures title { (area : Area) (e : ℕ) (at : Place) (f : ℕ) (title : Title)
        → IsUsedSlot area e at → IsSameSlot area (with_title f title area) e at }
    ensures create { (counted : ℕ) (tables : Tables) (old new : Area) (e : ℕ) (at : Place) (x f : ℕ) (name : List ℕ) (columns : List Column)
        → IsInBounds old → IsSoundArea counted tables old → OwedByCreate tables old x f name → ChangesEntry f (new_title x name columns) empty_chains old new
        → IsUsedSlot old e at → IsSameSlot old new e at }
    ensures free { (counted : ℕ) (tables : Tables) (old new : Area) (e : ℕ) (at : Place) (f : ℕ) (title : Title)
        → IsSoundArea counted tables old → OwedByFreeing old f → ChangesEntry f title no_pages old new
        → IsUsedSlot old e at → IsSameSlot old new e at }
{}
