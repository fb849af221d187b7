// What each record does to the chains of an area, and so to what is shown of it.
ghost use Rattle.std.specs.Prelude.{◌≡◌, ◌≢◌, ◌<◌, ℕ, Bool, List, ◌≤◌, length};
ghost use Rattle.ctr_area.specs.meta_Tables.{Tables};
ghost use Rattle.ctr_area.specs.ctr_page.declared.rows.Place.{Place};
ghost use Rattle.ctr_area.specs.Areas.{RowVersion, Slot, Older, Area, free_older};
ghost use Rattle.ctr_area.specs.Reading.{area_of};
ghost use Rattle.ctr_area.specs.Chains.{pages_bound};
ghost use Rattle.ctr_area.specs.Images.{image_rows, versions_in};
ghost use Rattle.ctr_area.specs.Sound.{IsSoundArea};
ghost use Rattle.ctr_area.specs.Changes.{with_older, with_taken, with_blank, with_firsts, with_bucket};
ghost use Rattle.ctr_record_laws.specs.Bounds.{IsInBounds};
ghost use Rattle.ctr_record_laws.specs.Owed.{OwedByKeep, older_copy, IsSpareCopy, RowMove, row_moved, row_counted, OwedByRow, AgreeOnCommits, Reverting, FitsReverting, OwedByRevert, reverted_at, Trimming, trimmed_slot, trimmed_chain, OwedByTrim, trimmed_at, OwedByCut, cut_at, IsInNoChain, OwedByFree, OwedByFormat, rows_header, versions_header, first_page, OwedByLink, OwedByOlderLink, OwedByUncreate, OwedByUndrop};
ghost use Rattle.ctr_area.specs.versions_Chains.{Numbers};
ghost use Rattle.ctr_area.specs.versions_Changes.{write, revert, cut};
ghost use Rattle.ctr_area.specs.versions_Versions.{rows_of, RowsSet};
ghost use Rattle.ctr_area.specs.meta_Effects.{one_aborted_less, with_item};
ghost use Rattle.ctr_area.specs.rec_SlogItem.TheVariants.{AllocOf, FreeOf, CreateOf, DropOf};
ghost use Rattle.ctr_area.specs.ctr_page.declared.header.Header.{Header};
ghost use Rattle.ctr_record_laws.specs.Shows.{ShowTheSame};

/// The area of any pages has at most 32 tables, no page of a free entry, and at most 170 slots or version
/// entries on a page.
pub fn pages_are_in_bounds()
    ensures { (pages : ℕ → List ℕ) → IsInBounds (area_of pages) }
{}

/// A Keep: the chains of names and rows, and the rows of an image, are what they were, and the area stays
/// sound with the same tables.
pub fn a_keep_shows_the_same()
    ensures versions { (counted : ℕ) (tables : Tables) (area : Area) (e : ℕ) (at : Place) (older : Older) (committed : ℕ → Bool)
        → IsSoundArea counted tables area → OwedByKeep tables area e at older
        → versions_in committed (with_older at older area) ≡ versions_in committed area }
    ensures rows { (counted : ℕ) (tables : Tables) (area : Area) (e : ℕ) (at : Place) (older : Older) (committed : ℕ → Bool)
        → IsSoundArea counted tables area → OwedByKeep tables area e at older
        → image_rows committed (with_older at older area) ≡ image_rows committed area }
    ensures sound { (counted : ℕ) (tables : Tables) (area : Area) (e : ℕ) (at : Place) (older : Older)
        → IsSoundArea counted tables area → OwedByKeep tables area e at older → IsSoundArea counted tables (with_older at older area) }
{}

/// A version of a slot that a Keep puts into an entry of the table's version store is a spare copy there.
pub fn a_kept_version_is_spare()
    ensures { (counted : ℕ) (tables : Tables) (area : Area) (e : ℕ) (at : Place) (slot : Slot) (version : RowVersion)
        → IsSoundArea counted tables area → OwedByKeep tables area e at (older_copy slot version)
        → IsSpareCopy (with_older at (older_copy slot version) area) e slot version at }
{}

/// A Row: the chain of its key is written, and every other chain is what it was; the area stays sound, with the
/// tables in which its transaction has a head more, and the one whose head it replaced a head less.
pub fn a_row_writes_its_chain()
    ensures step { (number : Numbers) (counted : ℕ) (tables : Tables) (area : Area) (m : RowMove) (committed : ℕ → Bool)
        → IsInBounds area → IsSoundArea counted tables area → AgreeOnCommits number tables → OwedByRow tables area m
        → RowsSet (versions_in committed area) (versions_in committed (row_moved m area)) m.entry m.key
        (write number m.xid m.row (rows_of (versions_in committed area) m.entry m.key)) }
    ensures sound { (counted : ℕ) (tables : Tables) (area : Area) (m : RowMove)
        → IsInBounds area → IsSoundArea counted tables area → OwedByRow tables area m
        → IsSoundArea counted (row_counted m area tables) (row_moved m area) }
{}

/// A Revert: the chain of the slot's key loses its head, and every other chain is what it was; the area stays
/// sound, with the tables in which the head's transaction has a head less. Each slot has a way to be reverted.
pub fn a_revert_takes_the_head()
    ensures step { (number : Numbers) (counted : ℕ) (tables : Tables) (area : Area) (e : ℕ) (at : Place) (way : Reverting) (committed : ℕ → Bool)
        → IsInBounds area → IsSoundArea counted tables area → AgreeOnCommits number tables → OwedByRevert tables area e at way
        → RowsSet (versions_in committed area) (versions_in committed (reverted_at at way area)) e (area.slot at).key
        (revert number (rows_of (versions_in committed area) e (area.slot at).key)) }
    ensures sound { (counted : ℕ) (tables : Tables) (area : Area) (e : ℕ) (at : Place) (way : Reverting)
        → IsInBounds area → IsSoundArea counted tables area → OwedByRevert tables area e at way
        → IsSoundArea counted (one_aborted_less (area.slot at).head.0 tables) (reverted_at at way area) }
    ensures ways { (slot : Slot) → (way : Reverting) × FitsReverting way slot }
{}

/// A Trim of a slot: its chain is cut, or goes with its tombstone, and every other chain is what it was; the
/// area stays sound with the same tables. The slot is another one afterwards.
pub fn a_trim_cuts_its_chain()
    ensures step { (passes : ℕ → Bool) (counted : ℕ) (tables : Tables) (area : Area) (e : ℕ) (at : Place) (way : Trimming) (committed : ℕ → Bool)
        → IsInBounds area → IsSoundArea counted tables area → OwedByTrim passes tables area e at way
        → RowsSet (versions_in committed area) (versions_in committed (trimmed_at at way area)) e (area.slot at).key
        (trimmed_chain way passes (rows_of (versions_in committed area) e (area.slot at).key)) }
    ensures sound { (passes : ℕ → Bool) (counted : ℕ) (tables : Tables) (area : Area) (e : ℕ) (at : Place) (way : Trimming)
        → IsInBounds area → IsSoundArea counted tables area → OwedByTrim passes tables area e at way
        → IsSoundArea counted tables (trimmed_at at way area) }
    ensures changes { (passes : ℕ → Bool) (tables : Tables) (area : Area) (e : ℕ) (at : Place) (way : Trimming)
        → OwedByTrim passes tables area e at way → trimmed_slot way (area.slot at) ≢ area.slot at }
{}

/// A Trim of a version entry that leads nowhere from then on: the chain of its slot's key is cut there, and
/// every other chain is what it was; the area stays sound with the same tables. The entry is another one afterwards.
pub fn a_cut_ends_its_chain()
    ensures step { (passes : ℕ → Bool) (counted : ℕ) (tables : Tables) (area : Area) (e : ℕ) (at q : Place) (committed : ℕ → Bool)
        → IsInBounds area → IsSoundArea counted tables area → OwedByCut passes area e at q
        → RowsSet (versions_in committed area) (versions_in committed (cut_at q area)) e (area.slot at).key
        (cut passes (rows_of (versions_in committed area) e (area.slot at).key)) }
    ensures sound { (counted : ℕ) (tables : Tables) (area : Area) (q : Place)
        → IsSoundArea counted tables area → IsSoundArea counted tables (cut_at q area) }
    ensures changes { (passes : ℕ → Bool) (area : Area) (e : ℕ) (at q : Place) → OwedByCut passes area e at q → (cut_at q area).older q ≢ area.older q }
{}

/// A Trim that frees a version entry which no chain has: the chains of names and rows, and the rows of an
/// image, are what they were, and the area stays sound with the same tables.
pub fn a_free_entry_shows_the_same()
    ensures versions { (area : Area) (q : Place) (committed : ℕ → Bool) → IsInNoChain area q
        → versions_in committed (with_older q free_older area) ≡ versions_in committed area }
    ensures rows { (area : Area) (q : Place) (committed : ℕ → Bool) → IsInNoChain area q
        → image_rows committed (with_older q free_older area) ≡ image_rows committed area }
    ensures sound { (counted : ℕ) (tables : Tables) (area : Area) (q : Place)
        → IsSoundArea counted tables area → IsInNoChain area q → IsSoundArea counted tables (with_older q free_older area) }
{}

/// An Alloc, a Free, a Format, a Link, and an Unlink from a version chain: the chains of names and rows, and the rows of an
/// image, are what they were.
pub fn records_on_pages_show_the_same()
    ensures taken { (area : Area) (p : ℕ) (taken : Bool) → ShowTheSame area (with_taken p taken area) }
    ensures format { (counted : ℕ) (tables : Tables) (area : Area) (x p : ℕ) (h : Header) → IsInBounds area → IsSoundArea counted tables area
        → OwedByFormat tables x p → ShowTheSame area (with_blank p h area) }
    ensures link { (counted : ℕ) (tables : Tables) (area : Area) (x p e bucket : ℕ) → counted ≤ pages_bound → IsInBounds area
        → IsSoundArea counted tables area → OwedByLink tables area x p e bucket
        → ShowTheSame area (with_firsts e (with_bucket bucket p (area.firsts e)) area) }
    ensures versions { (area : Area) (e p : ℕ) → ShowTheSame area (with_firsts e (record (area.firsts e) { versions = p }) area) }
{}

/// What a record owes, where the one before it was made for it: a page that is allocated can be formatted and given back, one
/// that has the header of a chain can be linked, one that left its chain can be freed; what was created or
/// dropped last can be undone.
pub fn a_record_leaves_what_the_next_owes()
    ensures formatted { (tables : Tables) (x p : ℕ) → OwedByFormat (with_item (AllocOf x p) tables) x p }
    ensures given_back { (tables : Tables) (x p : ℕ) → OwedByFormat tables x p → OwedByFree tables p }
    ensures linked { (tables : Tables) (area : Area) (x p e bucket : ℕ) → OwedByFormat tables x p → bucket < length (area.firsts e).buckets
        → OwedByLink tables (with_blank p (rows_header e bucket (first_page area e bucket)) area) x p e bucket }
    ensures older_linked { (tables : Tables) (area : Area) (x p e : ℕ) → OwedByFormat tables x p → e < 32
        → OwedByOlderLink tables (with_blank p (versions_header e (area.firsts e).versions) area) x p e }
    ensures freed { (tables : Tables) (p : ℕ) → OwedByFree (with_item (FreeOf p) tables) p }
    ensures uncreated { (tables : Tables) (x e : ℕ) → OwedByUncreate (with_item (CreateOf x e) tables) x e }
    ensures undropped { (tables : Tables) (x e : ℕ) → OwedByUndrop (with_item (DropOf x e) tables) x e }
{}
