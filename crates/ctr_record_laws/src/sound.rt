// An area stays sound by each record on a whole page, on the catalog and on a transaction.
ghost use Rattle.std.specs.Prelude.{◌≡◌, ◌≤◌, ◌∷◌, ℕ, Bool, true, false, List};
ghost use Rattle.ctr_area.specs.rec_SlogItem.TheVariants.{AllocOf, FreeOf, CreateOf, DropOf};
ghost use Rattle.ctr_area.specs.meta_Wanted.TheVariants.{Allocation, OfPage, Creation, Dropping};
ghost use Rattle.ctr_area.specs.meta_Tables.{Tables, is_in};
ghost use Rattle.ctr_area.specs.meta_Effects.{with_item, without_item, opened_by, committed, rolled_back, forgotten_by};
ghost use Rattle.ctr_area.specs.ctr_page.declared.header.Header.{Header};
ghost use Rattle.ctr_area.specs.Areas.{Area, Title, no_pages};
ghost use Rattle.ctr_area.specs.Chains.{pages_bound, pages_from};
ghost use Rattle.ctr_area.specs.Sound.{IsSoundArea};
ghost use Rattle.ctr_area.specs.Changes.{with_taken, with_blank, with_firsts, with_bucket, with_title, new_title, empty_chains, ChangesEntry};
ghost use Rattle.ctr_record_laws.specs.Bounds.{IsInBounds};
ghost use Rattle.ctr_record_laws.specs.Owed.{OwedByAlloc, OwedByFree, OwedByFormat, first_page, OwedByLink, OwedByOlderLink, OwedByUnlink, OwedByOlderUnlink, OwedByUncreate, OwedByUndrop, OwedByDrop, OwedByCreate, OwedByDying, OwedByFreeing, OwedByAbort, OwedByCommit, OwedByBegin};
ghost use Rattle.ctr_area.specs.types_Column.{Column};

/// An Alloc: the area stays sound, with the tables in which the page is the transaction's to link or to give
/// back.
pub fn an_alloc_stays_sound()
    ensures { (counted : ℕ) (tables : Tables) (area : Area) (x p : ℕ) → IsSoundArea counted tables area → OwedByAlloc counted tables area x p
        → IsSoundArea counted (with_item (AllocOf x p) tables) (with_taken p true area) }
{}

/// A Free: the area stays sound, with the tables in which the earliest item of the page is gone.
pub fn a_free_stays_sound()
    ensures { (counted : ℕ) (tables : Tables) (area : Area) (p : ℕ) → IsSoundArea counted tables area → OwedByFree tables p
        → IsSoundArea counted (without_item (OfPage p) tables) (with_taken p false area) }
{}

/// A Format, whatever header it gives: the area stays sound with the same tables.
pub fn a_format_stays_sound()
    ensures { (counted : ℕ) (tables : Tables) (area : Area) (x p : ℕ) (h : Header) → IsInBounds area → IsSoundArea counted tables area → OwedByFormat tables x p
        → IsSoundArea counted tables (with_blank p h area) }
{}

/// A Link to a bucket or to a version chain, where no more pages are counted than can be: the area stays sound,
/// with the tables in which the page isn't the transaction's any more.
pub fn a_link_stays_sound()
    ensures bucket { (counted : ℕ) (tables : Tables) (area : Area) (x p e bucket : ℕ) → counted ≤ pages_bound → IsInBounds area
        → IsSoundArea counted tables area → OwedByLink tables area x p e bucket
        → IsSoundArea counted (without_item (Allocation x p) tables) (with_firsts e (with_bucket bucket p (area.firsts e)) area) }
    ensures versions { (counted : ℕ) (tables : Tables) (area : Area) (x p e : ℕ) → counted ≤ pages_bound → IsInBounds area
        → IsSoundArea counted tables area → OwedByOlderLink tables area x p e
        → IsSoundArea counted (without_item (Allocation x p) tables) (with_firsts e (record (area.firsts e) { versions = p }) area) }
{}

/// A page that is linked leads on to the page that was first: its chain is that one's, with the page in front.
pub fn a_linked_page_leads_on()
    ensures bucket { (counted : ℕ) (tables : Tables) (area : Area) (x p e bucket : ℕ) → counted ≤ pages_bound → IsInBounds area
        → IsSoundArea counted tables area → OwedByLink tables area x p e bucket
        → pages_from pages_bound area.header p ≡ p ∷ pages_from pages_bound area.header (first_page area e bucket) }
    ensures versions { (counted : ℕ) (tables : Tables) (area : Area) (x p e : ℕ) → counted ≤ pages_bound → IsInBounds area
        → IsSoundArea counted tables area → OwedByOlderLink tables area x p e
        → pages_from pages_bound area.header p ≡ p ∷ pages_from pages_bound area.header (area.firsts e).versions }
{}

/// An Unlink of the first page of a bucket, or of the version chain of a table without a used slot: the area stays
/// sound, with the tables in which the page is to be freed.
pub fn an_unlink_stays_sound()
    ensures bucket { (counted : ℕ) (tables : Tables) (area : Area) (p e bucket : ℕ) → IsInBounds area → IsSoundArea counted tables area
        → OwedByUnlink tables area p e bucket
        → IsSoundArea counted (with_item (FreeOf p) tables) (with_firsts e (with_bucket bucket (area.header p).next (area.firsts e)) area) }
    ensures versions { (counted : ℕ) (tables : Tables) (area : Area) (p e : ℕ) → IsInBounds area → IsSoundArea counted tables area
        → OwedByOlderUnlink area p e
        → IsSoundArea counted (with_item (FreeOf p) tables) (with_firsts e (record (area.firsts e) { versions = (area.header p).next }) area) }
{}

/// An Uncreate: the area stays sound, with the tables in which the entry's creation is no item any more.
pub fn an_uncreate_stays_sound()
    ensures { (counted : ℕ) (tables : Tables) (area : Area) (x e : ℕ) → IsSoundArea counted tables area → OwedByUncreate tables x e
        → IsSoundArea counted (without_item (Creation e) tables) (with_title e (record (area.title e) { state = 2 }) area) }
{}

/// An Undrop: the area stays sound, with the tables in which the entry's drop is no item any more.
pub fn an_undrop_stays_sound()
    ensures { (counted : ℕ) (tables : Tables) (area : Area) (x e : ℕ) → IsSoundArea counted tables area → OwedByUndrop tables x e
        → IsSoundArea counted (without_item (Dropping e) tables) (with_title e (record (area.title e) { dropper = 0 }) area) }
{}

/// A Drop: the area stays sound, with the tables in which the drop is an item.
pub fn a_drop_stays_sound()
    ensures { (counted : ℕ) (tables : Tables) (area : Area) (x e : ℕ) → IsSoundArea counted tables area → OwedByDrop tables area x e
        → IsSoundArea counted (with_item (DropOf x e) tables) (with_title e (record (area.title e) { dropper = x }) area) }
{}

/// A Create, which changes its entry alone: the area stays sound, with the tables in which the creation is an item.
pub fn a_create_stays_sound()
    ensures { (counted : ℕ) (tables : Tables) (old new : Area) (x e : ℕ) (name : List ℕ) (columns : List Column) → IsInBounds old
        → IsSoundArea counted tables old → OwedByCreate tables old x e name → ChangesEntry e (new_title x name columns) empty_chains old new
        → IsSoundArea counted (with_item (CreateOf x e) tables) new }
{}

/// A Trim of an entry of the catalog, which is dead from then on, or free, with a title that says so and no page: the
/// area stays sound with the same tables.
pub fn a_trimmed_entry_stays_sound()
    ensures dead { (passes : ℕ → Bool) (counted : ℕ) (tables : Tables) (area : Area) (e : ℕ) → IsSoundArea counted tables area → OwedByDying passes tables area e
        → IsSoundArea counted tables (with_title e (record (area.title e) { state = 2 }) area) }
    ensures free { (counted : ℕ) (tables : Tables) (old new : Area) (e : ℕ) (title : Title) → IsSoundArea counted tables old
        → OwedByFreeing old e → title.state ≡ 0 → ChangesEntry e title no_pages old new → IsSoundArea counted tables new }
{}

/// A Begin of the next transaction: the area stays sound.
pub fn a_begin_stays_sound()
    ensures { (counted : ℕ) (tables : Tables) (area : Area) (x : ℕ) → IsSoundArea counted tables area → OwedByBegin tables x
        → IsSoundArea counted (opened_by x tables) area }
{}

/// An Abort: the area stays sound, with the tables in which the transaction is aborted, or is none where it has no head.
pub fn an_abort_stays_sound()
    ensures { (counted : ℕ) (tables : Tables) (area : Area) (x : ℕ) → IsSoundArea counted tables area → OwedByAbort tables x
        → IsSoundArea counted (rolled_back x tables) area }
{}

/// A Forget of an aborted transaction, whatever heads it has: the area stays sound.
pub fn a_forget_stays_sound()
    ensures { (counted : ℕ) (tables : Tables) (area : Area) (x : ℕ) → IsSoundArea counted tables area → is_in x tables.aborted ≡ true
        → IsSoundArea counted (forgotten_by x tables) area }
{}

/// A Commit: the area stays sound, with the tables in which the transaction is open no more, and has no item.
pub fn a_commit_stays_sound()
    ensures { (counted : ℕ) (tables : Tables) (area : Area) (x : ℕ) → IsSoundArea counted tables area → OwedByCommit tables x
        → IsSoundArea counted (committed x tables) area }
{}

/// The file grows, so that more pages are counted: the area stays sound with the same tables.
pub fn growth_stays_sound()
    ensures { (counted more : ℕ) (tables : Tables) (area : Area) → counted ≤ more → IsSoundArea counted tables area → IsSoundArea more tables area }
{}
