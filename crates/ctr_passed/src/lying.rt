// The bytes of each record lie as its action says: at what the action changes, and nowhere else.
ghost use Rattle.std.specs.Prelude.{◌+◌, ◌*◌, ◌/◌, ◌^◌, ◌<◌, ◌≤◌, ℕ, Bool, List, length};
ghost use Rattle.ctr_passed.specs.Words.{Column, ColumnsFit, Record, Begin, Commit, Abort, Forget, Checkpoint, State, Header, Place, ENTRY_SIZE, Title, Older, Area, RowMove, Reverting, Trimming, area_in, IsWholePage, alloc_record, free_record, format_record, link_record, link_older_record, unlink_record, unlink_older_record, create_record, uncreate_record, drop_record, undrop_record, laid_in_entry, Lays, Begins, Allocates, Formats, Links, LinksOlder, Keeps, Writes, Creates, Drops, Commits, Frees, Uncreates, Undrops, Aborts, Reclaims, Reverts, Trims, Cuts, FreesOlder, MakesDead, Unlinks, UnlinksOlder, FreesEntry, Forgets, Checkpoints};
ghost use Rattle.ctr_passed.specs.Laid.{slot_size_in, older_size_in};
ghost use Rattle.ctr_passed.specs.Logged.{LaysAtPlace, RecordLies};

/// An Alloc and a Free lie on the map of allocated pages, and a Format on its page.
pub fn pages_lie_as_their_actions()
    ensures allocates { (s : State) (x p byte : ℕ) → IsWholePage 0 s → RecordLies (Allocates p) (alloc_record x p byte) s }
    ensures frees { (s : State) (p byte : ℕ) → IsWholePage 0 s → RecordLies (Frees p) (free_record p byte) s }
    ensures reclaims { (s : State) (p byte : ℕ) → IsWholePage 0 s → RecordLies (Reclaims p) (free_record p byte) s }
    ensures formats { (s : State) (x p : ℕ) (h : Header) → IsWholePage p s → RecordLies (Formats p h) (format_record x p h) s }
{}

/// A Link and an Unlink lie in the entry of their table.
pub fn chains_lie_as_their_actions()
    ensures links { (s : State) (x p e b : ℕ) → IsWholePage (1 + e / 16) s → e < 32 → b < 8 → RecordLies (Links p e b) (link_record x p e b) s }
    ensures links_older { (s : State) (x p e : ℕ) → IsWholePage (1 + e / 16) s → e < 32 → RecordLies (LinksOlder p e) (link_older_record x p e) s }
    ensures unlinks { (s : State) (p next e b : ℕ) → IsWholePage (1 + e / 16) s → e < 32 → b < 8 → RecordLies (Unlinks p e b) (unlink_record p next e b) s }
    ensures unlinks_older { (s : State) (p next e : ℕ) → IsWholePage (1 + e / 16) s → e < 32
        → RecordLies (UnlinksOlder p e) (unlink_older_record p next e) s }
{}

/// The records of a table lie in its entry; and so does a Trim whose bytes are laid inside it.
pub fn tables_lie_as_their_actions()
    ensures creates { (s : State) (x e : ℕ) (name : List ℕ) (columns : List Column) (left : Area) → IsWholePage (1 + e / 16) s → e < 32
        → x < 256 ^ 8 → length name ≤ 16 → ColumnsFit columns
        → RecordLies (Creates e name columns left) (create_record x e name columns) s }
    ensures uncreates { (s : State) (e : ℕ) → IsWholePage (1 + e / 16) s → e < 32 → RecordLies (Uncreates e) (uncreate_record e) s }
    ensures drops { (s : State) (x e : ℕ) → IsWholePage (1 + e / 16) s → e < 32 → RecordLies (Drops e) (drop_record x e) s }
    ensures undrops { (s : State) (e : ℕ) → IsWholePage (1 + e / 16) s → e < 32 → RecordLies (Undrops e) (undrop_record e) s }
    ensures makes_dead { (s : State) (r : Record) (passes : ℕ → Bool) (e at : ℕ) (bytes : List ℕ) → Lays r (laid_in_entry e at bytes)
        → IsWholePage (1 + e / 16) s → e < 32 → at + length bytes ≤ ENTRY_SIZE → RecordLies (MakesDead passes e) r s }
    ensures frees { (s : State) (r : Record) (e at : ℕ) (bytes : List ℕ) (title : Title) (left : Area) → Lays r (laid_in_entry e at bytes)
        → IsWholePage (1 + e / 16) s → e < 32 → at + length bytes ≤ ENTRY_SIZE → RecordLies (FreesEntry e title left) r s }
{}

/// A record that lays no more bytes over a slot of a table than stand there lies at it, by the columns of the table.
pub fn slots_lie_as_their_actions()
    ensures writes { (s : State) (r : Record) (m : RowMove) (bytes : List ℕ) → LaysAtPlace r m.at (slot_size_in (area_in s) m.entry) bytes s
        → RecordLies (Writes m) r s }
    ensures reverts { (s : State) (r : Record) (e : ℕ) (at : Place) (way : Reverting) (bytes : List ℕ) → LaysAtPlace r at (slot_size_in (area_in s) e) bytes s
        → RecordLies (Reverts e at way) r s }
    ensures trims { (s : State) (r : Record) (passes : ℕ → Bool) (e : ℕ) (at : Place) (way : Trimming) (bytes : List ℕ)
        → LaysAtPlace r at (slot_size_in (area_in s) e) bytes s → RecordLies (Trims passes e at way) r s }
{}

/// A record that lays no more bytes over a version entry of a table than stand there lies at it, likewise.
pub fn versions_lie_as_their_actions()
    ensures keeps { (s : State) (r : Record) (e : ℕ) (at : Place) (older : Older) (bytes : List ℕ) → LaysAtPlace r at (older_size_in (area_in s) e) bytes s
        → RecordLies (Keeps e at older) r s }
    ensures cuts { (s : State) (r : Record) (passes : ℕ → Bool) (e : ℕ) (at q : Place) (bytes : List ℕ) → LaysAtPlace r q (older_size_in (area_in s) e) bytes s
        → RecordLies (Cuts passes e at q) r s }
    ensures frees { (s : State) (r : Record) (e : ℕ) (q : Place) (bytes : List ℕ) → LaysAtPlace r q (older_size_in (area_in s) e) bytes s
        → RecordLies (FreesOlder e q) r s }
{}

/// A record that lays no bytes leaves all pages as they were.
pub fn records_without_bytes_lie_as_their_actions()
    ensures begins { (s : State) (x : ℕ) → RecordLies Begins (Begin x) s }
    ensures commits { (s : State) (x : ℕ) → RecordLies Commits (Commit x) s }
    ensures aborts { (s : State) (x : ℕ) → RecordLies Aborts (Abort x) s }
    ensures forgets { (s : State) (x : ℕ) → RecordLies (Forgets x) (Forget x) s }
    ensures checkpoints { (s : State) (next : ℕ) (lists : List ℕ) → RecordLies (Checkpoints lists) (Checkpoint next lists) s }
{}
