// What each record lays passes its own checks, in a state of a database.
ghost use Rattle.std.specs.Prelude.{◌≡◌, ◌≢◌, ◌+◌, ◌/◌, ◌^◌, ◌<◌, ◌≤◌, ◌∷◌, [], ℕ, Bool, false, List};
ghost use Rattle.ctr_passed.specs.Words.{Column, IsName, ColumnsFit, Record, touches, State, step, Header, Place, RowSlot, VersionEntry, Title, Older, Area, RowMove, Reverting, Trimming, rows_header, versions_header, area_in, IsWholePage, IsDatabaseState, format_record, link_record, link_older_record, unlink_record, unlink_older_record, create_record, uncreate_record, drop_record, undrop_record, laid_in_entry, Lays, Links, LinksOlder, Keeps, Writes, Creates, Drops, Uncreates, Undrops, Reverts, Trims, Cuts, FreesOlder, MakesDead, Unlinks, UnlinksOlder, FreesEntry};
ghost use Rattle.ctr_passed.specs.Logged.{RecordPasses, IsBlankPage, LaysSlot, LaysOlder};

/// A Format leaves its page blank, and it stays blank behind each record that isn't on it.
pub fn a_formatted_page_is_blank()
    ensures made { (s : State) (x p : ℕ) (h : Header) → IsWholePage p s → IsBlankPage p h (step (format_record x p h) s) }
    ensures stays { (s : State) (r : Record) (p : ℕ) (h : Header) → touches r p ≡ false → IsBlankPage p h s → IsBlankPage p h (step r s) }
{}

/// What a Link of a blank page lays passes, and so does that page, where it and the next one are counted; so does what an
/// Unlink lays, where the next page is counted.
pub fn chains_pass_their_checks()
    ensures links { (s : State) (x p e b next : ℕ) → IsDatabaseState s → IsWholePage (1 + e / 16) s → e < 32 → b < 8
        → 3 ≤ p → p < s.counted → next < s.counted → IsBlankPage p (rows_header e b next) s
        → RecordPasses (Links p e b) (link_record x p e b) s }
    ensures links_older { (s : State) (x p e next : ℕ) → IsDatabaseState s → IsWholePage (1 + e / 16) s → e < 32
        → 3 ≤ p → p < s.counted → next < s.counted → IsBlankPage p (versions_header e next) s
        → RecordPasses (LinksOlder p e) (link_older_record x p e) s }
    ensures unlinks { (s : State) (p next e b : ℕ) → IsDatabaseState s → IsWholePage (1 + e / 16) s → e < 32 → b < 8 → next < s.counted
        → RecordPasses (Unlinks p e b) (unlink_record p next e b) s }
    ensures unlinks_older { (s : State) (p next e : ℕ) → IsDatabaseState s → IsWholePage (1 + e / 16) s → e < 32 → next < s.counted
        → RecordPasses (UnlinksOlder p e) (unlink_older_record p next e) s }
{}

/// What the records of a table lay passes: a new entry; a state of one that isn't free, or a free one; who drops it, whoever
/// it is.
pub fn tables_pass_their_checks()
    ensures creates { (s : State) (x e : ℕ) (name : List ℕ) (columns : List Column) (left : Area) → IsWholePage (1 + e / 16) s → e < 32
        → x < 256 ^ 8 → IsName name → ColumnsFit columns → RecordPasses (Creates e name columns left) (create_record x e name columns) s }
    ensures uncreates { (s : State) (e : ℕ) → IsDatabaseState s → IsWholePage (1 + e / 16) s → e < 32 → ((area_in s).title e).state ≢ 0
        → RecordPasses (Uncreates e) (uncreate_record e) s }
    ensures drops { (s : State) (x e : ℕ) → IsDatabaseState s → IsWholePage (1 + e / 16) s → e < 32 → RecordPasses (Drops e) (drop_record x e) s }
    ensures undrops { (s : State) (e : ℕ) → IsDatabaseState s → IsWholePage (1 + e / 16) s → e < 32 → RecordPasses (Undrops e) (undrop_record e) s }
    ensures makes_dead { (s : State) (r : Record) (passes : ℕ → Bool) (e : ℕ) → IsDatabaseState s → IsWholePage (1 + e / 16) s → e < 32
        → ((area_in s).title e).state ≢ 0 → Lays r (laid_in_entry e 0 (2 ∷ [])) → RecordPasses (MakesDead passes e) r s }
    ensures frees { (s : State) (r : Record) (e : ℕ) (title : Title) (left : Area) → IsDatabaseState s → IsWholePage (1 + e / 16) s → e < 32
        → Lays r (laid_in_entry e 0 (0 ∷ [])) → RecordPasses (FreesEntry e title left) r s }
{}

/// A slot that a record lays over a place of its table passes where it is one of the table's, whatever writes it.
pub fn slots_pass_their_checks()
    ensures writes { (s : State) (r : Record) (m : RowMove) (slot : RowSlot) → LaysSlot r m.entry m.at slot s → RecordPasses (Writes m) r s }
    ensures reverts { (s : State) (r : Record) (e : ℕ) (at : Place) (way : Reverting) (slot : RowSlot) → LaysSlot r e at slot s
        → RecordPasses (Reverts e at way) r s }
    ensures trims { (s : State) (r : Record) (passes : ℕ → Bool) (e : ℕ) (at : Place) (way : Trimming) (slot : RowSlot) → LaysSlot r e at slot s
        → RecordPasses (Trims passes e at way) r s }
{}

/// A version entry that a record lays over a place of its table, likewise.
pub fn versions_pass_their_checks()
    ensures keeps { (s : State) (r : Record) (e : ℕ) (at : Place) (older : Older) (entry : VersionEntry) → LaysOlder r e at entry s
        → RecordPasses (Keeps e at older) r s }
    ensures cuts { (s : State) (r : Record) (passes : ℕ → Bool) (e : ℕ) (at q : Place) (entry : VersionEntry) → LaysOlder r e q entry s
        → RecordPasses (Cuts passes e at q) r s }
    ensures frees { (s : State) (r : Record) (e : ℕ) (q : Place) (entry : VersionEntry) → LaysOlder r e q entry s
        → RecordPasses (FreesOlder e q) r s }
{}
