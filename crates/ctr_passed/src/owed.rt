// Records in the catalog are laid as their actions, by what these owe.
ghost use Rattle.std.specs.Prelude.{◌+◌, ◌/◌, ◌∷◌, [], ℕ, Bool};
ghost use Rattle.ctr_passed.specs.Words.{Record, State, Place, RowSlot, VersionEntry, Older, IsLoose, OwedByKeep, RowMove, OwedByRow, Reverting, OwedByRevert, Trimming, OwedByTrim, OwedByCut, OwedByLink, OwedByOlderLink, OwedByUnlink, OwedByOlderUnlink, OwedByUncreate, OwedByUndrop, OwedByDrop, OwedByDying, area_in, IsWholePage, IsDatabaseState, link_record, link_older_record, unlink_record, unlink_older_record, uncreate_record, drop_record, undrop_record, laid_in_entry, Lays, Links, LinksOlder, Keeps, Writes, Drops, Uncreates, Undrops, Reverts, Trims, Cuts, FreesOlder, MakesDead, Unlinks, UnlinksOlder};
ghost use Rattle.ctr_passed.specs.Logged.{IsLaidAs, IsBlankPage, PutsSlot, PutsOlder};

use crate::checks::{
    chains_pass_their_checks, slots_pass_their_checks, tables_pass_their_checks,
    versions_pass_their_checks,
};
use crate::lying::{
    chains_lie_as_their_actions, slots_lie_as_their_actions, tables_lie_as_their_actions,
    versions_lie_as_their_actions,
};

/// In a state of a database what an action owes is enough for its record in an entry of the catalog to be laid as it, where
/// the entry's page is whole; and where a page that is linked is blank.
pub fn owed_records_are_laid_as_their_actions()
    ensures links { (s : State) (x p e b : ℕ) → IsDatabaseState s → OwedByLink s.tables (area_in s) x p e b → IsWholePage (1 + e / 16) s
        → IsBlankPage p ((area_in s).header p) s → IsLaidAs (Links p e b) (link_record x p e b) s }
    ensures links_older { (s : State) (x p e : ℕ) → IsDatabaseState s → OwedByOlderLink s.tables (area_in s) x p e → IsWholePage (1 + e / 16) s
        → IsBlankPage p ((area_in s).header p) s → IsLaidAs (LinksOlder p e) (link_older_record x p e) s }
    ensures unlinks { (s : State) (p e b : ℕ) → IsDatabaseState s → OwedByUnlink s.tables (area_in s) p e b → IsWholePage (1 + e / 16) s
        → IsLaidAs (Unlinks p e b) (unlink_record p ((area_in s).header p).next e b) s }
    ensures unlinks_older { (s : State) (p e : ℕ) → IsDatabaseState s → OwedByOlderUnlink (area_in s) p e → IsWholePage (1 + e / 16) s
        → IsLaidAs (UnlinksOlder p e) (unlink_older_record p ((area_in s).header p).next e) s }
    ensures uncreates { (s : State) (x e : ℕ) → IsDatabaseState s → OwedByUncreate s.tables x e → IsWholePage (1 + e / 16) s
        → IsLaidAs (Uncreates e) (uncreate_record e) s }
    ensures undrops { (s : State) (x e : ℕ) → IsDatabaseState s → OwedByUndrop s.tables x e → IsWholePage (1 + e / 16) s
        → IsLaidAs (Undrops e) (undrop_record e) s }
    ensures drops { (s : State) (x e : ℕ) → IsDatabaseState s → OwedByDrop s.tables (area_in s) x e → IsWholePage (1 + e / 16) s
        → IsLaidAs (Drops e) (drop_record x e) s }
    ensures makes_dead { (s : State) (r : Record) (passes : ℕ → Bool) (e : ℕ) → IsDatabaseState s → OwedByDying passes s.tables (area_in s) e
        → IsWholePage (1 + e / 16) s → Lays r (laid_in_entry e 0 (2 ∷ [])) → IsLaidAs (MakesDead passes e) r s }
{
    chains_lie_as_their_actions();
    chains_pass_their_checks();
    tables_lie_as_their_actions();
    tables_pass_their_checks();
}

/// And what an action owes of a slot is enough for its record to be laid as it, where the slot that it lays is well made.
pub fn owed_slots_are_laid_as_their_actions()
    ensures writes { (s : State) (r : Record) (m : RowMove) (slot : RowSlot) → IsDatabaseState s → OwedByRow s.tables (area_in s) m
        → PutsSlot r m.entry m.at slot s → IsLaidAs (Writes m) r s }
    ensures reverts { (s : State) (r : Record) (e : ℕ) (at : Place) (way : Reverting) (slot : RowSlot) → IsDatabaseState s
        → OwedByRevert s.tables (area_in s) e at way → PutsSlot r e at slot s → IsLaidAs (Reverts e at way) r s }
    ensures trims { (s : State) (r : Record) (passes : ℕ → Bool) (e : ℕ) (at : Place) (way : Trimming) (slot : RowSlot) → IsDatabaseState s
        → OwedByTrim passes s.tables (area_in s) e at way → PutsSlot r e at slot s → IsLaidAs (Trims passes e at way) r s }
{
    slots_lie_as_their_actions();
    slots_pass_their_checks();
}

/// And of a version entry, likewise.
pub fn owed_versions_are_laid_as_their_actions()
    ensures keeps { (s : State) (r : Record) (e : ℕ) (at : Place) (older : Older) (entry : VersionEntry) → IsDatabaseState s
        → OwedByKeep s.tables (area_in s) e at older → PutsOlder r e at entry s → IsLaidAs (Keeps e at older) r s }
    ensures cuts { (s : State) (r : Record) (passes : ℕ → Bool) (e : ℕ) (at q : Place) (entry : VersionEntry) → IsDatabaseState s
        → OwedByCut passes (area_in s) e at q → PutsOlder r e q entry s → IsLaidAs (Cuts passes e at q) r s }
    ensures frees { (s : State) (r : Record) (e : ℕ) (q : Place) (entry : VersionEntry) → IsDatabaseState s
        → IsLoose (area_in s) e q ((area_in s).older q) → PutsOlder r e q entry s → IsLaidAs (FreesOlder e q) r s }
{
    versions_lie_as_their_actions();
    versions_pass_their_checks();
}
