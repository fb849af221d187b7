// What a Trim of an entry of the catalog does to the area. A call does nothing: what it ensures is the law.
ghost use Rattle.std.specs.Prelude.{◌≡◌, ◌≢◌, ◌<◌, ◌/◌, ◌+◌, ℕ, [], ◌∷◌};
ghost use Rattle.ctr_rec.specs.declared.record.Record.{Record};
ghost use Rattle.ctr_walk.specs.redo_States.{State, step};
ghost use Rattle.ctr_area.specs.Areas.{no_pages};
ghost use Rattle.ctr_area.specs.Changes.{with_title, ChangesEntry};
ghost use Rattle.ctr_record_effects.specs.States.{area_in, IsWholePage};
ghost use Rattle.ctr_record_effects.specs.Changing.{laid_in_entry, Lays};
ghost use Rattle.ctr_dead.specs.Titles.{freed_title, freed_area};

/// A record that lays the state 2 over an entry that isn't free: the table is dead, and nothing else changes. One that lays the state 0: the entry
/// is free and has no page, and nothing else changes.
pub fn a_trimmed_entry_changes_alone()
    ensures dead { (s : State) (r : Record) (e : ℕ) → IsWholePage (1 + e / 16) s → e < 32 → ((area_in s).title e).state ≢ 0 → Lays r (laid_in_entry e 0 (2 ∷ []))
        → area_in (step r s) ≡ with_title e (record ((area_in s).title e) { state = 2 }) (area_in s) }
    ensures freed { (s : State) (r : Record) (e : ℕ) → IsWholePage (1 + e / 16) s → e < 32 → Lays r (laid_in_entry e 0 (0 ∷ []))
        → area_in (step r s) ≡ freed_area (area_in s) e }
    // That is an entry that changes alone.
    ensures entry { (s : State) (e : ℕ) → ChangesEntry e (freed_title (area_in s) e) no_pages (area_in s) (freed_area (area_in s) e) }
{}
