// What searches of the pages of a chain have found, of all the area.
ghost use Rattle.std.specs.Prelude.{◌≡◌, ◌≤◌, ℕ, ℤ, true, false, List, Ok, None, Some};
ghost use Rattle.std.specs.List.{AllByRecursion};
ghost use Rattle.ctr_page.specs.declared.rows.Place.{Place};
ghost use Rattle.ctr_page.specs.Searching.{IsFirst};
ghost use Rattle.ctr_passed.specs.area_Areas.{Area};
ghost use Rattle.ctr_passed.specs.area_Chains.{pages_bound, pages_from, places_from, bucket_first};
ghost use Rattle.ctr_passed.specs.area_Sound.{IsAmong, IsUsedSlot, AreReadable, AreKeyed};
ghost use Rattle.ctr_heap.specs.declared.slots.SlotSought.TheVariants.{Key, Free};
ghost use Rattle.ctr_page.specs.Walking.{most_in_chain};
ghost use Rattle.ctr_passed.specs.area_Reading.{area_of};
ghost use Rattle.ctr_heap.specs.Slots.{seeks_in};
ghost use Rattle.ctr_heap.specs.Finding.{bucket_sought};
ghost use Rattle.ctr_page.specs.declared.checks.Chain.TheVariants.{Rows};
ghost use Rattle.ctr_walk.specs.Tables.{first_of_chain};
ghost use Rattle.ctr_page.specs.Places.{bucket_of};
ghost use Rattle.ctr_walk.specs.Along.{EndsAlong};

/// The slot of a key of a table is looked for in the chain of the key's bucket alone.
pub fn a_key_is_in_its_bucket()
    // One that is found on a page of it is a used slot of the table, and of the key.
    ensures found { (area : Area) (e p n : ℕ) (key : ℤ) → IsAmong p (pages_from pages_bound area.header (bucket_first area e key))
        → IsFirst (seeks_in area p (Key key)) 0 (area.room p) (Some n)
        → IsUsedSlot area e (record { page = p; slot = n }) × ((area.slot (record { page = p; slot = n })).key ≡ key) }
    // Where none is found on any, no used slot of the table has the key, if the area is sound.
    ensures absent { (area : Area) (e : ℕ) (key : ℤ) → AreReadable area → AreKeyed area
        → AllByRecursion (λ p. IsFirst (seeks_in area p (Key key)) 0 (area.room p) None) (pages_from pages_bound area.header (bucket_first area e key))
        → (at : Place) → IsUsedSlot area e at → (area.slot at).key ≡ key → ⊥ }
{}

/// The search for a key along the chain of its bucket, which ends without damage, over pages whose chains are those of
/// their tables.
pub fn a_search_tells_the_key()
    // A slot that it has found is a used one of the table, and of the key.
    ensures found { (pages : ℕ → List ℕ) (e counted last : ℕ) (key : ℤ) (at : Place) → AreReadable (area_of pages) → counted ≤ pages_bound
        → EndsAlong (bucket_sought pages counted e (bucket_of key) (Key key)) pages (most_in_chain counted) last (bucket_first (area_of pages) e key) (Ok (Some at))
        → IsUsedSlot (area_of pages) e at × (((area_of pages).slot at).key ≡ key) }
    // Where it has found none, no used slot of the table has the key, if each is in its bucket.
    ensures absent { (pages : ℕ → List ℕ) (e counted last : ℕ) (key : ℤ) → AreReadable (area_of pages) → AreKeyed (area_of pages) → counted ≤ pages_bound
        → EndsAlong (bucket_sought pages counted e (bucket_of key) (Key key)) pages (most_in_chain counted) last (bucket_first (area_of pages) e key) (Ok None)
        → (at : Place) → IsUsedSlot (area_of pages) e at → ((area_of pages).slot at).key ≡ key → ⊥ }
{}

/// The search for a free slot along the chain of a bucket, which ends without damage, over such pages.
pub fn a_search_tells_a_free_slot()
    // What it has found stands on a page of the chain, and isn't used.
    ensures found { (pages : ℕ → List ℕ) (e bucket counted last : ℕ) (at : Place) → AreReadable (area_of pages) → counted ≤ pages_bound
        → EndsAlong (bucket_sought pages counted e bucket Free) pages (most_in_chain counted) last (first_of_chain (area_of pages) (Rows e bucket)) (Ok (Some at))
        → IsAmong at (places_from (area_of pages) (first_of_chain (area_of pages) (Rows e bucket))) × (((area_of pages).slot at).used ≡ false) }
    // Where it has found none, all slots on the pages of the chain are used.
    ensures none { (pages : ℕ → List ℕ) (e bucket counted last : ℕ) → AreReadable (area_of pages) → counted ≤ pages_bound
        → EndsAlong (bucket_sought pages counted e bucket Free) pages (most_in_chain counted) last (first_of_chain (area_of pages) (Rows e bucket)) (Ok None)
        → (at : Place) → IsAmong at (places_from (area_of pages) (first_of_chain (area_of pages) (Rows e bucket))) → ((area_of pages).slot at).used ≡ true }
{}
