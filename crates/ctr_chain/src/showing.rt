// What is read of a used slot is what its row's chain shows.
ghost use Rattle.std.specs.Prelude.{◌≡◌, ℕ, Bool, Option, false, is_some};
ghost use Rattle.std.specs.Option.{option_and_then, option_map_or};
ghost use Rattle.ctr_snap.specs.Seeing.{SnapshotTaken};
ghost use Rattle.ctr_versions.specs.Chains.{Numbers, value_seen, newest, newest_since};
ghost use Rattle.ctr_versions.specs.Engine.{AreBy, IsSeenIfOld, SessionHeld, session_sees};
ghost use Rattle.ctr_versions.specs.Xids.{Xids, IsSnapshotOf, number_of};
ghost use Rattle.ctr_versions.specs.Versions.{rows_of};
ghost use Rattle.ctr_names.specs.meta_Seen.{xid_is_changed, xid_is_seen};
ghost use Rattle.ctr_names.specs.meta_Tables.{Tables};
ghost use Rattle.ctr_page.specs.declared.rows.Place.{Place};
ghost use Rattle.ctr_names.specs.area_Areas.{Area};
ghost use Rattle.ctr_names.specs.area_Chains.{chain_of};
ghost use Rattle.ctr_names.specs.area_Images.{is_committed_in, versions_in};
ghost use Rattle.ctr_names.specs.area_Sound.{IsSoundArea, IsUsedSlot};
ghost use Rattle.ctr_names.specs.record_laws_Bounds.{IsInBounds};
ghost use Rattle.ctr_names.specs.record_laws_Owed.{AgreeOnCommits};
ghost use Rattle.ctr_names.specs.Search.{IsOfTables, IsNumberOf};
ghost use Rattle.ctr_chain.specs.Seeing.{first_xid};
ghost use Rattle.ctr_chain.specs.Visible.{visible_row};

/// The row that is seen of a used slot is what the chain of its row shows, for whoever looks, and so to a session; and
/// whose its newest committed version is has the number of the newest one of that chain.
pub fn a_slot_is_read_as_its_row()
    ensures visible { (counted : ℕ) (tables : Tables) (area : Area) (test : ℕ → Bool) (e : ℕ) (at : Place) → IsSoundArea counted tables area → IsInBounds area → IsUsedSlot area e at
        → visible_row test area at ≡ value_seen test (rows_of (versions_in (is_committed_in tables) area) e (area.slot at).key) }
    ensures session { (counted : ℕ) (tables : Tables) (area : Area) (xids : Xids) (session : SessionHeld) (me : Option ℕ) (e : ℕ) (at : Place) → IsSoundArea counted tables area → IsInBounds area → IsUsedSlot area e at
        → IsOfTables tables xids → IsNumberOf session me → visible_row (xid_is_seen tables session.snapshot me) area at
        ≡ value_seen (session_sees xids session) (rows_of (versions_in (is_committed_in tables) area) e (area.slot at).key) }
    ensures newest { (counted : ℕ) (tables : Tables) (area : Area) (number : Numbers) (e : ℕ) (at : Place) → IsSoundArea counted tables area → IsInBounds area → IsUsedSlot area e at
        → AgreeOnCommits number tables → option_and_then number (first_xid (is_committed_in tables) (chain_of area.older (area.slot at)))
        ≡ newest number (rows_of (versions_in (is_committed_in tables) area) e (area.slot at).key) }
{}

/// Where the newest committed version of a used slot is by whom a snapshot, by the tables' own test, doesn't see, the
/// newest version of its row's chain is newer than the snapshot's number; and else it isn't, or there is none.
pub fn a_changed_row_is_told()
    ensures { (counted : ℕ) (tables : Tables) (area : Area) (xids : Xids) (snapshot : SnapshotTaken) (n e : ℕ) (at : Place) → IsSoundArea counted tables area → IsInBounds area → IsUsedSlot area e at
        → IsOfTables tables xids → IsSnapshotOf xids snapshot n → AreBy (IsSeenIfOld xids snapshot) (versions_in (is_committed_in tables) area)
        → option_map_or (xid_is_changed tables snapshot) (first_xid (is_committed_in tables) (chain_of area.older (area.slot at))) false
        ≡ is_some (newest_since (number_of xids) n (rows_of (versions_in (is_committed_in tables) area) e (area.slot at).key)) }
{}
