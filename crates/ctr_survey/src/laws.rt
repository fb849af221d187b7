// Who is seen. A call does nothing: what it ensures is the law.
ghost use Rattle.std.specs.Prelude.{◌≡◌, None, ℕ};
ghost use Rattle.ctr_meta.specs.Tables.{Tables};
ghost use Rattle.ctr_meta.specs.Seen.{xid_is_seen};
ghost use Rattle.ctr_area.specs.Images.{is_committed_in};
ghost use Rattle.ctr_survey.specs.Standing.{snapshot_of};

/// Nobody's snapshot of a moment, with the open transactions listed, sees all that is committed then, and nothing else.
pub(crate) fn a_snapshot_of_now_sees_what_is_committed()
    ensures { (tables : Tables) (x : ℕ) → xid_is_seen tables (snapshot_of tables) None x ≡ is_committed_in tables x }
{}
