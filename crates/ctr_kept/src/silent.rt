// Turns of a session without a record.
ghost use Rattle.std.specs.Prelude.{◌≡◌, ◌≤◌, ℕ, true, List, None, Some};
ghost use Rattle.ctr_types.specs.declared.tape.Act.TheVariants as act;
ghost use Rattle.ctr_kept.specs.Words.{Act, Refusal, Reply, Rows, with_read, transaction_of, IsGranted, IsDrawnFor, Site, Fact, HoldsAll};
ghost use Rattle.ctr_types.specs.declared.tape.Reply.TheVariants as reply;
ghost use Rattle.ctr_kept.specs.Walk.{Mind, IsAtRollback};
ghost use Rattle.ctr_kept.specs.Turns.{Start, KeepsRun, InTransaction, Telling, MayCome, telling, carrying, Carries, granted_to, undoing_mind, gone_mind, begun_mind, point_now, state_now};

/// BEGIN: the session's snapshot is of the commits that are answered.
pub fn a_session_begins()
    ensures { (c : Start) (now s : ℕ) (site : Site) (w : Mind) (e : Telling c now s) → KeepsRun c now site w → transaction_of (state_now c w) s ≡ None
        → MayCome c w e act.Begin (reply.Began (state_now c w).answered)
        → KeepsRun c e.later site (telling e act.Begin (reply.Began (state_now c w).answered) w (begun_mind s site (state_now c w).answered w)) }
{}

/// A session that is in no transaction is refused: for want of one, or its BEGIN for want of memory.
pub fn a_refusal_outside_is_kept()
    ensures { (c : Start) (now s : ℕ) (site : Site) (w : Mind) (e : Telling c now s) (a : Act) (why : Refusal) → KeepsRun c now site w → transaction_of (state_now c w) s ≡ None
        → MayCome c w e a (reply.Refused why) → KeepsRun c e.later site (telling e a (reply.Refused why) w w) }
{}

/// A Lock is granted to a session that has its number; rows are read; an act is refused.
pub fn locks_and_reads_are_kept()
    ensures granted { (c : Start) (now s : ℕ) (site : Site) (w : Mind) (seat : InTransaction c w s) (e : Telling c now s) (mine : List Fact) → KeepsRun c now site w
        → MayCome c w e act.Lock reply.Granted → IsGranted seat.t (granted_to e seat.t) → HoldsAll seat.t (granted_to e seat.t)
        → IsDrawnFor seat.session (granted_to e seat.t)
        → Carries seat.session.me (granted_to e seat.t) mine site → KeepsRun c e.later site (telling e act.Lock reply.Granted w (carrying s mine w)) }
    ensures read { (c : Start) (now s : ℕ) (site : Site) (w : Mind) (seat : InTransaction c w s) (e : Telling c now s) (rows : Rows) (mine : List Fact)
        → KeepsRun c now site w
        → MayCome c w e act.Read (reply.Rows rows) → IsGranted seat.t (with_read (Some e.statement) seat.t)
        → HoldsAll seat.t (with_read (Some e.statement) seat.t)
        → IsDrawnFor seat.session (with_read (Some e.statement) seat.t) → Carries seat.session.me (with_read (Some e.statement) seat.t) mine site
        → KeepsRun c e.later site (telling e act.Read (reply.Rows rows) w (carrying s mine w)) }
    ensures refused { (c : Start) (now s : ℕ) (site : Site) (w : Mind) (seat : InTransaction c w s) (e : Telling c now s) (a : Act) (why : Refusal) (mine : List Fact)
        → KeepsRun c now site w
        → MayCome c w e a (reply.Refused why) → Carries seat.session.me seat.t mine site
        → KeepsRun c e.later site (telling e a (reply.Refused why) w (carrying s mine w)) }
{}

/// The transaction of a session without a number ends, at its COMMIT or its ROLLBACK.
pub fn a_reader_ends()
    ensures commit { (c : Start) (now s : ℕ) (site : Site) (w : Mind) (seat : InTransaction c w s) (e : Telling c now s) → KeepsRun c now site w
        → MayCome c w e act.Ask reply.ReadOnly → seat.session.me ≡ 0
        → KeepsRun c e.later site (telling e act.Ask reply.ReadOnly w (gone_mind s w)) }
    ensures rollback { (c : Start) (now s : ℕ) (site : Site) (w : Mind) (seat : InTransaction c w s) (e : Telling c now s) → KeepsRun c now site w
        → MayCome c w e act.Rollback reply.RolledBack → seat.session.me ≡ 0
        → KeepsRun c e.later site (telling e act.Rollback reply.RolledBack w (gone_mind s w)) }
{}

/// A ROLLBACK of several turns begins, of a session whose next statement is one, without an entry and without a record of its own: it is a part of the
/// turn that undoes the first item. From now on nothing is said of what the session sees.
pub fn a_rollback_begins()
    ensures { (c : Start) (now later s : ℕ) (site : Site) (w : Mind) (seat : InTransaction c w s) (mine : List Fact) → KeepsRun c now site w → now ≤ later
        → IsAtRollback c.lines (point_now c w) s → Carries seat.session.me seat.t mine site
        → KeepsRun c later site (undoing_mind s seat.session mine w) }
{}

/// The next act of a session that is within its rollback is that ROLLBACK, and it isn't refused.
pub fn who_rolls_back_is_at_its_rollback()
    ensures at { (c : Start) (now s : ℕ) (site : Site) (w : Mind) (seat : InTransaction c w s) → KeepsRun c now site w → seat.session.undoing ≡ true
        → IsAtRollback c.lines (point_now c w) s }
    ensures next { (c : Start) (now s : ℕ) (site : Site) (w : Mind) (seat : InTransaction c w s) (e : Telling c now s) (a : Act) (r : Reply) → KeepsRun c now site w
        → seat.session.undoing ≡ true → MayCome c w e a r → (a ≡ act.Rollback) × (r ≡ reply.RolledBack) }
{}
