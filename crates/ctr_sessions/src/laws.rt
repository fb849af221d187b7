// What an engine answers. A call does nothing: what it ensures is the law.
ghost use Rattle.ctr_sessions.specs.Laws.{RefusalsAreTheModels, RowsAreTheViews, WritesAreRefusedAlike, WritesAreOneChange, LocksKeepKeys, HoldsKeepNames, ChangedTablesAreAlone};
ghost use Rattle.ctr_sessions.specs.Steps.{BeginShows, LockShows, ReadShows, RowShows, NameShows, RoomShows, AskShows, AnswerShows, EndShows, RollbackShows};
ghost use Rattle.ctr_sessions.specs.Views.{ViewsStay, DrawsSeeAlike};
ghost use Rattle.ctr_sessions.specs.Cleaning.{FreeRowsAreNobodys, FreeNamesAreNobodys};

/// A Lock and a Read are refused exactly where the model refuses them, for the same cause, by what the
/// session sees, the newest committed versions, and the locks.
pub fn refusals_are_the_models()
    ensures { RefusalsAreTheModels }
{}

/// A Read gives the rows of the session's view.
pub fn rows_are_the_views()
    ensures { RowsAreTheViews }
{}

/// A Write of a row is refused exactly where the model refuses it, and else its row is the model's change.
pub fn writes_are_the_models()
    ensures refused { WritesAreRefusedAlike }
    ensures change { WritesAreOneChange }
{}

/// What the laws of writes and of a commit want of the locks stands wherever a legal tape leads.
pub fn locks_keep_others_off()
    ensures keys { LocksKeepKeys }
    ensures names { HoldsKeepNames }
    ensures tables { ChangedTablesAreAlone }
{}

/// A session that begins, that is granted a Lock or that reads: the engine with the numbers of its snapshots
/// shows the state with the session's transaction so.
pub fn locks_and_reads_show()
    ensures begin { BeginShows }
    ensures lock { LockShows }
    ensures read { ReadShows }
{}

/// A write that leaves the rows of the next state shows that state, and room that is taken shows the old one.
pub fn writes_show()
    ensures row { RowShows }
    ensures name { NameShows }
    ensures room { RoomShows }
{}

/// A transaction's end shows the state without it: a commit asked for and answered, one that wrote nothing,
/// a rollback.
pub fn ends_show()
    ensures ask { AskShows }
    ensures answer { AnswerShows }
    ensures end { EndShows }
    ensures rollback { RollbackShows }
{}

/// What no session has locked or holds has no version of a session that is at work, so that the cleaner may
/// take its open head away.
pub fn what_is_free_is_nobodys()
    ensures rows { FreeRowsAreNobodys }
    ensures names { FreeNamesAreNobodys }
{}

/// Whatever a session does but write, each other session in a transaction sees the versions that it saw; and so does
/// a session that draws its number.
pub fn views_stay()
    ensures others { ViewsStay }
    ensures own { DrawsSeeAlike }
{}
