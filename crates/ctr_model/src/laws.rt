// Laws of the model. A call does nothing: what it ensures is the law.
ghost use Rattle.ctr_model.specs.Laws.{RepliesAreDetermined, LegalStatesAreSound, SnapshotsStay, StatesGrow, OnlyAskingChangesRows, UnaskedLeavesNoTrace, RollbacksLeaveNoTrace};

/// Two legal tapes of one script and one start, with the same acts in the same order and none of the
/// three replies that may stand for another, have the same replies.
pub fn replies_are_determined()
    ensures { RepliesAreDetermined }
{}

/// On each legal tape commits are answered after they were asked, and each transaction's snapshot is
/// of commits that were answered.
pub fn legal_states_are_sound()
    ensures { LegalStatesAreSound }
{}

/// While other sessions act, ask and are answered, what a session sees stays.
pub fn snapshots_stay()
    ensures { SnapshotsStay }
{}

/// The base stays for good, and what was asked stays before what is asked later.
pub fn states_grow()
    ensures { StatesGrow }
{}

/// The rows at every number change by no reply but Asked: an entry with another reply leaves them as
/// they were. And a session that asks for no commit in a stretch of a tape leaves no trace there, while
/// others may act, ask and be answered: what was asked are the others' changes alone, and the rows at
/// every number, and the others' transactions, are as their entries alone leave them. Which replies the
/// others got is not spoken of: they may have been refused for the session's locks.
pub fn only_asking_changes_rows()
    ensures entry { OnlyAskingChangesRows }
    ensures stretch { UnaskedLeavesNoTrace }
{}

/// A session that asks for no commit in a stretch of a tape, and whose last entry there is a rollback,
/// leaves no trace there, in the same sense, and is in no transaction after it. So a transaction that
/// is rolled back leaves none, from its BEGIN to its ROLLBACK and for as long after it as the session
/// does nothing more.
pub fn rollbacks_leave_no_trace()
    ensures { RollbacksLeaveNoTrace }
{}
