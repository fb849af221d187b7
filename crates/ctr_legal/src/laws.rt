// What legal tapes keep. A call does nothing: what it ensures is the law.
ghost use Rattle.ctr_legal.specs.Laws.{LegalTapesAreReached, LegalTapesGrow, WaitingAreAnswered, RepliesTell, NumbersAreOwn};

/// Wherever a legal tape leads, changes lie under locks, locks of two sessions are apart, names in use
/// are steady and not held by recovery, and each session is ready for its next act.
pub fn legal_tapes_are_reached()
    ensures { LegalTapesAreReached }
{}

/// A legal tape with an entry more that may come behind it is legal, and leads where that entry does.
pub fn legal_tapes_grow()
    ensures { LegalTapesGrow }
{}

/// Where commits were asked for and aren't answered, the first of them is a session's, and its answer is an
/// entry that may come: a flush answers all that it made durable, in their order.
pub fn waiting_are_answered()
    ensures { WaitingAreAnswered }
{}

/// What a reply tells of the state in which it was given; the other sessions are in the transactions that they
/// were in, and see the rows that they saw.
pub fn replies_tell()
    ensures { RepliesTell }
{}

/// A session that has asked for its commit waits with a number of its own, which isn't answered: so it waits no
/// more where all that were asked for are answered.
pub fn numbers_are_own()
    ensures { NumbersAreOwn }
{}
