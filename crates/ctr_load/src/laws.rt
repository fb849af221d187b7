// What holds of every generated script. A call does nothing: what it ensures is the law.
ghost use Rattle.ctr_load.specs.Whole.{TransactionsAreWhole, SessionsAreThese, LinesAreSpelled, LinesAreFew};

/// In a generated script each session's statements are whole transactions, one behind another: from BEGIN to the next
/// COMMIT or ROLLBACK, and nothing outside.
pub fn generated_transactions_are_whole()
    ensures { TransactionsAreWhole }
{}

/// A generated script's lines are of its sessions, and of the language; and how many there are, so that a caller can take
/// room.
pub fn generated_lines_are_of_the_language()
    ensures sessions { SessionsAreThese }
    ensures spelled { LinesAreSpelled }
    ensures few { LinesAreFew }
{}
