// What an engine shows. A call does nothing: what it ensures is the law.
ghost use Rattle.ctr_versions.specs.Laws.{SessionsSeeTheirViews, RowsStandAtEachNumber, NewerSchemasAreChanged, NewerRowsAreChanged, GrantsAreShown};
ghost use Rattle.ctr_versions.specs.Undoing.{NamesGiveWay, UndoneHeadsGo, UndoneHeadsChange, OrphansAreMarked, UnnamedTablesLoseRows};

/// What a session sees in the versions is the view that the model gives it.
pub fn sessions_see_their_views()
    ensures { SessionsSeeTheirViews }
{}

/// The versions have the rows of the model at each commit number from the low one on.
pub fn rows_stand_at_each_number()
    ensures { RowsStandAtEachNumber }
{}

/// What is granted to a transaction that draws no number with it changes nothing in the engine.
pub fn grants_are_shown()
    ensures { GrantsAreShown }
{}

/// The newest committed version is newer than a snapshot exactly where the model says that the table, or
/// the row, was changed since, and it is of the same commit.
pub fn first_committer_wins()
    ensures schemas { NewerSchemasAreChanged }
    ensures rows { NewerRowsAreChanged }
{}

/// What undo and the cleaner do record by record leaves the state that is shown: a name's chain gives way to
/// one that shows the same; a head that is undone goes, or is another version of its transaction; an open
/// transaction that no session has is marked as rolled back; a table that no name is loses rows.
pub fn single_records_are_shown()
    ensures chains { NamesGiveWay }
    ensures heads { UndoneHeadsGo }
    ensures changes { UndoneHeadsChange }
    ensures orphans { OrphansAreMarked }
    ensures rows { UnnamedTablesLoseRows }
{}
