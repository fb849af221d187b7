// The verbs of steps, by what they are on. A word is looked up once, and so each match on verbs is on an enum: on words it takes
// three times as long to prove.
use ctr_suite::named;

/// A step's verb.
#[derive(Clone, Copy)]
pub enum Verb {
    Turn(TurnVerb),
    Page(PageVerb),
    Table(TableVerb),
    Row(RowVerb),
    Rule(RuleVerb),
    Version(VersionVerb),
    Place(PlaceVerb),
    Outside(OutsideVerb),
}

#[derive(Clone, Copy)]
pub enum TurnVerb {
    Begin,
    Commit,
    Abort,
    Heads,
    Snap,
}

#[derive(Clone, Copy)]
pub enum PageVerb {
    Take,
    Free,
    Grow,
    Format,
    Link,
}

#[derive(Clone, Copy)]
pub enum TableVerb {
    Create,
    Drop,
    Undo,
    Name,
    Others,
    Changed,
    First,
}

#[derive(Clone, Copy)]
pub enum RowVerb {
    Put,
    Fill,
    Find,
    Seek,
    Room,
}

/// On rows by the rules of versions.
#[derive(Clone, Copy)]
pub enum RuleVerb {
    Write,
    Delete,
    Each,
    Read,
    Mine,
    Newest,
}

#[derive(Clone, Copy)]
pub enum VersionVerb {
    Versions,
    Spare,
    Row,
    Keep,
}

/// On what stands at a place.
#[derive(Clone, Copy)]
pub enum PlaceVerb {
    Trim,
    Revert,
    Slot,
    Entry,
    Lent,
}

#[derive(Clone, Copy)]
pub enum OutsideVerb {
    Alter,
    Count,
    Cost,
}

const VERBS: &[(&str, Verb)] = &[
    ("begin", Verb::Turn(TurnVerb::Begin)),
    ("commit", Verb::Turn(TurnVerb::Commit)),
    ("abort", Verb::Turn(TurnVerb::Abort)),
    ("heads", Verb::Turn(TurnVerb::Heads)),
    ("snap", Verb::Turn(TurnVerb::Snap)),
    ("take", Verb::Page(PageVerb::Take)),
    ("free", Verb::Page(PageVerb::Free)),
    ("grow", Verb::Page(PageVerb::Grow)),
    ("format", Verb::Page(PageVerb::Format)),
    ("link", Verb::Page(PageVerb::Link)),
    ("create", Verb::Table(TableVerb::Create)),
    ("drop", Verb::Table(TableVerb::Drop)),
    ("undo", Verb::Table(TableVerb::Undo)),
    ("name", Verb::Table(TableVerb::Name)),
    ("others", Verb::Table(TableVerb::Others)),
    ("changed", Verb::Table(TableVerb::Changed)),
    ("first", Verb::Table(TableVerb::First)),
    ("put", Verb::Row(RowVerb::Put)),
    ("fill", Verb::Row(RowVerb::Fill)),
    ("find", Verb::Row(RowVerb::Find)),
    ("seek", Verb::Row(RowVerb::Seek)),
    ("room", Verb::Row(RowVerb::Room)),
    ("write", Verb::Rule(RuleVerb::Write)),
    ("delete", Verb::Rule(RuleVerb::Delete)),
    ("each", Verb::Rule(RuleVerb::Each)),
    ("read", Verb::Rule(RuleVerb::Read)),
    ("mine", Verb::Rule(RuleVerb::Mine)),
    ("newest", Verb::Rule(RuleVerb::Newest)),
    ("versions", Verb::Version(VersionVerb::Versions)),
    ("spare", Verb::Version(VersionVerb::Spare)),
    ("row", Verb::Version(VersionVerb::Row)),
    ("keep", Verb::Version(VersionVerb::Keep)),
    ("trim", Verb::Place(PlaceVerb::Trim)),
    ("revert", Verb::Place(PlaceVerb::Revert)),
    ("slot", Verb::Place(PlaceVerb::Slot)),
    ("entry", Verb::Place(PlaceVerb::Entry)),
    ("lent", Verb::Place(PlaceVerb::Lent)),
    ("alter", Verb::Outside(OutsideVerb::Alter)),
    ("count", Verb::Outside(OutsideVerb::Count)),
    ("cost", Verb::Outside(OutsideVerb::Cost)),
];

/// The verb that a word is.
pub fn verb_of(word: &[u8]) -> Option<Verb> {
    named(VERBS, word)
}
