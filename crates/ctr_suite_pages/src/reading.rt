// Steps as they are written.
use crate::steps::{OutsideStep, PageStep, RowStep, Step, TableStep, TurnStep, VersionStep};
use crate::verbs::{
    OutsideVerb, PageVerb, PlaceVerb, RowVerb, RuleVerb, TableVerb, TurnVerb, Verb, VersionVerb,
    verb_of,
};
use crate::versions::{NewEntry, NewSlot};
use crate::words::{place, version};
use crate::writes::NewRow;
use ctr_suite::Words;
use ctr_types::Kind;

fn turn_step(verb: TurnVerb, words: &mut Words) -> TurnStep {
    match verb {
        TurnVerb::Begin => TurnStep::Begin,
        TurnVerb::Commit => TurnStep::Commit,
        TurnVerb::Abort => TurnStep::Abort,
        TurnVerb::Heads => TurnStep::Heads { x: words.value() },
        TurnVerb::Snap => TurnStep::Snap {
            number: words.value(),
        },
    }
}

fn page_step(verb: PageVerb, words: &mut Words) -> PageStep {
    match verb {
        PageVerb::Take => PageStep::Take {
            count: words.value(),
        },
        PageVerb::Free => PageStep::Free {
            page: words.value(),
        },
        PageVerb::Grow => PageStep::Grow {
            count: words.value(),
        },
        PageVerb::Format => PageStep::Format {
            page: words.value(),
            entry: words.value(),
            bucket: words.value(),
            next: words.value(),
        },
        PageVerb::Link => PageStep::Link {
            page: words.value(),
            entry: words.value(),
            bucket: words.value(),
        },
    }
}

// The kinds of columns by their numbers: 0 an INT, else a text of so many bytes.
fn kinds(words: &mut Words) -> [Option<Kind>; 7] {
    let mut kinds = [None; 7];
    for kind in &mut kinds {
        if words.has_more() {
            *kind = Some(match words.value() {
                0 => Kind::Int,
                most => Kind::Chars(most),
            });
        }
    }
    kinds
}

fn table_step<'a>(verb: TableVerb, words: &mut Words<'a>) -> TableStep<'a> {
    match verb {
        TableVerb::Create => TableStep::Create {
            name: words.word(),
            kinds: kinds(words),
        },
        TableVerb::Drop => TableStep::Drop {
            entry: words.value(),
        },
        TableVerb::Undo => TableStep::Undo,
        TableVerb::Name => TableStep::Name {
            name: words.word(),
            own: true,
        },
        TableVerb::Others => TableStep::Name {
            name: words.word(),
            own: false,
        },
        TableVerb::Changed => TableStep::Changed {
            entry: words.value(),
            name: words.word(),
        },
        TableVerb::First => TableStep::First {
            entry: words.value(),
            bucket: if words.has_more() {
                Some(words.value())
            } else {
                None
            },
        },
    }
}

fn row_step(verb: RowVerb, words: &mut Words) -> RowStep {
    match verb {
        RowVerb::Put => RowStep::Put {
            entry: words.value(),
            width: words.value(),
            key: words.value(),
        },
        RowVerb::Fill => RowStep::Fill {
            entry: words.value(),
            width: words.value(),
            from: words.value(),
            count: words.value(),
        },
        RowVerb::Find => RowStep::Find {
            entry: words.value(),
            key: words.value(),
        },
        RowVerb::Seek => RowStep::Seek {
            entry: words.value(),
            from: words.value(),
            count: words.value(),
        },
        RowVerb::Room => RowStep::Room {
            entry: words.value(),
            bucket: words.value(),
        },
    }
}

// A row that is deleted, by its table, its width and its key.
fn row(words: &mut Words) -> NewRow {
    NewRow {
        entry: words.value(),
        width: words.value(),
        key: words.value(),
        says: None,
    }
}

// Rows that are written and read by the rules of versions.
fn ruled_step(verb: RuleVerb, words: &mut Words) -> RowStep {
    match verb {
        RuleVerb::Write => RowStep::Write(row(words).saying(words.value())),
        RuleVerb::Delete => RowStep::Write(row(words)),
        RuleVerb::Each => RowStep::Each {
            row: row(words),
            count: words.value(),
        },
        RuleVerb::Read => RowStep::Read {
            place: place(words),
            number: words.value(),
            own: false,
        },
        RuleVerb::Mine => RowStep::Read {
            place: place(words),
            number: words.value(),
            own: true,
        },
        RuleVerb::Newest => RowStep::Newest {
            place: place(words),
        },
    }
}

fn new_slot(words: &mut Words) -> NewSlot {
    NewSlot {
        place: place(words),
        width: words.value(),
        key: words.value(),
        says: words.value(),
        previous: version(words),
        older: place(words),
    }
}

fn new_entry(words: &mut Words) -> NewEntry {
    NewEntry {
        place: place(words),
        width: words.value(),
        key: words.value(),
        version: version(words),
        older: place(words),
    }
}

fn version_step(verb: VersionVerb, words: &mut Words) -> VersionStep {
    match verb {
        VersionVerb::Versions => VersionStep::Versions {
            entry: words.value(),
        },
        VersionVerb::Spare => VersionStep::Spare {
            entry: words.value(),
        },
        VersionVerb::Row => VersionStep::Row(new_slot(words)),
        VersionVerb::Keep => VersionStep::Keep(new_entry(words)),
    }
}

// A step on what stands at a place.
fn place_step(verb: PlaceVerb, words: &mut Words) -> VersionStep {
    match verb {
        PlaceVerb::Trim => VersionStep::Trim {
            place: place(words),
        },
        PlaceVerb::Revert => VersionStep::Revert {
            place: place(words),
        },
        PlaceVerb::Slot => VersionStep::Slot {
            place: place(words),
            width: words.value(),
        },
        PlaceVerb::Entry => VersionStep::Entry {
            place: place(words),
        },
        PlaceVerb::Lent => VersionStep::Lent {
            place: place(words),
        },
    }
}

fn outside_step(verb: OutsideVerb, words: &mut Words) -> OutsideStep {
    match verb {
        OutsideVerb::Alter => OutsideStep::Alter {
            page: words.value(),
            at: words.value(),
            byte: words.value(),
            count: words.value_or(1),
        },
        OutsideVerb::Count => OutsideStep::Count {
            pages: words.value(),
        },
        OutsideVerb::Cost => OutsideStep::Cost {
            place: place(words),
            number: words.value(),
        },
    }
}

// The step of a verb and of the words behind it.
fn step_by<'a>(verb: Verb, words: &mut Words<'a>) -> Step<'a> {
    match verb {
        Verb::Turn(verb) => Step::Turn(turn_step(verb, words)),
        Verb::Page(verb) => Step::Page(page_step(verb, words)),
        Verb::Table(verb) => Step::Table(table_step(verb, words)),
        Verb::Row(verb) => Step::Row(row_step(verb, words)),
        Verb::Rule(verb) => Step::Row(ruled_step(verb, words)),
        Verb::Version(verb) => Step::Version(version_step(verb, words)),
        Verb::Place(verb) => Step::Version(place_step(verb, words)),
        Verb::Outside(verb) => Step::Outside(outside_step(verb, words)),
    }
}

/// The step that a text says. There is none where a word is missing, isn't what it has to be, or stands behind the last one.
pub fn step_of(text: &[u8]) -> Option<Step> {
    let mut words = Words::new(text);
    let verb = verb_of(words.word())?;
    let step = step_by(verb, &mut words);
    if words.are_right() { Some(step) } else { None }
}
