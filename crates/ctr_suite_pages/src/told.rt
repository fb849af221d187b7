// What a step answers, in words.
use ctr_disk::StoreFault;
use ctr_page::Place;
use ctr_types::{Damage, File};
use std::alloc::{AllocError, Global};
use std::fmt;

/// A version: whose it is, and its first byte.
#[derive(Clone, Copy)]
pub struct Seen {
    pub x: u64,
    pub says: u8,
}

/// What a step answers.
#[derive(Clone, Copy)]
pub enum Told {
    Done,
    /// What it needs to be called isn't there.
    NotAsked,
    /// The files were refused.
    NotOpened,
    Number(u64),
    /// How many of so many.
    Of(u64, u64),
    Grow,
    Full,
    CatalogFull,
    At(Place),
    /// A place, where a version was kept at another before.
    Keeps {
        at: Place,
        kept: Place,
    },
    /// A value of a row.
    Value(i64),
    NoMemory,
    None,
    /// A slot or a version entry isn't used.
    Unused,
    /// What stands in one.
    Row {
        key: i64,
        head: Seen,
        previous: Option<Seen>,
        older: Place,
    },
    Fault(StoreFault),
}

impl fmt::Display for Seen {
    fn fmt<W: fmt::Write>(&self, f: &mut fmt::Formatter<W>) -> fmt::Result {
        write!(f, "{}={}", self.x, self.says)
    }
}

// A place, as it is printed.
#[derive(Clone, Copy)]
struct At(Place);

impl fmt::Display for At {
    fn fmt<W: fmt::Write>(&self, f: &mut fmt::Formatter<W>) -> fmt::Result {
        write!(f, "{}.{}", self.0.page, self.0.slot)
    }
}

impl Told {
    // What says no number.
    fn word(self) -> &'static str {
        match self {
            Told::Done => "done",
            Told::NotAsked => "not asked",
            Told::NotOpened => "not opened",
            Told::Grow => "grow",
            Told::Full => "full",
            Told::CatalogFull => "catalog full",
            Told::NoMemory => "no memory",
            Told::None => "none",
            Told::Unused => "unused",
            _ => "",
        }
    }

    /// It in words.
    pub fn text(self, alloc: Global) -> Result<String, AllocError> {
        match self {
            Told::Number(n) => format!(in alloc; "{n}"),
            Told::Of(some, all) => format!(in alloc; "{some} of {all}"),
            Told::At(place) => format!(in alloc; "{}", At(place)),
            Told::Keeps { at, kept } => format!(in alloc; "{} keeps {}", At(at), At(kept)),
            Told::Value(value) => format!(in alloc; "{value}"),
            Told::Row {
                key,
                head,
                previous,
                older,
            } => row_text(alloc, key, head, previous, older),
            Told::Fault(fault) => fault_text(alloc, fault),
            _ => format!(in alloc; "{}", self.word()),
        }
    }
}

// A row, or a version off it.
fn row_text(
    alloc: Global,
    key: i64,
    head: Seen,
    previous: Option<Seen>,
    older: Place,
) -> Result<String, AllocError> {
    let older = At(older);
    match previous {
        None => format!(in alloc; "{key} is {head} then {older}"),
        Some(before) => format!(in alloc; "{key} is {head} before {before} then {older}"),
    }
}

// A fault, or the damage of a page by its place in the file.
fn fault_text(alloc: Global, fault: StoreFault) -> Result<String, AllocError> {
    match fault {
        StoreFault::Fault => format!(in alloc; "fault"),
        StoreFault::Damaged(
            Damage {
                file: File::Pages,
                at,
                want,
                got,
            },
        ) => format!(in alloc; "damage at {at} wants {want} has {got}"),
        StoreFault::Damaged(Damage { want, got, .. }) => {
            format!(in alloc; "damage wants {want} has {got}")
        }
    }
}
