// The steps of a case. Each of their calls is of one crate.
use crate::versions::{NewEntry, NewSlot};
use crate::writes::NewRow;
use ctr_page::Place;
use ctr_types::Kind;

/// A step.
#[derive(Clone, Copy)]
pub enum Step<'a> {
    Turn(TurnStep),
    Page(PageStep),
    Table(TableStep<'a>),
    Row(RowStep),
    Version(VersionStep),
    Outside(OutsideStep),
}

/// Transactions and snapshots.
#[derive(Clone, Copy)]
pub enum TurnStep {
    /// A Begin of the next transaction, whose the records behind it are.
    Begin,
    Commit,
    /// The transaction is rolled back.
    Abort,
    /// How many heads a transaction has.
    Heads { x: u64 },
    /// A snapshot is taken, under a number.
    Snap { number: usize },
}

/// Whole pages.
#[derive(Clone, Copy)]
pub enum PageStep {
    /// `next_free`, and `alloc` of the page, so many times.
    Take {
        count: u64,
    },
    /// `free`.
    Free {
        page: u32,
    },
    /// `grow_extent`, so many times.
    Grow {
        count: u64,
    },
    /// `format` of a page of rows.
    Format {
        page: u32,
        entry: u8,
        bucket: u8,
        next: u32,
    },
    /// `link`.
    Link {
        page: u32,
        entry: u8,
        bucket: u8,
    },
}

/// Entries of the catalog.
#[derive(Clone, Copy)]
pub enum TableStep<'a> {
    /// `create` of a table of an INT, and of columns of these kinds.
    Create {
        name: &'a [u8],
        kinds: [Option<Kind>; 7],
    },
    /// `drop_table`.
    Drop {
        entry: u8,
    },
    /// `undo_item` of the last item.
    Undo,
    /// `find` of a name by the snapshot 0, as the transaction or as none.
    Name {
        name: &'a [u8],
        own: bool,
    },
    /// `changed`.
    Changed {
        entry: u8,
        name: &'a [u8],
    },
    /// `first_page` of a bucket's chain, or of that of the versions.
    First {
        entry: u8,
        bucket: Option<u8>,
    },
}

/// Rows by their keys.
#[derive(Clone, Copy)]
pub enum RowStep {
    /// A row of a key and zeros: `find`; else `free_slot`; else a page more; then `put_slot`.
    Put {
        entry: u8,
        width: usize,
        key: i64,
    },
    /// So many rows, from a key on.
    Fill {
        entry: u8,
        width: usize,
        from: i64,
        count: u64,
    },
    /// `find`.
    Find {
        entry: u8,
        key: i64,
    },
    /// How many of so many keys are found, from one on.
    Seek {
        entry: u8,
        from: i64,
        count: u64,
    },
    /// `free_slot`.
    Room {
        entry: u8,
        bucket: u8,
    },
    /// A row is written by the rules of versions.
    Write(NewRow),
    /// The same, by so many transactions, each of which commits.
    Each {
        row: NewRow,
        count: u64,
    },
    /// `visible` by a snapshot, as the transaction or as none.
    Read {
        place: Place,
        number: usize,
        own: bool,
    },
    /// `newest`.
    Newest {
        place: Place,
    },
}

/// Versions, in slots and off them.
#[derive(Clone, Copy)]
pub enum VersionStep {
    /// A page more for the versions of a table.
    Versions { entry: u8 },
    /// A search for a version entry that isn't used.
    Spare { entry: u8 },
    /// `put_slot` of a row.
    Row(NewSlot),
    /// `keep`.
    Keep(NewEntry),
    /// A version entry is free again.
    Trim { place: Place },
    /// `revert_row`.
    Revert { place: Place },
    /// What stands in a slot.
    Slot { place: Place, width: usize },
    /// `version`.
    Entry { place: Place },
    /// `row`.
    Lent { place: Place },
}

/// What is done while the database isn't open. It is opened again behind that.
#[derive(Clone, Copy)]
pub enum OutsideStep {
    /// So many bytes from one of a page on are this one, in both homes.
    Alter {
        page: u32,
        at: u16,
        byte: u8,
        count: u16,
    },
    /// So many pages are counted.
    Count {
        pages: u32,
    },
    /// How many pages a read by a snapshot takes from the disk, in a store that is opened for it.
    Cost {
        place: Place,
        number: usize,
    },
}

impl<'a> Step<'a> {
    /// Whether it is done while the database isn't open.
    pub fn is_outside(self) -> bool {
        matches!(self, Step::Outside(_))
    }
}
