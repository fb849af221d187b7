// The table of the records: the number of each, its fields, and the flag of its overlay.
ghost use Rattle.std.specs.Prelude.{◌≡◌, ◌≤◌, ◌↔◌, IfSome, IsSome};
ghost use Rattle.ctr_rec.specs.Table.{bytes_of_field, most, layout};

/// A field of a record.
#[derive(Clone, Copy, Debug, PartialEq, Eq)]
pub enum Field {
    /// No field, of no bytes.
    Nothing,
    /// An entry of the catalog, one byte.
    Entry,
    /// A page, 4 bytes.
    Page,
    /// A transaction, 8 bytes.
    Xid,
}

impl Field {
    /// How many bytes it has.
    pub fn width(self) -> usize
        ensures { result ≡ bytes_of_field self }
    {
        match self {
            Field::Nothing => 0,
            Field::Entry => 1,
            Field::Page => 4,
            Field::Xid => 8,
        }
    }

    /// The greatest number that may stand in it.
    pub fn most(self) -> u64
        ensures { result ≡ most self }
    {
        match self {
            Field::Nothing => 0,
            Field::Entry => 31,
            Field::Page => 29_999,
            Field::Xid => u64::MAX,
        }
    }
}

/// A row of the table.
#[derive(Clone, Copy, Debug, PartialEq, Eq)]
pub struct Layout {
    /// The byte with which the record begins.
    pub number: u8,
    pub first: Field,
    pub second: Field,
    /// 0 no overlay, 1 an overlay, 2 an overlay of a page that is cleared first.
    pub flag: u8,
}

/// Which record it is.
#[derive(Clone, Copy, Debug, PartialEq, Eq)]
pub enum Tag {
    Begin,
    Commit,
    Abort,
    Forget,
    Alloc,
    Format,
    Link,
    Free,
    Unlink,
    Create,
    Uncreate,
    Drop,
    Undrop,
    Row,
    Keep,
    Revert,
    Trim,
}

fn row(number: u8, first: Field, second: Field, flag: u8) -> Layout
    ensures { result ≡ record { number = number; first = first; second = second; flag = flag } }
{
    Layout {
        number,
        first,
        second,
        flag,
    }
}

impl Tag {
    /// The table.
    pub fn layout(self) -> Layout
        ensures { result ≡ layout self }
    {
        match self {
            Tag::Begin => row(2, Field::Xid, Field::Nothing, 0),
            Tag::Commit => row(3, Field::Xid, Field::Nothing, 0),
            Tag::Abort => row(4, Field::Xid, Field::Nothing, 0),
            Tag::Forget => row(5, Field::Xid, Field::Nothing, 0),
            Tag::Alloc => row(6, Field::Xid, Field::Page, 1),
            Tag::Format => row(7, Field::Xid, Field::Page, 2),
            Tag::Link => row(8, Field::Xid, Field::Page, 1),
            Tag::Free => row(9, Field::Page, Field::Nothing, 1),
            Tag::Unlink => row(10, Field::Page, Field::Nothing, 1),
            Tag::Create => row(11, Field::Xid, Field::Entry, 1),
            Tag::Uncreate => row(12, Field::Entry, Field::Nothing, 1),
            Tag::Drop => row(13, Field::Xid, Field::Entry, 1),
            Tag::Undrop => row(14, Field::Entry, Field::Nothing, 1),
            Tag::Row => row(15, Field::Xid, Field::Xid, 1),
            Tag::Keep => row(16, Field::Xid, Field::Nothing, 1),
            Tag::Revert => row(17, Field::Xid, Field::Nothing, 1),
            Tag::Trim => row(18, Field::Nothing, Field::Nothing, 1),
        }
    }

    /// The record that begins with this byte.
    pub fn numbered(number: u8) -> Option<Tag>
        ensures found { IfSome result (λ tag. (layout tag).number ≡ number) }
        ensures some { IsSome result ↔ ((2 ≤ number) × (number ≤ 18)) }
    {
        match number {
            2 => Some(Tag::Begin),
            3 => Some(Tag::Commit),
            4 => Some(Tag::Abort),
            5 => Some(Tag::Forget),
            6 => Some(Tag::Alloc),
            7 => Some(Tag::Format),
            8 => Some(Tag::Link),
            9 => Some(Tag::Free),
            10 => Some(Tag::Unlink),
            11 => Some(Tag::Create),
            12 => Some(Tag::Uncreate),
            13 => Some(Tag::Drop),
            14 => Some(Tag::Undrop),
            15 => Some(Tag::Row),
            16 => Some(Tag::Keep),
            17 => Some(Tag::Revert),
            18 => Some(Tag::Trim),
            _ => None,
        }
    }
}
