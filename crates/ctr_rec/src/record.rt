// The records of the log, and the parts that all of them have.
ghost use Rattle.std.specs.Prelude.{◌≡◌};
ghost use Rattle.std.specs.Prelude.{◌≤◌, ◌≢◌};
ghost use Rattle.ctr_rec.specs.Table.{layout, most};
ghost use Rattle.ctr_rec.specs.Parts.{plain, laid, form_of, PartsFit};
ghost use Rattle.ctr_rec.specs.declared.record.Form.TheVariants.{Fields};

use crate::{Bytes, Tag};
use ctr_types::Xid;

/// The number of a page.
pub type PageNo = u32;

/// Bytes that are laid over a page.
#[derive(Debug, Drop)]
pub struct Overlay<'a> {
    pub page: PageNo,
    /// The page is cleared to zeros first.
    pub clear: bool,
    pub offset: u16,
    pub bytes: Bytes<'a>,
}

/// A record of the log. `x` is a transaction, `p` a page, `e` an entry of the catalog.
#[derive(Debug, Drop)]
pub enum Record<'a> {
    /// The next transaction, and the three lists as they are spelled.
    Checkpoint {
        next: Xid,
        lists: Bytes<'a>,
    },
    /// A transaction is open from here on.
    Begin {
        x: Xid,
    },
    /// It is committed.
    Commit {
        x: Xid,
    },
    /// It is rolled back; its versions are undone later.
    Abort {
        x: Xid,
    },
    /// None of its versions is a head any more.
    Forget {
        x: Xid,
    },
    /// A page is allocated.
    Alloc {
        x: Xid,
        p: PageNo,
        overlay: Overlay<'a>,
    },
    /// It is made empty.
    Format {
        x: Xid,
        p: PageNo,
        overlay: Overlay<'a>,
    },
    /// A chain of pages leads to it.
    Link {
        x: Xid,
        p: PageNo,
        overlay: Overlay<'a>,
    },
    /// A page is free again.
    Free {
        p: PageNo,
        overlay: Overlay<'a>,
    },
    /// No chain leads to it any more.
    Unlink {
        p: PageNo,
        overlay: Overlay<'a>,
    },
    /// An entry of the catalog is a table's.
    Create {
        x: Xid,
        e: u8,
        overlay: Overlay<'a>,
    },
    /// It is dead.
    Uncreate {
        e: u8,
        overlay: Overlay<'a>,
    },
    /// A table is dropped.
    Drop {
        x: Xid,
        e: u8,
        overlay: Overlay<'a>,
    },
    /// It isn't any more.
    Undrop {
        e: u8,
        overlay: Overlay<'a>,
    },
    /// A version of a row; `over` is the transaction whose version it replaces, or 0.
    Row {
        x: Xid,
        over: Xid,
        overlay: Overlay<'a>,
    },
    /// An older version is kept.
    Keep {
        x: Xid,
        overlay: Overlay<'a>,
    },
    /// A rolled back version is taken from its row.
    Revert {
        x: Xid,
        overlay: Overlay<'a>,
    },
    /// What nobody sees any more is cut.
    Trim {
        overlay: Overlay<'a>,
    },
}

/// What a record but a Checkpoint has: a tag, two fields of which some are 0 and have no bytes, and maybe
/// an overlay.
#[derive(Debug, Drop)]
pub struct Parts<'a> {
    pub tag: Tag,
    pub first: u64,
    pub second: u64,
    pub overlay: Option<Overlay<'a>>,
}

/// An item of the secondary log: a page that a transaction allocated, a page to be freed, an entry of the
/// catalog that a transaction made, and one that it dropped.
#[derive(Clone, Copy, Debug, PartialEq, Eq)]
pub enum SlogItem {
    AllocOf(Xid, PageNo),
    FreeOf(PageNo),
    CreateOf(Xid, u8),
    DropOf(Xid, u8),
}

/// A record, by how it is spelled.
#[derive(Debug, Drop)]
pub enum Form<'a> {
    /// A Checkpoint.
    Lists { next: Xid, lists: Bytes<'a> },
    /// A record of a row of the table.
    Fields(Parts<'a>),
}

fn again<'a>(overlay: &'a Overlay) -> Overlay<'a>
    ensures { result ≡ overlay.now }
{
    Overlay {
        page: overlay.page,
        clear: overlay.clear,
        offset: overlay.offset,
        bytes: Bytes::new(overlay.bytes.as_slice()),
    }
}

fn plain<'a>(tag: Tag, first: u64) -> Form<'a>
    ensures { result ≡ plain tag first }
{
    Form::Fields(Parts {
        tag,
        first,
        second: 0,
        overlay: None,
    })
}

fn laid<'a>(tag: Tag, first: u64, second: u64, overlay: &'a Overlay) -> Form<'a>
    ensures { result ≡ laid tag first second overlay.now }
{
    Form::Fields(Parts {
        tag,
        first,
        second,
        overlay: Some(again(overlay)),
    })
}

/// How a record is spelled.
pub fn to_form<'a>(rec: &'a Record) -> Form<'a>
    ensures { result ≡ form_of rec.now }
{
    match rec {
        Record::Checkpoint { next, lists } => Form::Lists {
            next: *next,
            lists: Bytes::new(lists.as_slice()),
        },
        Record::Begin { x } => plain(Tag::Begin, *x),
        Record::Commit { x } => plain(Tag::Commit, *x),
        Record::Abort { x } => plain(Tag::Abort, *x),
        Record::Forget { x } => plain(Tag::Forget, *x),
        Record::Alloc { x, p, overlay } => laid(Tag::Alloc, *x, *p as u64, overlay),
        Record::Format { x, p, overlay } => laid(Tag::Format, *x, *p as u64, overlay),
        Record::Link { x, p, overlay } => laid(Tag::Link, *x, *p as u64, overlay),
        Record::Free { p, overlay } => laid(Tag::Free, *p as u64, 0, overlay),
        Record::Unlink { p, overlay } => laid(Tag::Unlink, *p as u64, 0, overlay),
        Record::Create { x, e, overlay } => laid(Tag::Create, *x, *e as u64, overlay),
        Record::Uncreate { e, overlay } => laid(Tag::Uncreate, *e as u64, 0, overlay),
        Record::Drop { x, e, overlay } => laid(Tag::Drop, *x, *e as u64, overlay),
        Record::Undrop { e, overlay } => laid(Tag::Undrop, *e as u64, 0, overlay),
        Record::Row { x, over, overlay } => laid(Tag::Row, *x, *over, overlay),
        Record::Keep { x, overlay } => laid(Tag::Keep, *x, 0, overlay),
        Record::Revert { x, overlay } => laid(Tag::Revert, *x, 0, overlay),
        Record::Trim { overlay } => laid(Tag::Trim, 0, 0, overlay),
    }
}

fn unlaid<'a>(tag: Tag, first: u64) -> Record<'a>
    requires { (layout tag).flag ≡ 0 }
    ensures { form_of result ≡ plain tag first }
{
    let x = first;
    match tag {
        Tag::Begin => Record::Begin { x },
        Tag::Commit => Record::Commit { x },
        Tag::Abort => Record::Abort { x },
        Tag::Forget => Record::Forget { x },
        _ => unreachable!(),
    }
}

fn overlaid<'a>(tag: Tag, first: u64, second: u64, overlay: Overlay<'a>) -> Record<'a>
    requires laid { (layout tag).flag ≢ 0 }
    requires first { first ≤ most (layout tag).first }
    requires second { second ≤ most (layout tag).second }
    ensures { form_of result ≡ laid tag first second overlay.entry }
{
    match tag {
        Tag::Alloc => Record::Alloc {
            x: first,
            p: second as u32,
            overlay,
        },
        Tag::Format => Record::Format {
            x: first,
            p: second as u32,
            overlay,
        },
        Tag::Link => Record::Link {
            x: first,
            p: second as u32,
            overlay,
        },
        Tag::Free => Record::Free {
            p: first as u32,
            overlay,
        },
        Tag::Unlink => Record::Unlink {
            p: first as u32,
            overlay,
        },
        Tag::Create => Record::Create {
            x: first,
            e: second as u8,
            overlay,
        },
        Tag::Uncreate => Record::Uncreate {
            e: first as u8,
            overlay,
        },
        Tag::Drop => Record::Drop {
            x: first,
            e: second as u8,
            overlay,
        },
        Tag::Undrop => Record::Undrop {
            e: first as u8,
            overlay,
        },
        Tag::Row => Record::Row {
            x: first,
            over: second,
            overlay,
        },
        Tag::Keep => Record::Keep { x: first, overlay },
        Tag::Revert => Record::Revert { x: first, overlay },
        Tag::Trim => Record::Trim { overlay },
        _ => unreachable!(),
    }
}

/// The record that has these parts.
pub fn record_of<'a>(parts: Parts<'a>) -> Record<'a>
    requires { PartsFit parts }
    ensures { form_of result ≡ Fields parts.entry }
{
    let Parts {
        tag,
        first,
        second,
        overlay,
    } = parts;
    match overlay {
        None => unlaid(tag, first),
        Some(overlay) => overlaid(tag, first, second, overlay),
    }
}
