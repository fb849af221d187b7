// What is left of undo.
ghost use Rattle.std.specs.Prelude.{◌≡◌, length, IfOk, IfSome};
ghost use Rattle.ctr_area.specs.Images.{undo_size};
ghost use Rattle.ctr_area.specs.Sound.{xids_in};
ghost use Rattle.ctr_undo.specs.declared.list.UndoItem.{UndoItem};
ghost use Rattle.ctr_undo.specs.Left.{UndoLeft, left_in, IsUndoOver, Goes, IsNextLeft, ItemsFit, NextFits};

use ctr_meta::Meta;
use ctr_rec::SlogItem;
use ctr_types::{OutOfMemory, Xid};
use std::alloc::Global;
use std::marker::Model;

/// What a turn of undo undoes.
#[derive(Clone, Copy, Debug, PartialEq, Eq)]
pub enum UndoItem {
    /// An item of the secondary log.
    Slog(SlogItem),
    /// A transaction that a stop left open: it is marked as aborted.
    Orphan(Xid),
}

/// What is left of undo: the items of the secondary log that a stop left, of which the latest is undone next; and, behind them, the
/// transactions that it left open, in the order in which they began.
#[derive(Drop)]
pub struct UndoList {
    /// In the order of the secondary log.
    items: Vec<SlogItem>,
    /// The latest first.
    orphans: Vec<Xid>,
}

impl Model for UndoList {
    ghost use Rattle.std.specs.Prelude.{reverse};
    ghost use Rattle.ctr_undo.specs.Left.{UndoLeft, ItemsFit};

    ghost Value = { UndoLeft };

    ghost view = { λ u. record { items = u.items.items; orphans = reverse u.orphans.items } };

    ghost invariant = { λ u. ItemsFit u.items.items };
}

impl UndoList {
    /// All undo of a store that was opened, by its tables: each item of the secondary log, and each open transaction.
    pub fn of(alloc: Global, meta: &Meta) -> Result<UndoList, OutOfMemory>
        ensures is { IfOk result (λ u. (u.items ≡ meta.now.tables.items) × (u.orphans ≡ xids_in meta.now.tables.opens)) }
        // It is as long as the undo of the start.
        ensures size { IfOk result (λ u. left_in u ≡ undo_size meta.now.tables) }
    {
        let mut items = Vec::new(alloc);
        items.extend_from_slice(meta.items())?;
        let mut orphans = meta.open_xids(alloc)?;
        orphans.reverse();
        Ok(UndoList { items, orphans })
    }

    /// How many items and transactions are left.
    pub fn len(&self) -> usize
        ensures { result ≡ left_in self.now }
    {
        self.items.len() + self.orphans.len()
    }

    /// How many items are left.
    pub fn items_left(&self) -> usize
        ensures { result ≡ length self.now.items }
    {
        self.items.len()
    }

    /// The items that are left, in the order of the secondary log.
    pub(crate) fn items(&self) -> &[SlogItem]
        ensures value { result.now ≡ self.now.items }
        ensures fit { ItemsFit result.now }
    {
        &self.items
    }

    /// What is undone next, or none where nothing is left.
    pub fn next(&self) -> Option<UndoItem>
        ensures next { IsNextLeft self.now result }
        // An item is of a page or of an entry of the catalog that there may be.
        ensures fits { IfSome result NextFits }
    {
        match self.items.split_last() {
            Some((item, _)) => Some(UndoItem::Slog(*item)),
            None => match self.orphans.split_last() {
                Some((x, _)) => Some(UndoItem::Orphan(*x)),
                None => None,
            },
        }
    }

    /// What was next is gone.
    pub(crate) fn go_on(&mut self)
        ensures { (item : UndoItem) (left : UndoLeft) → Goes item self.old left → self.new ≡ left }
    {
        if self.items.pop().is_none() {
            self.orphans.pop();
        }
    }
}
