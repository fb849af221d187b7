// Writing a Checkpoint of its members.
ghost use Rattle.std.specs.Prelude.{◌≡◌, ◌++◌, ℕ, List, OnOk, IfOk};
ghost use Rattle.std.specs.List.{flat_map, AllByRecursion};
ghost use Rattle.ctr_rec.specs.declared.record.SlogItem.{SlogItem as Item};
ghost use Rattle.ctr_bytes.specs.Fields.{spelled};
ghost use Rattle.ctr_rec.specs.declared.record.Record.TheVariants.{Checkpoint};
ghost use Rattle.ctr_rec.specs.Spelling.{checkpoint_bytes};
ghost use Rattle.ctr_rec.specs.Members.{item_kind, item_xid, item_number, pair_bytes, slog_item_bytes, lists_bytes, MembersFit, XidFits, AreListed};
ghost use Rattle.ctr_rec.specs.Records.{IsRecord};

use crate::SlogItem;
use ctr_bytes::{put_u8, put_u32, put_u64};
use ctr_types::{OutOfMemory, Xid};
use std::alloc::Global;

fn push(into: &mut Vec<u8>, bytes: &[u8]) -> Result<(), OutOfMemory>
    ensures { OnOk result (into.new.items ≡ into.old.items ++ bytes.now) }
{
    into.extend_from_slice(bytes)?;
    Ok(())
}

fn push_u8(into: &mut Vec<u8>, number: u8) -> Result<(), OutOfMemory>
    ensures { OnOk result (into.new.items ≡ into.old.items ++ spelled 1 number) }
{
    let mut field = [0; 1];
    put_u8(&mut field, 0, number);
    push(into, &field)
}

fn push_u32(into: &mut Vec<u8>, number: u32) -> Result<(), OutOfMemory>
    ensures { OnOk result (into.new.items ≡ into.old.items ++ spelled 4 number) }
{
    let mut field = [0; 4];
    put_u32(&mut field, 0, number);
    push(into, &field)
}

fn push_u64(into: &mut Vec<u8>, number: u64) -> Result<(), OutOfMemory>
    ensures { OnOk result (into.new.items ≡ into.old.items ++ spelled 8 number) }
{
    let mut field = [0; 8];
    put_u64(&mut field, 0, number);
    push(into, &field)
}

fn push_pair(into: &mut Vec<u8>, pair: (Xid, u64)) -> Result<(), OutOfMemory>
    ensures { OnOk result (into.new.items ≡ into.old.items ++ pair_bytes pair) }
{
    push_u64(into, pair.0)?;
    push_u64(into, pair.1)
}

fn push_pairs(into: &mut Vec<u8>, pairs: &[(Xid, u64)]) -> Result<(), OutOfMemory>
    ensures { OnOk result (into.new.items ≡ into.old.items ++ flat_map pair_bytes pairs.now) }
{
    for pair in pairs {
        push_pair(into, *pair)?;
    }
    Ok(())
}

impl SlogItem {
    fn kind(self) -> u8
        ensures { result ≡ item_kind self }
    {
        match self {
            SlogItem::AllocOf(_, _) => 1,
            SlogItem::FreeOf(_) => 2,
            SlogItem::CreateOf(_, _) => 3,
            SlogItem::DropOf(_, _) => 4,
        }
    }

    fn xid(self) -> Xid
        ensures { result ≡ item_xid self }
    {
        match self {
            SlogItem::AllocOf(x, _) => x,
            SlogItem::FreeOf(_) => 0,
            SlogItem::CreateOf(x, _) => x,
            SlogItem::DropOf(x, _) => x,
        }
    }

    fn number(self) -> u32
        ensures { result ≡ item_number self }
    {
        match self {
            SlogItem::AllocOf(_, p) => p,
            SlogItem::FreeOf(p) => p,
            SlogItem::CreateOf(_, e) => e as u32,
            SlogItem::DropOf(_, e) => e as u32,
        }
    }
}

fn push_item(into: &mut Vec<u8>, item: SlogItem) -> Result<(), OutOfMemory>
    ensures { OnOk result (into.new.items ≡ into.old.items ++ slog_item_bytes item) }
{
    push_u8(into, item.kind())?;
    push_u64(into, item.xid())?;
    push_u32(into, item.number())
}

fn push_items(into: &mut Vec<u8>, items: &[SlogItem]) -> Result<(), OutOfMemory>
    ensures { OnOk result (into.new.items ≡ into.old.items ++ flat_map slog_item_bytes items.now) }
{
    for item in items {
        push_item(into, *item)?;
    }
    Ok(())
}

fn push_lists(
    into: &mut Vec<u8>,
    opens: &[(Xid, u64)],
    aborted: &[(Xid, u64)],
    items: &[SlogItem],
) -> Result<(), OutOfMemory>
    ensures { OnOk result (into.new.items ≡ into.old.items ++ lists_bytes opens.now aborted.now items.now) }
{
    push_u64(into, opens.len() as u64)?;
    push_pairs(into, opens)?;
    push_u64(into, aborted.len() as u64)?;
    push_pairs(into, aborted)?;
    push_u64(into, items.len() as u64)?;
    push_items(into, items)
}

/// The bytes of the Checkpoint of these members: the next transaction, those that are open and those in
/// the aborted transaction map, each with its heads, and the items of the secondary log, each list in the
/// order in which its members were added.
pub fn encode_checkpoint(
    alloc: Global,
    next: Xid,
    opens: &[(Xid, u64)],
    aborted: &[(Xid, u64)],
    items: &[SlogItem],
) -> Result<Vec<u8>, OutOfMemory>
    requires { MembersFit next opens.now aborted.now items.now }
    // They are those of a record, which so is read again.
    ensures record { IfOk result (λ bytes. IsRecord (Checkpoint next (lists_bytes opens.now aborted.now items.now))) }
    ensures bytes { IfOk result (λ bytes. bytes.items ≡ checkpoint_bytes next (lists_bytes opens.now aborted.now items.now)) }
{
    let mut bytes = Vec::new(alloc);
    push_u8(&mut bytes, 1)?;
    push_u64(&mut bytes, next)?;
    push_lists(&mut bytes, opens, aborted, items)?;
    push_u8(&mut bytes, 0)?;
    Ok(bytes)
}

/// The members of which lists are made stand in them, so that one list of bytes has one list of members.
pub fn one_list()
    ensures { (next : ℕ) (opens aborted : List (ℕ × ℕ)) (items : List Item) → MembersFit next opens aborted items → AllByRecursion XidFits items → AreListed opens aborted items (lists_bytes opens aborted items) }
{}
