// Reading the lists of a Checkpoint.
ghost use Rattle.std.specs.Prelude.{◌≡◌, ◌≤◌, ◌<◌, ◌+◌, ◌*◌, ◌^◌, [], length, vec_len, vec_capacity};
ghost use Rattle.ctr_rec.specs.bytes_Fields.{field};
ghost use Rattle.std.specs.List.{AllByRecursion};
ghost use Rattle.ctr_rec.specs.Members.{pairs_from, slog_item, items_from, ItemFits, HasMembers, items_listed};
ghost use Rattle.ctr_meta.specs.Kept.{EachOnce, XidsFit};
ghost use Rattle.ctr_meta.specs.Effects.{listed};
ghost use Rattle.ctr_meta.specs.Lists.{CountsMembers};

use crate::xids::Xids;
use ctr_rec::{SlogItem, Xid, get_u8, get_u32, get_u64};

/// How many members the lists have.
#[derive(Clone, Copy, Debug)]
pub struct Counts {
    pub opens: usize,
    pub aborted: usize,
    pub items: usize,
}

/// How many members lists have, which are those of members.
pub fn counts_in(next: Xid, lists: &[u8]) -> Counts
    requires { HasMembers next lists.now }
    ensures counts { CountsMembers lists.now result }
    ensures long { length lists.now ≡ 24 + 16 * (result.opens + result.aborted) + 13 * result.items }
    ensures small { length lists.now < 2 ^ 63 }
    ensures fit { AllByRecursion ItemFits (items_listed lists.now) }
    ensures xids { XidsFit (listed next lists.now) }
{
    let opens = get_u64(lists, 0) as usize;
    let aborted_at = 8 + 16 * opens;
    let aborted = get_u64(lists, aborted_at) as usize;
    let items_at = aborted_at + 8 + 16 * aborted;
    let items = get_u64(lists, items_at) as usize;
    Counts {
        opens,
        aborted,
        items,
    }
}

/// Reads so many transactions from a place on into a list that is empty.
pub fn read_pairs(into: &mut Xids, at: usize, count: usize, bytes: &[u8])
    requires inside { at + 16 * count ≤ length bytes.now }
    requires empty { into.old.entries ≡ [] }
    requires once { EachOnce (pairs_from at count bytes.now) }
    requires room { count ≤ into.old.spare }
    ensures read { into.new.entries ≡ pairs_from at count bytes.now }
    ensures spare { into.old.spare ≤ into.new.spare + count }
{
    for i in 0..count {
        let from = at + 16 * i;
        into.add(get_u64(bytes, from), get_u64(bytes, from + 8));
    }
}

#[tactic(auto, unfolding(ctr_rec::specs::Members::slog_item))]
fn read_item(at: usize, bytes: &[u8]) -> SlogItem
    requires inside { at + 13 ≤ length bytes.now }
    requires fits { ItemFits (slog_item (field 1 at bytes.now) (field 8 (at + 1) bytes.now) (field 4 (at + 9) bytes.now)) }
    ensures { result ≡ slog_item (field 1 at bytes.now) (field 8 (at + 1) bytes.now) (field 4 (at + 9) bytes.now) }
{
    let x = get_u64(bytes, at + 1);
    let number = get_u32(bytes, at + 9);
    match get_u8(bytes, at) {
        1 => SlogItem::AllocOf(x, number),
        2 => SlogItem::FreeOf(number),
        3 => SlogItem::CreateOf(x, number as u8),
        _ => SlogItem::DropOf(x, number as u8),
    }
}

/// Reads so many items from a place on into a list that is empty.
pub fn read_items(into: &mut Vec<SlogItem>, at: usize, count: usize, bytes: &[u8])
    requires inside { at + 13 * count ≤ length bytes.now }
    requires empty { into.old.items ≡ [] }
    requires fits { AllByRecursion ItemFits (items_from at count bytes.now) }
    requires room { vec_len into.old + count ≤ vec_capacity into.old }
    ensures read { into.new.items ≡ items_from at count bytes.now }
    ensures capacity { vec_capacity into.new ≡ vec_capacity into.old }
{
    for i in 0..count {
        into.push_reserved(read_item(at + 13 * i, bytes));
    }
}
