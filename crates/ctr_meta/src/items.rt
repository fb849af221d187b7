// Items of the secondary log.
ghost use Rattle.std.specs.Prelude.{◌≡◌, ◌≤◌, ◌<◌, ◌+◌, ◌++◌, List, [], ◌∷◌, None, IfSome, not, filter, count_by, vec_len, vec_capacity};
ghost use Rattle.std.specs.List.{list_any, AllByRecursion};
ghost use Rattle.ctr_rec.specs.declared.record.SlogItem.{SlogItem as Item};
ghost use Rattle.ctr_rec.specs.Members.{ItemFits};
ghost use Rattle.ctr_meta.specs.Items.{is_alloc_by, is_schema_by, is_item_by, is_wanted, left_out};

use ctr_rec::{PageNo, SlogItem, Xid};

/// Which item a record speaks of.
#[derive(Clone, Copy, Debug, PartialEq, Eq)]
pub enum Wanted {
    /// The page that a transaction allocated.
    Allocation(Xid, PageNo),
    /// Any item of a page.
    OfPage(PageNo),
    /// The making of an entry of the catalog.
    Creation(u8),
    /// The dropping of one.
    Dropping(u8),
}

fn is_alloc_by(x: Xid, item: SlogItem) -> bool
    ensures { result ≡ is_alloc_by x item }
{
    match item {
        SlogItem::AllocOf(y, _) => y == x,
        SlogItem::FreeOf(_) => false,
        SlogItem::CreateOf(_, _) => false,
        SlogItem::DropOf(_, _) => false,
    }
}

fn is_schema_by(x: Xid, item: SlogItem) -> bool
    ensures { result ≡ is_schema_by x item }
{
    match item {
        SlogItem::AllocOf(_, _) => false,
        SlogItem::FreeOf(_) => false,
        SlogItem::CreateOf(y, _) => y == x,
        SlogItem::DropOf(y, _) => y == x,
    }
}

fn is_item_by(x: Xid, item: SlogItem) -> bool
    ensures { result ≡ is_item_by x item }
{
    is_alloc_by(x, item) || is_schema_by(x, item)
}

impl Wanted {
    fn is(self, item: SlogItem) -> bool
        ensures { result ≡ is_wanted self item }
    {
        match (self, item) {
            (Wanted::Allocation(x, p), SlogItem::AllocOf(y, q)) => y == x && q == p,
            (Wanted::OfPage(p), SlogItem::AllocOf(_, q)) => q == p,
            (Wanted::OfPage(p), SlogItem::FreeOf(q)) => q == p,
            (Wanted::Creation(e), SlogItem::CreateOf(_, f)) => f == e,
            (Wanted::Dropping(e), SlogItem::DropOf(_, f)) => f == e,
            _ => false,
        }
    }
}

/// How many pages a transaction allocated that no chain leads to.
pub fn allocs_by(x: Xid, items: &[SlogItem]) -> usize
    ensures { result ≡ count_by (is_alloc_by x) items.now }
{
    items.iter().filter(|i| is_alloc_by(x, **i)).count()
}

/// How many items a transaction has.
pub fn items_by(x: Xid, items: &[SlogItem]) -> usize
    ensures { result ≡ count_by (is_item_by x) items.now }
{
    items.iter().filter(|i| is_item_by(x, **i)).count()
}

/// The latest item of a transaction, if it has any: they are looked at once, from the last on.
pub fn latest_by(x: Xid, items: &[SlogItem]) -> Option<SlogItem>
    ensures latest { IfSome result (λ i. (earlier : List Item) × (filter (is_item_by x) items.now ≡ earlier ++ i ∷ [])) }
    ensures none { result ≡ None → filter (is_item_by x) items.now ≡ [] }
    ensures fits { AllByRecursion ItemFits items.now → IfSome result ItemFits }
{
    let count = items.len();
    for back in 0..count {
        let item = items[count - 1 - back];
        if is_item_by(x, item) {
            return Some(item);
        }
    }
    None
}

/// Whether an item that is wanted is there.
pub fn has_wanted(wanted: Wanted, items: &[SlogItem]) -> bool
    ensures { result ≡ list_any (is_wanted wanted) items.now }
{
    items.iter().any(|i| wanted.is(*i))
}

/// Takes the earliest item out that is wanted.
pub fn take_out(wanted: Wanted, items: &mut Vec<SlogItem>)
    ensures items { items.new.items ≡ left_out wanted items.old.items }
    ensures shorter { vec_len items.new ≤ vec_len items.old }
    ensures capacity { vec_capacity items.new ≡ vec_capacity items.old }
{
    for at in 0..items.len() {
        if wanted.is(items[at]) {
            items.remove(at);
            return;
        }
    }
}

/// Takes the entries of the catalog out that a transaction made or dropped.
pub fn settle(x: Xid, items: &mut Vec<SlogItem>)
    ensures items { items.new.items ≡ filter (λ i. not (is_schema_by x i)) items.old.items }
    ensures shorter { vec_len items.new ≤ vec_len items.old }
    ensures capacity { vec_capacity items.new ≡ vec_capacity items.old }
{
    items.retain(|i| !is_schema_by(x, *i));
}
