// One record lays a slot, makes a page empty, or puts one at the front of a chain.
ghost use Rattle.std.specs.Prelude.{◌≡◌, ◌≤◌, ◌<◌, ◌+◌, ◌/◌, ◌-◌, ◌^◌, IfSome, OnOk};
ghost use Rattle.ctr_walk.specs.base_growing_TheConstants.{MOST_PAGES};
ghost use Rattle.ctr_walk.specs.base_Base.{WhereSound};
ghost use Rattle.ctr_bytes.specs.Fields.{spelled};
ghost use Rattle.ctr_page.specs.Making.{IsHeader, header_bytes};
ghost use Rattle.ctr_passed.specs.area_Reading.{slot_said, columns_on};
ghost use Rattle.ctr_passed.specs.area_Changes.{with_slot};
ghost use Rattle.ctr_walk.specs.OneRecord.{HasRoomForOne, LogsOne};
ghost use Rattle.ctr_passed.specs.record_effects_States.{pages_in, area_in, IsWholePage};
ghost use Rattle.ctr_walk.specs.record_effects_Changing.{format_record};
ghost use Rattle.ctr_passed.specs.record_laws_Owed.{RowMove};
ghost use Rattle.ctr_passed.specs.actions_Sites.{site_of};
ghost use Rattle.ctr_passed.specs.actions_Actions.{Formats, Writes, site_after};
ghost use Rattle.ctr_heap.specs.Writing.{LiesOnPage, row_record, HasPlaceFor, LaysMove, front_place, front_record, front_action, HasTableParts};

use ctr_bytes::put_u32;
use ctr_disk::{Disk, StoreFault};
use ctr_page::{Header, Place, RowSlot, make_header, make_slot, slot_size};
use ctr_passed::a_logged_record_is_its_action;
use ctr_rec::{PageNo, Record};
use ctr_types::Xid;
use ctr_walk::{
    Origin, Store, a_format_clears_its_page, a_link_changes_its_chain, a_slot_is_laid, log_on_page,
    over_cleared, over_entry, over_place,
};

/// The bytes of a header.
const HEADER: usize = 16;

/// The most bytes of a slot.
const SLOT_MOST: usize = 2_072;

/// Where the first pages of an entry of the catalog stand in it.
const FIRSTS_AT: u8 = 179;

/// And that of its versions.
const VERSIONS_AT: u8 = 211;

// The bytes of a header.
fn header_made(header: &Header) -> [u8; HEADER]
    requires { IsHeader header.now }
    ensures { result ≡ header_bytes header.now }
{
    let mut bytes = [0; HEADER];
    let _ = make_header(header, &mut bytes);
    bytes
}

/// Makes a page empty for a transaction that has allocated it, by one record, which isn't hardened yet: nothing stands on it but its
/// header.
pub fn format<D: Disk, O: Origin>(
    store: &mut Store<D, O>,
    x: Xid,
    p: PageNo,
    header: &Header,
) -> Result<(), StoreFault>
    requires room { HasRoomForOne 0 0 store.old }
    requires counted { p < store.old.now.counted }
    requires fits { IsHeader header.now }
    ensures one { LogsOne O.first D.Disk (format_record x p header.now) store.old store.new result }
    ensures whole { WhereSound O.first D.Disk (OnOk result (IsWholePage p store.old.now)) }
    // It has the header, nothing is used on it, and nothing else in the pages and the tables changes.
    ensures leaves { WhereSound O.first D.Disk (3 ≤ p → OnOk result (site_of store.new.now ≡ site_after x (Formats p header.now) (site_of store.old.now))) }
{
    a_logged_record_is_its_action();
    a_format_clears_its_page();
    store.counts_pages();
    let bytes = header_made(header);
    let rec = Record::Format {
        x,
        p,
        overlay: over_cleared(p, &bytes),
    };
    log_on_page(store, p, &rec)
}

/// Lays a slot for a transaction, by one record, which isn't hardened yet. Its head replaces that of another transaction, or of
/// none, 0.
pub fn put_slot<D: Disk, O: Origin>(
    store: &mut Store<D, O>,
    x: Xid,
    over: Xid,
    place: Place,
    slot: &RowSlot,
) -> Result<(), StoreFault>
    requires room { HasRoomForOne 0 0 store.old }
    requires counted { place.page < store.old.now.counted }
    requires lies { LiesOnPage place slot.now }
    ensures one { LogsOne O.first D.Disk (row_record x over place slot.now) store.old store.new result }
    ensures whole { WhereSound O.first D.Disk (OnOk result (IsWholePage place.page store.old.now)) }
    // The slot at the place is this one, and nothing else in the pages changes.
    ensures laid { WhereSound O.first D.Disk (HasPlaceFor (pages_in store.old.now) place slot.now
        → OnOk result (area_in store.new.now ≡ with_slot place (slot_said (columns_on (pages_in store.old.now) place.page) slot.now) (area_in store.old.now))) }
    // Where that is the slot that a move leaves, this is the move, and heads are counted so.
    ensures leaves { WhereSound O.first D.Disk (HasPlaceFor (pages_in store.old.now) place slot.now → (m : RowMove) → LaysMove store.old.now x over place slot.now m
        → OnOk result (site_of store.new.now ≡ site_after x (Writes m) (site_of store.old.now))) }
{
    a_slot_is_laid();
    a_logged_record_is_its_action();
    store.counts_pages();
    let w = slot.head.payload.as_slice().len();
    let mut bytes = [0; SLOT_MOST];
    let size = make_slot(w, slot, &mut bytes);
    let rec = Record::Row {
        x,
        over,
        overlay: over_place(place, slot_size(w), &bytes[..size]),
    };
    log_on_page(store, place.page, &rec)
}

// The bytes of a page's number.
fn number_made(p: PageNo) -> [u8; 4]
    ensures { result ≡ spelled 4 p }
{
    let mut bytes = [0; 4];
    put_u32(&mut bytes, 0, p);
    bytes
}

// Where an entry of the catalog has the first page of a chain: that of a bucket, or of the versions.
fn front_at(bucket: Option<u8>) -> u8
    requires { IfSome bucket (λ b. b < 8) }
    ensures place { result ≡ front_place bucket }
    ensures small { result ≤ 252 }
{
    match bucket {
        Some(bucket) => FIRSTS_AT + 4 * bucket,
        None => VERSIONS_AT,
    }
}

/// Puts a page at the front of a chain of an entry of the catalog, that of a bucket or of the versions, for the transaction that
/// has allocated it, by one record, which isn't hardened yet. The page itself has to lead on to the one that was the first.
pub fn link<D: Disk, O: Origin>(
    store: &mut Store<D, O>,
    x: Xid,
    p: PageNo,
    entry: u8,
    bucket: Option<u8>,
) -> Result<(), StoreFault>
    requires room { HasRoomForOne 0 0 store.old }
    requires small { p < MOST_PAGES }
    requires entry { entry < 32 }
    requires bucket { IfSome bucket (λ b. b < 8) }
    ensures one { LogsOne O.first D.Disk (front_record x p entry bucket) store.old store.new result }
    ensures whole { WhereSound O.first D.Disk (OnOk result (IsWholePage (1 + entry / 16) store.old.now)) }
    // The chain begins with the page, which is the transaction's own no more, and nothing else in the pages and the tables changes.
    ensures leaves { WhereSound O.first D.Disk (HasTableParts (pages_in store.old.now) entry
        → OnOk result (site_of store.new.now ≡ site_after x (front_action p entry bucket) (site_of store.old.now))) }
{
    a_logged_record_is_its_action();
    a_link_changes_its_chain();
    store.counts_pages();
    let bytes = number_made(p);
    let rec = Record::Link {
        x,
        p,
        overlay: over_entry(entry, front_at(bucket), &bytes),
    };
    log_on_page(store, 1 + (entry / 16) as PageNo, &rec)
}
