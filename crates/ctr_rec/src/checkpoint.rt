// Reading a Checkpoint. The checks stand in the order in which they are told.
ghost use Rattle.std.specs.Prelude.{◌≡◌, ◌≤◌, ◌<◌, ◌+◌, ◌*◌, ◌^◌, ℕ, List, length, Ok, Result, ⊤};
ghost use Rattle.ctr_rec.specs.declared.decoding.BadRecord.{BadRecord};
ghost use Rattle.ctr_bytes.specs.Fields.{field};
ghost use Rattle.ctr_rec.specs.Spelling.{record_bytes};
ghost use Rattle.ctr_rec.specs.Checkpoint.{count_at, opens_in, aborted_in, items_at, items_in, end_at, xid_at, each, end_check, kind_check, kinds_in, item_most, item_check, next_check, heads_check, is_among, is_new, xid_check, list_checks, checkpoint_checks};
ghost use Rattle.ctr_rec.specs.Records.{IsRecord, ListsAreMembers};
ghost use Rattle.ctr_rec.specs.Parts.{form_of};

use crate::fields::{at_most, expect};
use crate::{BadRecord, Bytes, Record};
use ctr_bytes::{get_u8, get_u32, get_u64};

/// How many members the lists have, and where the last list and the flag stand.
#[derive(Clone, Copy, Debug)]
struct Places {
    opens: u64,
    aborted: u64,
    items: u64,
    items_at: u128,
    end: u128,
}

#[tactic(auto, unfolding(crate::specs::Checkpoint::count_at))]
fn count_at(at: u128, bytes: &[u8]) -> u64
    requires { at < 2 ^ 80 }
    ensures { result ≡ count_at at bytes.now }
{
    if (bytes.len() as u128) < at + 8 {
        return 0;
    }
    get_u64(bytes, at as usize)
}

#[tactic(auto, unfolding(crate::specs::Checkpoint::opens_in, crate::specs::Checkpoint::aborted_in, crate::specs::Checkpoint::items_at, crate::specs::Checkpoint::items_in, crate::specs::Checkpoint::end_at))]
fn places_in(bytes: &[u8]) -> Places
    ensures opens { result.opens ≡ opens_in bytes.now }
    ensures aborted { result.aborted ≡ aborted_in bytes.now }
    ensures items { result.items ≡ items_in bytes.now }
    ensures items_at { result.items_at ≡ items_at bytes.now }
    ensures end { result.end ≡ end_at bytes.now }
    ensures base { result.items_at ≡ 25 + 16 * (result.opens + result.aborted) }
    ensures whole { result.end ≡ result.items_at + 8 + 13 * result.items }
    ensures small { result.end < 2 ^ 80 }
{
    let opens = count_at(9, bytes);
    let aborted = count_at(17 + 16 * opens as u128, bytes);
    let items_at = 25 + 16 * (opens as u128 + aborted as u128);
    let items = count_at(items_at, bytes);
    Places {
        opens,
        aborted,
        items,
        items_at,
        end: items_at + 8 + 13 * items as u128,
    }
}

#[tactic(auto, unfolding(crate::specs::Checkpoint::end_check))]
fn check_end(end: u128, bytes: &[u8]) -> Result<(), BadRecord>
    requires { end ≡ end_at bytes.now }
    ensures { result ≡ end_check bytes.now }
{
    if end < bytes.len() as u128 {
        let at = end as usize;
        return expect(at as u64, 0, get_u8(bytes, at) as u128);
    }
    Ok(())
}

#[tactic(auto, unfolding(crate::specs::Checkpoint::kind_check))]
fn check_kind(base: usize, i: usize, bytes: &[u8]) -> Result<(), BadRecord>
    requires { base + 13 * i < length bytes.now }
    ensures { result ≡ kind_check base bytes.now i }
{
    let at = base + 13 * i;
    let kind = get_u8(bytes, at);
    if kind == 0 {
        return Err(BadRecord {
            at: at as u64,
            want: 4,
            got: 0,
        });
    }
    at_most(at, 4, kind as u64)
}

#[tactic(auto, unfolding(crate::specs::Checkpoint::item_check))]
fn check_item(base: usize, i: usize, bytes: &[u8]) -> Result<(), BadRecord>
    requires { base + 13 * i + 13 ≤ length bytes.now }
    ensures { result ≡ item_check base bytes.now i }
{
    let at = base + 13 * i;
    let kind = get_u8(bytes, at);
    if kind == 2 {
        expect(at as u64 + 1, 0, get_u64(bytes, at + 1) as u128)?;
    }
    let most = if kind > 2 { 31 } else { 29_999 };
    at_most(at + 9, most, get_u32(bytes, at + 9) as u64)
}

#[tactic(auto, unfolding(crate::specs::Checkpoint::next_check))]
fn check_next(next: u64) -> Result<(), BadRecord>
    ensures { result ≡ next_check next }
{
    if next == 0 {
        return Err(BadRecord {
            at: 1,
            want: 1,
            got: 0,
        });
    }
    at_most(1, (1 << 63) + (1 << 62), next)
}

fn xid_at(opens: usize, i: usize) -> usize
    requires { i < 2 ^ 59 }
    ensures { result ≡ xid_at opens i }
{
    if i < opens { 17 + 16 * i } else { 25 + 16 * i }
}

#[tactic(auto, unfolding(crate::specs::Checkpoint::heads_check))]
fn check_head(opens: usize, i: usize, bytes: &[u8]) -> Result<(), BadRecord>
    requires { 25 + 16 * i + 16 ≤ length bytes.now }
    ensures { result ≡ heads_check opens bytes.now i }
{
    let at = xid_at(opens, i) + 8;
    at_most(at, 1 << 62, get_u64(bytes, at))
}

// Whether a transaction is among the first n.
fn is_among(opens: usize, n: usize, x: u64, bytes: &[u8]) -> bool
    requires { 25 + 16 * n ≤ length bytes.now }
    ensures { result ≡ is_among opens bytes.now x n }
{
    for i in 0..n {
        if get_u64(bytes, xid_at(opens, i)) == x {
            return true;
        }
    }
    false
}

#[tactic(auto, unfolding(crate::specs::Checkpoint::xid_check))]
fn check_xid(opens: usize, i: usize, bytes: &[u8]) -> Result<(), BadRecord>
    requires { 25 + 16 * i + 16 ≤ length bytes.now }
    ensures { result ≡ xid_check opens bytes.now i }
{
    let at = xid_at(opens, i);
    let x = get_u64(bytes, at);
    if x != 0 && x < get_u64(bytes, 1) && !is_among(opens, i, x, bytes) {
        return Ok(());
    }
    Err(BadRecord {
        at: at as u64,
        want: 1,
        got: 0,
    })
}

// A check of each member of a list. Where it stands is told by one number: the byte at which the list's
// members begin, or how many transactions are open.
trait Check {
    /// The bytes reach to the member.
    ghost reaches: { ℕ → ℕ → List ℕ → Type 0 };

    ghost meant: { ℕ → List ℕ → ℕ → Result ⊤ BadRecord };

    fn check(from: usize, i: usize, bytes: &[u8]) -> Result<(), BadRecord>
        requires { reaches from i bytes.now }
        ensures { result ≡ meant from bytes.now i };
}

// The first so many members, in order, as far as one fails.
fn check_each<C: Check>(from: usize, count: usize, bytes: &[u8]) -> Result<(), BadRecord>
    requires { (i : ℕ) → i < count → C.reaches from i bytes.now }
    ensures { result ≡ each (C.meant from bytes.now) 0 count }
{
    for i in 0..count {
        C::check(from, i, bytes)?;
    }
    Ok(())
}

// That an item is of a kind that there is.
struct Kinds;

impl Check for Kinds {
    ghost reaches = { λ base i bytes. base + 13 * i < length bytes };

    ghost meant = { kind_check };

    fn check(base: usize, i: usize, bytes: &[u8]) -> Result<(), BadRecord> {
        check_kind(base, i, bytes)
    }
}

// That an item is one.
struct Items;

impl Check for Items {
    ghost reaches = { λ base i bytes. base + 13 * i + 13 ≤ length bytes };

    ghost meant = { item_check };

    fn check(base: usize, i: usize, bytes: &[u8]) -> Result<(), BadRecord> {
        check_item(base, i, bytes)
    }
}

// That a transaction has no more heads than there may be.
struct Heads;

impl Check for Heads {
    ghost reaches = { λ opens i bytes. 25 + 16 * i + 16 ≤ length bytes };

    ghost meant = { heads_check };

    fn check(opens: usize, i: usize, bytes: &[u8]) -> Result<(), BadRecord> {
        check_head(opens, i, bytes)
    }
}

// That a transaction is a new one.
struct Xids;

impl Check for Xids {
    ghost reaches = { λ opens i bytes. 25 + 16 * i + 16 ≤ length bytes };

    ghost meant = { xid_check };

    fn check(opens: usize, i: usize, bytes: &[u8]) -> Result<(), BadRecord> {
        check_xid(opens, i, bytes)
    }
}

#[tactic(auto, unfolding(crate::specs::Checkpoint::kinds_in))]
fn check_all_kinds(places: &Places, bytes: &[u8]) -> Result<(), BadRecord>
    requires items { places.now.items ≡ items_in bytes.now }
    requires items_at { places.now.items_at ≡ items_at bytes.now }
    requires short { places.now.items_at < 2 ^ 80 }
    ensures { result ≡ each (kind_check (items_at bytes.now + 8) bytes.now) 0 (kinds_in bytes.now) }
{
    let base = places.items_at + 8;
    let reach = (bytes.len() as u128 + 12).saturating_sub(base) / 13;
    let count = reach.min(places.items as u128);
    if count == 0 {
        return Ok(());
    }
    check_each::<Kinds>(base as usize, count as usize, bytes)
}

// The lists of bytes whose length is the wanted one.
#[tactic(auto, unfolding(crate::specs::Checkpoint::list_checks))]
fn check_lists(places: &Places, bytes: &[u8]) -> Result<(), BadRecord>
    requires opens { places.now.opens ≡ opens_in bytes.now }
    requires aborted { places.now.aborted ≡ aborted_in bytes.now }
    requires items { places.now.items ≡ items_in bytes.now }
    requires items_at { places.now.items_at ≡ items_at bytes.now }
    requires base { places.now.items_at ≡ 25 + 16 * (places.now.opens + places.now.aborted) }
    requires whole { places.now.items_at + 8 + 13 * places.now.items + 1 ≡ length bytes.now }
    ensures { result ≡ list_checks bytes.now }
{
    let opens = places.opens as usize;
    let count = opens + places.aborted as usize;
    check_each::<Items>(places.items_at as usize + 8, places.items as usize, bytes)?;
    check_next(get_u64(bytes, 1))?;
    check_each::<Heads>(opens, count, bytes)?;
    check_each::<Xids>(opens, count, bytes)
}

/// The checks of a Checkpoint.
#[tactic(auto, unfolding(crate::specs::Checkpoint::checkpoint_checks))]
pub fn check_checkpoint(bytes: &[u8]) -> Result<(), BadRecord>
    ensures { result ≡ checkpoint_checks bytes.now }
{
    let places = places_in(bytes);
    check_end(places.end, bytes)?;
    check_all_kinds(&places, bytes)?;
    expect(0, places.end + 1, bytes.len() as u128)?;
    check_lists(&places, bytes)
}

/// The Checkpoint in bytes that pass.
pub fn checkpoint_in<'a>(bytes: &'a [u8]) -> Record<'a>
    requires number { field 1 0 bytes.now ≡ 1 }
    requires checked { checkpoint_checks bytes.now ≡ Ok tt }
    requires long { 34 ≤ length bytes.now }
    ensures bytes { record_bytes result ≡ bytes.now }
    ensures fits { IsRecord result }
    ensures members { ListsAreMembers (form_of result) }
{
    Record::Checkpoint {
        next: get_u64(bytes, 1),
        lists: Bytes::new(&bytes[9..bytes.len() - 1]),
    }
}
