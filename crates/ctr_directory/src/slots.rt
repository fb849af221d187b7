// The places of keys, kept exact as the slots of a page change.
ghost use Rattle.std.specs.Prelude.{true, ◌≡◌, ◌≢◌, ◌≤◌, ◌<◌, ◌+◌, ◌*◌, ℕ, ℤ, Ok, Option, None, Some, length, List, OnOk, IfOk};
ghost use Rattle.ctr_rec.specs.types_Kind.{Kind};
ghost use Rattle.ctr_page.specs.declared.table.TheConstants.{PAGE_SIZE};
ghost use Rattle.ctr_page.specs.Places.{slot_size as size_of_slot, start_of as start_place};
ghost use Rattle.ctr_page.specs.Columns.{kinds_width as width_of_kinds};
ghost use Rattle.ctr_directory.specs.Keys.{key_on as key_there, key_before as key_there_before, slots_of_kinds, KeysLead, with_key, over_slots, SlotsPass, LiesOutside, SlotsStay};
ghost use Rattle.ctr_page.specs.Columns.{slot_start};
ghost use Rattle.ctr_page.specs.Damage.{slot_check};

use ctr_page::{Place, Use, check_slot, kinds_width, read_slot, room_for, slot_size};
use ctr_rec::{Kind, PageNo};
use indexmap::IndexMap;

/// What was read isn't remembered: memory was refused, a check failed, or a key stands twice.
#[derive(Clone, Copy, Debug, PartialEq, Eq)]
pub struct Unkept;

/// The bytes of a page that changed: from one place up to another.
#[derive(Clone, Copy, Debug, PartialEq, Eq)]
pub struct Span {
    pub from: usize,
    pub to: usize,
}

/// Whether a slot of so many bytes lies outside of the bytes that changed.
fn lies_outside(size: usize, span: Span, slot: u16) -> bool
    requires inside { 16 + slot * size + size ≤ PAGE_SIZE }
    ensures { (kinds : List Kind) → size ≡ size_of_slot (width_of_kinds kinds) → result ≡ true → LiesOutside kinds span slot }
{
    let start = 16 + slot as usize * size;
    start + size <= span.from || span.to <= start
}

/// The key of a slot of a page of rows, by its number; none where it isn't used.
fn key_on(kinds: &[Kind], slot: u16, page: &[u8]) -> Option<i64>
    requires few { length kinds.now ≤ 7 }
    requires whole { length page.now ≡ PAGE_SIZE }
    requires there { slot < slots_of_kinds kinds.now }
    ensures { result ≡ key_there kinds.now slot page.now }
{
    let row = read_slot(page, kinds_width(kinds), slot);
    if row.used == Use::USED {
        return Some(row.key);
    }
    None
}

/// The same of a page as it was before; it had no slot where it has no bytes.
fn key_before(kinds: &[Kind], slot: u16, before: &[u8]) -> Option<i64>
    requires few { length kinds.now ≤ 7 }
    requires whole { length before.now ≢ 0 → length before.now ≡ PAGE_SIZE }
    requires there { slot < slots_of_kinds kinds.now }
    ensures { result ≡ key_there_before kinds.now slot before.now }
{
    if before.is_empty() {
        return None;
    }
    key_on(kinds, slot, before)
}

/// How many slots a page has.
pub(crate) fn slots_on(kinds: &[Kind]) -> u16
    requires few { length kinds.now ≤ 7 }
    ensures { result ≡ slots_of_kinds kinds.now }
{
    room_for(slot_size(kinds_width(kinds))) as u16
}

/// Takes a key out that a place has.
fn drop_key(places: &mut IndexMap<i64, Place>, at: Place, key: i64)
    ensures { (keys : ℕ → ℕ → Option ℤ) → KeysLead keys places.old → keys at.page at.slot ≡ Some key → KeysLead (with_key at None keys) places.new }
{
    let _ = places.swap_remove(&key);
}

/// Puts a key in at a place that has none.
fn add_key(places: &mut IndexMap<i64, Place>, at: Place, key: i64) -> Result<(), Unkept>
    ensures { (keys : ℕ → ℕ → Option ℤ) → KeysLead keys places.old → keys at.page at.slot ≡ None → OnOk result (KeysLead (with_key at (Some key) keys) places.new) }
{
    match places.insert(key, at) {
        Ok(None) => Ok(()),
        Ok(Some(_)) => Err(Unkept),
        Err(_) => Err(Unkept),
    }
}

/// Whether two keys are one, or both are none.
fn is_same(a: Option<i64>, b: Option<i64>) -> bool
    ensures { result ≡ true → a ≡ b }
{
    match (a, b) {
        (None, None) => true,
        (Some(a), Some(b)) => a == b,
        _ => false,
    }
}

/// Takes the key out that a place has, if any.
fn clear_key(places: &mut IndexMap<i64, Place>, at: Place, before: Option<i64>)
    ensures { (keys : ℕ → ℕ → Option ℤ) → KeysLead keys places.old → keys at.page at.slot ≡ before → KeysLead (with_key at None keys) places.new }
{
    if let Some(key) = before {
        drop_key(places, at, key);
    }
}

/// Puts a key in, if any, at a place that has none.
fn fill_key(places: &mut IndexMap<i64, Place>, at: Place, after: Option<i64>) -> Result<(), Unkept>
    ensures { (keys : ℕ → ℕ → Option ℤ) → KeysLead keys places.old → keys at.page at.slot ≡ None → OnOk result (KeysLead (with_key at after keys) places.new) }
{
    match after {
        None => Ok(()),
        Some(key) => add_key(places, at, key),
    }
}

/// A place has another key, or none.
fn set_key(
    places: &mut IndexMap<i64, Place>,
    at: Place,
    before: Option<i64>,
    after: Option<i64>,
) -> Result<(), Unkept>
    ensures { (keys : ℕ → ℕ → Option ℤ) → KeysLead keys places.old → keys at.page at.slot ≡ before → OnOk result (KeysLead (with_key at after keys) places.new) }
{
    if is_same(before, after) {
        return Ok(());
    }
    clear_key(places, at, before);
    fill_key(places, at, after)
}

/// A slot of a page changed, which is checked.
fn renew_slot(
    places: &mut IndexMap<i64, Place>,
    at: Place,
    kinds: &[Kind],
    counted: u32,
    before: &[u8],
    page: &[u8],
) -> Result<(), Unkept>
    requires some { 0 < counted }
    requires few { length kinds.now ≤ 7 }
    requires whole { length page.now ≡ PAGE_SIZE }
    requires was { length before.now ≢ 0 → length before.now ≡ PAGE_SIZE }
    requires there { at.slot < slots_of_kinds kinds.now }
    ensures checked { OnOk result (slot_check kinds.now counted (slot_start kinds.now at.slot) page.now ≡ Ok tt) }
    ensures leads { (keys : ℕ → ℕ → Option ℤ) → KeysLead keys places.old
        → keys at.page at.slot ≡ key_there_before kinds.now at.slot before.now → OnOk result (KeysLead (with_key at (key_there kinds.now at.slot page.now) keys) places.new) }
{
    if check_slot(kinds, counted, at.slot, page).is_err() {
        return Err(Unkept);
    }
    let was = key_before(kinds, at.slot, before);
    let is = key_on(kinds, at.slot, page);
    set_key(places, at, was, is)
}

/// The slots of a page changed, of which those are checked that don't lie outside of the bytes that did. Where the page has no bytes
/// before, its slots are new.
pub fn renew(
    places: &mut IndexMap<i64, Place>,
    number: PageNo,
    kinds: &[Kind],
    counted: u32,
    span: Span,
    before: &[u8],
    page: &[u8],
) -> Result<(), Unkept>
    requires some { 0 < counted }
    requires few { length kinds.now ≤ 7 }
    requires whole { length page.now ≡ PAGE_SIZE }
    requires was { length before.now ≢ 0 → length before.now ≡ PAGE_SIZE }
    ensures checked { SlotsStay kinds.now counted span before.now page.now → OnOk result (SlotsPass kinds.now counted (slots_of_kinds kinds.now) page.now) }
    ensures leads { SlotsStay kinds.now counted span before.now page.now → (keys : ℕ → ℕ → Option ℤ) → KeysLead keys places.old
        → ((n : ℕ) → n < slots_of_kinds kinds.now → keys number n ≡ key_there_before kinds.now n before.now)
        → OnOk result (KeysLead (over_slots number (slots_of_kinds kinds.now) (λ n. key_there kinds.now n page.now) keys) places.new) }
{
    let size = slot_size(kinds_width(kinds));
    let count = slots_on(kinds);
    for slot in 0..count {
        if lies_outside(size, span, slot) {
            continue;
        }
        let at = Place { page: number, slot };
        renew_slot(places, at, kinds, counted, before, page)?;
    }
    Ok(())
}
