// The checks of a page, in the order in which they are told. None takes memory.
ghost use Rattle.std.specs.Prelude.{◌≡◌, ◌≤◌, ◌<◌, ◌+◌, ◌-◌, ◌*◌, length, ℕ, List, Ok};
ghost use Rattle.ctr_rec.specs.types_Column.{Column};
ghost use Rattle.ctr_rec.specs.types_Kind.{Kind};
ghost use Rattle.ctr_page.specs.declared.checks.Chain.{Chain};
ghost use Rattle.ctr_page.specs.Places.{slot_size as size_of_slot, kept_size as size_of_kept};
ghost use Rattle.ctr_value.specs.Payload.{IsKeyed};
ghost use Rattle.ctr_page.specs.Reading.{slot_at, older_at};
ghost use Rattle.ctr_page.specs.Columns.{entry_at as entry_of, kinds_of, slot_start, kept_start, kinds_width as width_of_kinds};
ghost use Rattle.ctr_page.specs.Readable.{HoldsRows, HoldsOlder, HasParts, FirstsAreCounted};
ghost use Rattle.ctr_page.specs.Damage.{chain_kind, chain_entry, chain_bucket, counted_check, header_check, place_check, pointer_check, text_check, texts_check, version_check, some_version_check, previous_check, used_slot_check, used_kept_check, slot_check, kept_check, from_1_check, firsts_check, column_check, columns_check, used_entry_check, entry_check, DamageDiffers};

use crate::header::PageKind;
use crate::table::{
    BUCKET_AT, COLUMN_SIZE, COLUMNS_AT, ENTRY_SIZE, FIRSTS_AT, HEAD_AT, HEADER_SIZE, KIND_AT,
    MOST_COLUMNS, NAME_AT, NAME_MOST, NEXT_AT, OWNER_AT, TOMBSTONE_AT, VERSION_SIZE, has_previous,
    kept_pointer_at, kept_size, pointer_at, previous_at, room_for, slot_size, start_of,
};
use ctr_rec::{BadRecord, Kind, at_most, expect, get_u8, get_u16, get_u32, get_u64};
use ctr_value::field_width;

/// A place on a page where one number is wanted, and another is there. Places count from the page's first
/// byte.
pub type BadPage = BadRecord;

/// Which chain leads to a page.
#[derive(Clone, Copy, Debug, PartialEq, Eq)]
pub enum Chain {
    /// A bucket of the rows of an entry of the catalog.
    Rows { entry: u8, bucket: u8 },
    /// The older versions of an entry.
    Versions { entry: u8 },
}

impl Chain {
    fn kind(self) -> PageKind
        ensures { result ≡ chain_kind self }
    {
        match self {
            Chain::Rows { .. } => PageKind::ROWS,
            Chain::Versions { .. } => PageKind::VERSIONS,
        }
    }

    fn entry(self) -> u8
        ensures { result ≡ chain_entry self }
    {
        match self {
            Chain::Rows { entry, .. } => entry,
            Chain::Versions { entry } => entry,
        }
    }

    fn bucket(self) -> u8
        ensures { result ≡ chain_bucket self }
    {
        match self {
            Chain::Rows { bucket, .. } => bucket,
            Chain::Versions { .. } => 0,
        }
    }
}

/// The width of a row with columns of these kinds behind its key.
pub fn kinds_width(kinds: &[Kind]) -> usize
    requires { length kinds.now ≤ 7 }
    ensures value { result ≡ width_of_kinds kinds.now }
    ensures small { result ≤ 256 * length kinds.now }
{
    match kinds.split_first() {
        None => 0,
        Some((kind, others)) => field_width(*kind) + kinds_width(others),
    }
}

#[tactic(auto, unfolding(crate::specs::Damage::counted_check))]
fn check_counted(counted: u32, at: usize, page: &[u8]) -> Result<(), BadPage>
    requires some { 0 < counted }
    requires inside { at + 4 ≤ length page.now }
    ensures { result ≡ counted_check counted at page.now }
{
    at_most(at, (counted - 1) as u64, get_u32(page, at) as u64)
}

/// Checks the header of a page to which a chain leads, where so many pages are counted.
#[tactic(auto, unfolding(crate::specs::Damage::header_check))]
pub fn check_header(chain: Chain, counted: u32, page: &[u8]) -> Result<(), BadPage>
    requires some { 0 < counted }
    requires whole { HEADER_SIZE ≤ length page.now }
    ensures { result ≡ header_check chain counted page.now }
{
    expect(
        KIND_AT as u64,
        chain.kind().byte() as u128,
        get_u8(page, KIND_AT) as u128,
    )?;
    expect(
        OWNER_AT as u64,
        chain.entry() as u128,
        get_u8(page, OWNER_AT) as u128,
    )?;
    expect(
        BUCKET_AT as u64,
        chain.bucket() as u128,
        get_u8(page, BUCKET_AT) as u128,
    )?;
    check_counted(counted, NEXT_AT, page)
}

// ---- slots and version entries

#[tactic(auto, unfolding(crate::specs::Damage::place_check))]
fn check_place(counted: u32, w: usize, at: usize, page: &[u8]) -> Result<(), BadPage>
    requires some { 0 < counted }
    requires width { w ≤ 2048 }
    requires inside { at + 6 ≤ length page.now }
    ensures { result ≡ place_check counted w at page.now }
{
    check_counted(counted, at, page)?;
    let most = room_for(kept_size(w)).saturating_sub(1);
    at_most(at + 4, most as u64, get_u16(page, at + 4) as u64)
}

#[tactic(auto, unfolding(crate::specs::Damage::pointer_check))]
fn check_pointer(counted: u32, w: usize, at: usize, page: &[u8]) -> Result<(), BadPage>
    requires some { 0 < counted }
    requires width { w ≤ 2048 }
    requires inside { at + 6 ≤ length page.now }
    ensures { result ≡ pointer_check counted w at page.now }
{
    if get_u32(page, at) == 0 {
        return Ok(());
    }
    check_place(counted, w, at, page)
}

fn check_text(kind: Kind, at: usize, page: &[u8]) -> Result<(), BadPage>
    requires { at < length page.now }
    ensures { result ≡ text_check kind at page.now }
{
    match kind {
        Kind::Int => Ok(()),
        Kind::Chars(most) => at_most(at, most as u64, get_u8(page, at) as u64),
    }
}

fn check_texts(kinds: &[Kind], at: usize, page: &[u8]) -> Result<(), BadPage>
    requires { at + width_of_kinds kinds.now ≤ length page.now }
    ensures { result ≡ texts_check kinds.now at page.now }
{
    let Some((kind, others)) = kinds.split_first() else {
        return Ok(());
    };
    check_text(*kind, at, page)?;
    check_texts(others, at + field_width(*kind), page)
}

#[tactic(auto, unfolding(crate::specs::Damage::version_check))]
fn check_version_at(kinds: &[Kind], at: usize, page: &[u8]) -> Result<(), BadPage>
    requires { at + 9 + width_of_kinds kinds.now ≤ length page.now }
    ensures { result ≡ version_check kinds.now at page.now }
{
    at_most(at + TOMBSTONE_AT, 1, get_u8(page, at + TOMBSTONE_AT) as u64)?;
    check_texts(kinds, at + VERSION_SIZE, page)
}

#[tactic(auto, unfolding(crate::specs::Damage::some_version_check))]
fn check_some_version(kinds: &[Kind], at: usize, page: &[u8]) -> Result<(), BadPage>
    requires { at + 9 + width_of_kinds kinds.now ≤ length page.now }
    ensures { result ≡ some_version_check kinds.now at page.now }
{
    if get_u64(page, at) == 0 {
        return Ok(());
    }
    check_version_at(kinds, at, page)
}

#[tactic(auto, unfolding(crate::specs::Damage::previous_check))]
fn check_previous(kinds: &[Kind], w: usize, start: usize, page: &[u8]) -> Result<(), BadPage>
    requires width { w ≡ width_of_kinds kinds.now }
    requires small { w ≤ 2048 }
    requires inside { start + size_of_slot w ≤ length page.now }
    ensures { result ≡ previous_check kinds.now start page.now }
{
    if !has_previous(w) {
        return Ok(());
    }
    check_some_version(kinds, start + previous_at(w), page)
}

#[tactic(auto, unfolding(crate::specs::Damage::used_slot_check))]
fn check_used_slot(kinds: &[Kind], counted: u32, start: usize, page: &[u8]) -> Result<(), BadPage>
    requires some { 0 < counted }
    requires few { length kinds.now ≤ 7 }
    requires inside { start + size_of_slot (width_of_kinds kinds.now) ≤ length page.now }
    ensures { result ≡ used_slot_check kinds.now counted start page.now }
{
    let w = kinds_width(kinds);
    check_pointer(counted, w, start + pointer_at(w), page)?;
    check_version_at(kinds, start + HEAD_AT, page)?;
    check_previous(kinds, w, start, page)
}

#[tactic(auto, unfolding(crate::specs::Damage::used_kept_check))]
fn check_used_kept(kinds: &[Kind], counted: u32, start: usize, page: &[u8]) -> Result<(), BadPage>
    requires some { 0 < counted }
    requires few { length kinds.now ≤ 7 }
    requires inside { start + size_of_kept (width_of_kinds kinds.now) ≤ length page.now }
    ensures { result ≡ used_kept_check kinds.now counted start page.now }
{
    let w = kinds_width(kinds);
    check_pointer(counted, w, start + kept_pointer_at(w), page)?;
    check_version_at(kinds, start + HEAD_AT, page)
}

#[tactic(auto, unfolding(crate::specs::Damage::slot_check))]
fn check_slot_at(kinds: &[Kind], counted: u32, start: usize, page: &[u8]) -> Result<(), BadPage>
    requires some { 0 < counted }
    requires few { length kinds.now ≤ 7 }
    requires inside { start + size_of_slot (width_of_kinds kinds.now) ≤ length page.now }
    ensures { result ≡ slot_check kinds.now counted start page.now }
{
    let used = get_u8(page, start);
    if used == 1 {
        return check_used_slot(kinds, counted, start, page);
    }
    at_most(start, 1, used as u64)
}

/// Checks a slot of a page of rows with columns of these kinds behind the key, where so many pages are
/// counted.
pub fn check_slot(kinds: &[Kind], counted: u32, slot: u16, page: &[u8]) -> Result<(), BadPage>
    requires some { 0 < counted }
    requires few { length kinds.now ≤ 7 }
    requires inside { slot_start kinds.now slot + size_of_slot (width_of_kinds kinds.now) ≤ length page.now }
    ensures checked { result ≡ slot_check kinds.now counted (slot_start kinds.now slot) page.now }
    // What passes holds rows of the columns, each of which can be read.
    ensures rows { (cs : List Column) → IsKeyed cs → kinds_of cs ≡ kinds.now → result ≡ Ok tt → HoldsRows cs (slot_at (width_of_kinds kinds.now) slot page.now) }
{
    check_slot_at(
        kinds,
        counted,
        start_of(slot_size(kinds_width(kinds)), slot),
        page,
    )
}

#[tactic(auto, unfolding(crate::specs::Damage::kept_check))]
fn check_kept_at(kinds: &[Kind], counted: u32, start: usize, page: &[u8]) -> Result<(), BadPage>
    requires some { 0 < counted }
    requires few { length kinds.now ≤ 7 }
    requires inside { start + size_of_kept (width_of_kinds kinds.now) ≤ length page.now }
    ensures { result ≡ kept_check kinds.now counted start page.now }
{
    let used = get_u8(page, start);
    if used == 1 {
        return check_used_kept(kinds, counted, start, page);
    }
    at_most(start, 1, used as u64)
}

/// Checks an entry of a page of versions, likewise.
pub fn check_version(kinds: &[Kind], counted: u32, slot: u16, page: &[u8]) -> Result<(), BadPage>
    requires some { 0 < counted }
    requires few { length kinds.now ≤ 7 }
    requires inside { kept_start kinds.now slot + size_of_kept (width_of_kinds kinds.now) ≤ length page.now }
    ensures checked { result ≡ kept_check kinds.now counted (kept_start kinds.now slot) page.now }
    // What passes holds a row of the columns, which can be read.
    ensures rows { (cs : List Column) → IsKeyed cs → kinds_of cs ≡ kinds.now → result ≡ Ok tt → HoldsOlder cs (older_at (width_of_kinds kinds.now) slot page.now) }
{
    check_kept_at(
        kinds,
        counted,
        start_of(kept_size(kinds_width(kinds)), slot),
        page,
    )
}

// ---- entries of the catalog

#[tactic(auto, unfolding(crate::specs::Damage::from_1_check))]
fn check_from_1(most: u8, at: usize, page: &[u8]) -> Result<(), BadPage>
    requires { at < length page.now }
    ensures { result ≡ from_1_check most at page.now }
{
    let got = get_u8(page, at);
    if got == 0 {
        return Err(BadRecord {
            at: at as u64,
            want: 1,
            got: 0,
        });
    }
    at_most(at, most as u64, got as u64)
}

fn check_firsts(count: u8, counted: u32, at: usize, page: &[u8]) -> Result<(), BadPage>
    requires some { 0 < counted }
    requires inside { at + 4 * count ≤ length page.now }
    ensures { result ≡ firsts_check count counted at page.now }
{
    let mut left = count;
    let mut next = at;
    while left != 0 {
        check_counted(counted, next, page)?;
        left -= 1;
        next += 4;
    }
    Ok(())
}

#[tactic(auto, unfolding(crate::specs::Damage::column_check))]
fn check_column(most: u8, at: usize, page: &[u8]) -> Result<(), BadPage>
    requires { at + COLUMN_SIZE ≤ length page.now }
    ensures { result ≡ column_check most at page.now }
{
    check_from_1(NAME_MOST as u8, at, page)?;
    let kind = at + COLUMN_SIZE - 1;
    at_most(kind, most as u64, get_u8(page, kind) as u64)
}

fn check_columns(count: u8, at: usize, page: &[u8]) -> Result<(), BadPage>
    requires { at + COLUMN_SIZE * count ≤ length page.now }
    ensures { result ≡ columns_check count at page.now }
{
    if count == 0 {
        return Ok(());
    }
    check_column(64, at, page)?;
    check_columns(count - 1, at + COLUMN_SIZE, page)
}

#[tactic(auto, unfolding(crate::specs::Damage::used_entry_check))]
fn check_used_entry(counted: u32, start: usize, page: &[u8]) -> Result<(), BadPage>
    requires some { 0 < counted }
    requires inside { start + ENTRY_SIZE ≤ length page.now }
    ensures { result ≡ used_entry_check counted start page.now }
{
    check_firsts(9, counted, start + FIRSTS_AT, page)?;
    at_most(start, 2, get_u8(page, start) as u64)?;
    check_from_1(NAME_MOST as u8, start + NAME_AT, page)?;
    check_from_1(MOST_COLUMNS as u8, start + COLUMNS_AT, page)?;
    let at = start + COLUMNS_AT + 1;
    check_column(0, at, page)?;
    check_columns(get_u8(page, start + COLUMNS_AT) - 1, at + COLUMN_SIZE, page)
}

#[tactic(auto, unfolding(crate::specs::Damage::entry_check))]
fn check_entry_at(counted: u32, start: usize, page: &[u8]) -> Result<(), BadPage>
    requires some { 0 < counted }
    requires inside { start + ENTRY_SIZE ≤ length page.now }
    ensures { result ≡ entry_check counted start page.now }
{
    if get_u8(page, start) == 0 {
        return Ok(());
    }
    check_used_entry(counted, start, page)
}

/// Checks an entry of a page of the catalog, by its number from 0, where so many pages are counted.
pub fn check_entry(counted: u32, at: u8, page: &[u8]) -> Result<(), BadPage>
    requires some { 0 < counted }
    requires inside { ENTRY_SIZE * at + ENTRY_SIZE ≤ length page.now }
    ensures checked { result ≡ entry_check counted (ENTRY_SIZE * at) page.now }
    // What passes has a name and columns that can be read.
    ensures parts { result ≡ Ok tt → HasParts (entry_of at page.now) }
    ensures firsts { result ≡ Ok tt → FirstsAreCounted counted (entry_of at page.now) }
{
    check_entry_at(counted, ENTRY_SIZE * at as usize, page)
}

/// Where a check fails, what is wanted isn't what is there.
pub fn damage_differs()
    ensures header { (chain : Chain) (counted : ℕ) (page : List ℕ) → DamageDiffers (header_check chain counted page) }
    ensures slot { (kinds : List Kind) (counted start : ℕ) (page : List ℕ) → DamageDiffers (slot_check kinds counted start page) }
    ensures version { (kinds : List Kind) (counted start : ℕ) (page : List ℕ) → DamageDiffers (kept_check kinds counted start page) }
    ensures entry { (counted start : ℕ) (page : List ℕ) → DamageDiffers (entry_check counted start page) }
{}
