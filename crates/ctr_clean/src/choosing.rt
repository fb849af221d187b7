// What is to be cleaned of a slot.
ghost use Rattle.std.specs.Prelude.{◌≡◌, true, List};
ghost use Rattle.std.specs.Option.{option_map};
ghost use Rattle.ctr_pvs.specs.declared.slot.LentPart.{LentPart as Part};
ghost use Rattle.ctr_types.specs.declared.value.Column.{Column};
ghost use Rattle.ctr_meta.specs.Tables.{is_in};
ghost use Rattle.ctr_area.specs.Areas.{Slot};
ghost use Rattle.ctr_area.specs.Reading.{slot_said};
ghost use Rattle.ctr_pvs.specs.Slots.{slot_lent};
ghost use Rattle.ctr_clean.specs.Choosing.{passes_below, waits_above, TellsSlot, IsTrimOf, IsTask};

use ctr_dead::TrimWay;
use ctr_meta::Meta;
use ctr_pvs::{LentPart, LentSlot};
use ctr_types::{Fate, Xid};

/// What the cleaner has to know of a slot. Where the slot isn't used the rest says nothing.
#[derive(Clone, Copy, Debug, PartialEq, Eq)]
pub struct SlotFacts {
    pub used: bool,
    pub key: i64,
    /// Whose the head is.
    pub head: Xid,
    /// Whether the head is a tombstone.
    pub dead: bool,
    /// Whose the previous version is, where there is one.
    pub previous: Option<Xid>,
    /// Whether a version is kept off the row.
    pub leads: bool,
}

/// What is to be done with a used slot.
#[derive(Clone, Copy, Debug, PartialEq, Eq)]
pub enum SlotTask {
    /// Nothing.
    Nothing,
    /// Its head is taken from it, which is by a transaction that is rolled back.
    Revert,
    /// It is trimmed.
    Trim(TrimWay),
}

/// Whose a version is that may be there.
fn whose(part: &Option<LentPart>) -> Option<Xid>
    ensures { result ≡ option_map (λ (p : Part). p.xid) part.now }
{
    match part {
        None => None,
        Some(part) => Some(part.xid),
    }
}

/// What there is to know of a slot that is lent.
pub fn facts_of(slot: &LentSlot) -> SlotFacts
    ensures { (columns : List Column) → TellsSlot (slot_said columns (slot_lent slot.now)) result }
{
    SlotFacts {
        used: slot.used == 1,
        key: slot.key,
        head: slot.head.xid,
        dead: slot.head.tombstone != 0,
        previous: whose(&slot.previous),
        leads: slot.older.page != 0,
    }
}

/// Whether everybody sees what a transaction did, by the low mark; 0 is nobody's number.
pub(crate) fn passes(meta: &Meta, low: Xid, x: Xid) -> bool
    ensures { result ≡ passes_below low meta.now.tables x }
{
    x != 0 && meta.fate(x) == Fate::Committed && x < low
}

/// Whether somebody may not see yet what a transaction did that is committed.
pub(crate) fn waits(meta: &Meta, low: Xid, x: Xid) -> bool
    ensures { result ≡ waits_above low meta.now.tables x }
{
    x != 0 && meta.fate(x) == Fate::Committed && !(x < low)
}

/// How a used slot may be trimmed: where everybody sees its head, or its previous version, what is behind goes; and a tombstone that everybody
/// sees goes where nothing is behind it.
fn trim_of(meta: &Meta, low: Xid, slot: &SlotFacts) -> Option<TrimWay>
    requires used { slot.now.used ≡ true }
    ensures { (there : Slot) → TellsSlot there slot.now → IsTrimOf (passes_below low meta.now.tables) there result }
{
    if passes(meta, low, slot.head) {
        if slot.leads || slot.previous.is_some() {
            return Some(TrimWay::BehindHead);
        }
        if slot.dead {
            return Some(TrimWay::WholeSlot);
        }
        return None;
    }
    match slot.previous {
        Some(x) if slot.leads && passes(meta, low, x) => Some(TrimWay::BehindPrevious),
        _ => None,
    }
}

/// Whether a transaction is rolled back, and has or had heads; 0 is nobody's number.
pub(crate) fn is_rolled_back(meta: &Meta, x: Xid) -> bool
    ensures { result ≡ is_in x meta.now.tables.aborted }
{
    let _next = meta.next();
    x != 0 && meta.fate(x) == Fate::Aborted
}

/// What is to be done with a used slot: its head is taken where it is by a transaction that is rolled back; else it is trimmed, where it
/// may be.
pub fn task_of(meta: &Meta, low: Xid, slot: &SlotFacts) -> SlotTask
    requires used { slot.now.used ≡ true }
    ensures { (there : Slot) → TellsSlot there slot.now → IsTask (passes_below low meta.now.tables) meta.now.tables there result }
{
    if is_rolled_back(meta, slot.head) {
        return SlotTask::Revert;
    }
    match trim_of(meta, low, slot) {
        Some(way) => SlotTask::Trim(way),
        None => SlotTask::Nothing,
    }
}
