// In which way a used slot is written.
ghost use Rattle.std.specs.Prelude.{◌≡◌};
ghost use Rattle.ctr_heap.specs.Ways.{IsWay};

use ctr_page::RowSlot;

/// The widest row, in bytes behind its key, of which a slot has the previous version.
const WIDEST_PAIR: usize = 200;

/// How a used slot is written.
#[derive(Clone, Copy, Debug, PartialEq, Eq)]
pub enum Way {
    /// The new head replaces the head, which isn't committed.
    ReplaceHead,
    /// The head becomes the previous version.
    MoveHead,
    /// It does, and the previous version is to be kept off its row first.
    KeepPrevious,
    /// The head is to be kept off its row first.
    KeepHead,
}

/// In which way a used slot is written, by whether its head is committed.
pub fn way_of(slot: &RowSlot, committed: bool) -> Way
    ensures table { IsWay committed slot.now result }
    // The table gives one way for each slot.
    ensures one { (other : Way) → IsWay committed slot.now other → other ≡ result }
{
    if !committed {
        return Way::ReplaceHead;
    }
    if slot.head.payload.as_slice().len() > WIDEST_PAIR {
        return Way::KeepHead;
    }
    match slot.previous {
        None => Way::MoveHead,
        Some(_) => Way::KeepPrevious,
    }
}
