// How parts of a turn come one behind another. A call does nothing: what it ensures is the law.
ghost use Rattle.std.specs.Prelude.{◌≡◌, ℕ, Bool, false, true, None, Ok, Err, Result, IfOk, OnOk};
ghost use Rattle.ctr_disk.specs.Image.{Image};
ghost use Rattle.ctr_disk.specs.declared.fault.StoreFault.{StoreFault};
ghost use Rattle.ctr_walk.specs.base_Base.{WhereSound};
ghost use Rattle.ctr_walk.specs.store_Store.{View, LeavesFront, LeavesPage};
ghost use Rattle.ctr_walk.specs.Damage.{ReadsPages};
ghost use Rattle.ctr_walk.specs.OneRecord.{HasRoomForOne};
ghost use Rattle.ctr_emptying.specs.page_turns_Rooms.{AddsItems};
ghost use Rattle.ctr_emptying.specs.page_turns_Turns.{Turns};
ghost use Rattle.ctr_emptying.specs.clean_Step.{Step as StepOf};
ghost use Rattle.ctr_emptying.specs.clean_Steps.{next_stepped};
ghost use Rattle.ctr_emptying.specs.clean_Lists.{TakesItem};
ghost use Rattle.ctr_emptying.specs.declared.emptied.Emptied.{Emptied as EmptiedOf};
ghost use Rattle.ctr_emptying.specs.Emptying.{next_emptied};
ghost use Rattle.ctr_cleaner.specs.Turning.{HasRoomFor};
ghost use Rattle.ctr_cleaner.specs.Parts.{Done as DoneOf, Tries, done_step, done_reclaim, done_freed, done_unlinked};

use crate::done::Done;
use ctr_disk::Disk;
use ctr_emptying::{a_turn_goes_on, room_is_still_there};

/// A step is a part of a turn.
pub(crate) fn a_step_is_a_part<D: Disk>()
    ensures step { (first : Image) (a b : View D) (result : Result StepOf StoreFault) → Turns first D.Disk a b result → IfOk result (λ t. b.next ≡ next_stepped t a.next)
        → OnOk result (AddsItems 0 a.meta b.meta) → OnOk result (b.now.counted ≡ a.now.counted) → Tries false first D.Disk a b (done_step result) }
    ensures reclaimed { (first : Image) (a b : View D) (result : Result StepOf StoreFault) → Turns first D.Disk a b result → IfOk result (λ t. b.next ≡ next_stepped t a.next)
        → OnOk result (AddsItems 0 a.meta b.meta) → OnOk result (b.now.counted ≡ a.now.counted) → IfOk result (TakesItem a.meta b.meta)
        → Tries false first D.Disk a b (done_reclaim result) }
    ensures freed { (first : Image) (a b : View D) (result : Result EmptiedOf StoreFault) → Turns first D.Disk a b result → IfOk result (λ t. b.next ≡ next_emptied t a.next)
        → OnOk result (AddsItems 0 a.meta b.meta) → OnOk result (b.now.counted ≡ a.now.counted) → Tries false first D.Disk a b (done_freed result) }
    ensures unlinked { (first : Image) (a b : View D) (result : Result EmptiedOf StoreFault) → Turns first D.Disk a b result → IfOk result (λ t. b.next ≡ next_emptied t a.next)
        → OnOk result (AddsItems 1 a.meta b.meta) → OnOk result (b.now.counted ≡ a.now.counted) → Tries true first D.Disk a b (done_unlinked result) }
{}

/// A part that did nothing has read pages, and a part goes on behind it.
pub(crate) fn a_part_goes_on<D: Disk>()
    ensures behind { (may : Bool) (first : Image) (a b c : View D) (result : Result DoneOf StoreFault) → Tries may first D.Disk a b (Ok None) → Tries may first D.Disk b c result
        → Tries may first D.Disk a c result }
    ensures may { (may : Bool) (first : Image) (a b : View D) (result : Result DoneOf StoreFault) → Tries false first D.Disk a b result → Tries may first D.Disk a b result }
    ensures read { (may : Bool) (first : Image) (a b : View D) → Tries may first D.Disk a b (Ok None) → LeavesPage {T = DoneOf} first D.Disk a b (Ok None) }
    ensures starts { (may : Bool) (first : Image) (a : View D) → WhereSound first D.Disk (LeavesFront D.Disk a a) → a.stopped ≡ false → Tries may first D.Disk a a (Ok None) }
    ensures one { (may : Bool) (opens items : ℕ) (first : Image) (a b : View D) → Tries may first D.Disk a b (Ok None) → HasRoomForOne opens items a → HasRoomForOne opens items b }
    ensures room { (may some : Bool) (first : Image) (a b : View D) → Tries may first D.Disk a b (Ok None) → HasRoomFor some a → HasRoomFor some b }
{
    room_is_still_there::<D>();
    a_turn_goes_on::<D, Done, Done>();
}

/// A part goes on behind pages that were read; and where one wasn't read, that is the part.
pub(crate) fn a_part_reads<D: Disk, S>()
    ensures behind { (may : Bool) (first : Image) (a b c : View D) (x : S) (result : Result DoneOf StoreFault) → LeavesPage first D.Disk a b (Ok x) → Tries may first D.Disk b c result
        → Tries may first D.Disk a c result }
    ensures nothing { (may : Bool) (first : Image) (a b : View D) (x : S) → LeavesPage first D.Disk a b (Ok x) → Tries may first D.Disk a b (Ok None) }
    ensures unread { (may : Bool) (first : Image) (a b : View D) (e : StoreFault) (page : Result S StoreFault) → ReadsPages first D.Disk a b page → page ≡ Err e
        → Tries may first D.Disk a b (Err e) }
    ensures room { (some : Bool) (first : Image) (a b : View D) (x : S) → LeavesPage first D.Disk a b (Ok x) → HasRoomFor some a → HasRoomFor some b }
{
    room_is_still_there::<D>();
    a_turn_goes_on::<D, S, Done>();
}
