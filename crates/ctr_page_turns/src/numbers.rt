// What a turn was, as the log's next number tells it.
ghost use Rattle.std.specs.Prelude.{◌≡◌, ◌+◌, false, Ok, Result};
ghost use Rattle.ctr_types.specs.Faults.{HasFault};
ghost use Rattle.ctr_disk.specs.declared.fault.StoreFault.{StoreFault};
ghost use Rattle.ctr_disk.specs.declared.fault.StoreFault.TheVariants.{Fault};
ghost use Rattle.ctr_disk.specs.Image.{Image};
ghost use Rattle.ctr_walk.specs.base_Base.{WhereSound};
ghost use Rattle.ctr_walk.specs.store_Store.{View, LeavesFront};
ghost use Rattle.ctr_page_turns.specs.Turns.{LogsSome, CountsBehind, Turns, LogsAtRest, RestsBehind};

use ctr_disk::Disk;
use ctr_walk::a_fault_of_reading_is_counted;

/// What a turn was that answered: where it took the log's next number it logged one record; where it took none it read pages, if the state is
/// the one before, or else counted more.
pub fn a_turn_is_told_by_its_number<D: Disk, T>()
    ensures logged { (first : Image) (a b : View D) (x : T) → WhereSound first D.Disk (Turns first D.Disk a b (Ok x) → b.next ≡ a.next + 1
        → LeavesFront D.Disk b b → LogsAtRest D.Disk a b) }
    ensures read { (first : Image) (a b : View D) (x : T) → WhereSound first D.Disk (Turns first D.Disk a b (Ok x) → b.next ≡ a.next → b.now ≡ a.now
        → LeavesFront D.Disk b b → RestsBehind D.Disk a b) }
    ensures grown { (first : Image) (a b : View D) (x : T) → Turns first D.Disk a b (Ok x) → b.next ≡ a.next → (b.now.counted ≡ a.now.counted → ⊥)
        → CountsBehind first D.Disk a b (Ok x) }
    // A call that logs one record, or says why not, takes the number by itself.
    ensures one { (first : Image) (a b : View D) (x : T) → WhereSound first D.Disk (LogsSome first D.Disk a b (Ok x) → LeavesFront D.Disk b b
        → LogsAtRest D.Disk a b) }
{}

/// Behind a turn that answered the store isn't stopped, and a fault is told where the disk counts one more.
pub fn a_turn_goes_or_counts_a_fault<D: Disk, T>()
    ensures going { (first : Image) (a b : View D) (x : T) → Turns first D.Disk a b (Ok x) → b.stopped ≡ false }
    ensures faults { (first : Image) (a b : View D) (result : Result T StoreFault) → Turns first D.Disk a b result
        → HasFault Fault (D.faults_of a.disk) (D.faults_of b.disk) result }
{
    a_fault_of_reading_is_counted::<D, T>();
}
