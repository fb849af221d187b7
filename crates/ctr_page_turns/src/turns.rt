// What turns leave, whatever their answers are called, and behind pages that were read.
ghost use Rattle.std.specs.Prelude.{◌≡◌, ◌∷◌, [], ℕ, Ok, Err, Result};
ghost use Rattle.ctr_disk.specs.Image.{Image};
ghost use Rattle.ctr_disk.specs.declared.fault.StoreFault.{StoreFault};
ghost use Rattle.ctr_rec.specs.declared.record.Record.{Record};
ghost use Rattle.ctr_walk.specs.base_Base.{WhereSound};
ghost use Rattle.ctr_walk.specs.store_Store.{View, Logs, LeavesFront, LeavesPage};
ghost use Rattle.ctr_walk.specs.Damage.{ReadsPages};
ghost use Rattle.ctr_walk.specs.OneRecord.{LogsOne};
ghost use Rattle.ctr_passed.specs.actions_Sites.{site_of};
ghost use Rattle.ctr_passed.specs.actions_Actions.{Action, Owes, site_after};
ghost use Rattle.ctr_passed.specs.Logged.{IsLaidAs};
ghost use Rattle.ctr_page_turns.specs.Turns.{CountsExtent, Turns};
ghost use Rattle.ctr_page_turns.specs.Acts.{ActsBy};

use ctr_disk::Disk;
use ctr_walk::{a_record_behind_a_page, pages_read_join};

/// A turn goes on behind pages that were read, and its answer may be told in other words.
pub fn a_turn_goes_on<D: Disk, S, T>()
    ensures behind { (first : Image) (a b c : View D) (x : S) (result : Result T StoreFault) → LeavesPage first D.Disk a b (Ok x) → Turns first D.Disk b c result → Turns first D.Disk a c result }
    // Where a page wasn't read, or those of a search, that is the turn.
    ensures lost { (first : Image) (a b : View D) (e : StoreFault) (page : Result S StoreFault) (result : Result T StoreFault)
        → LeavesPage first D.Disk a b page → page ≡ Err e → result ≡ Err e → Turns first D.Disk a b result }
    ensures unread { (first : Image) (a b : View D) (e : StoreFault) (page : Result S StoreFault) (result : Result T StoreFault)
        → ReadsPages first D.Disk a b page → page ≡ Err e → result ≡ Err e → Turns first D.Disk a b result }
    ensures answered { (first : Image) (a b : View D) (x : S) (y : T) → Turns first D.Disk a b (Ok x) → Turns first D.Disk a b (Ok y) }
    ensures failed { (first : Image) (a b : View D) (e : StoreFault) (result : Result S StoreFault) (told : Result T StoreFault)
        → Turns first D.Disk a b result → result ≡ Err e → told ≡ Err e → Turns first D.Disk a b told }
    // Behind pages that were read a record is logged, or more pages are counted.
    ensures logged { (first : Image) (a b c : View D) (x : S) (r : Record) (result : Result T StoreFault)
        → LeavesPage first D.Disk a b (Ok x) → LogsOne first D.Disk r b c result → Turns first D.Disk a c result }
    ensures grown { (first : Image) (a b c : View D) (x : S) (result : Result T StoreFault)
        → LeavesPage first D.Disk a b (Ok x) → WhereSound first D.Disk (LeavesFront D.Disk b b) → CountsExtent first D.Disk b c result → Turns first D.Disk a c result }
{
    pages_read_join::<D, S, T>();
    pages_read_join::<D, S, ()>();
    a_record_behind_a_page::<D, S, T>();
}

/// A record that is laid as an action of a transaction, which owes nothing more for it, is that action.
pub fn a_record_acts<D: Disk>()
    ensures { (x : ℕ) (a : Action) (r : Record) (v w : View D) → Logs (r ∷ []) v w → Owes x a (site_of v.now)
        → site_of w.now ≡ site_after x a (site_of v.now) → IsLaidAs a r v.now → ActsBy x a v.now w.now }
{}
