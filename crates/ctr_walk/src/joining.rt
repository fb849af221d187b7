// A page that is read, and a call behind it.
ghost use Rattle.std.specs.Prelude.{◌≡◌, false, [], Ok, Err, Result, List, ℕ};
ghost use Rattle.ctr_disk.specs.Image.{Image};
ghost use Rattle.ctr_disk.specs.declared.fault.StoreFault.{StoreFault};
ghost use Rattle.ctr_record_effects.specs.rec_Record.{Record};
ghost use Rattle.ctr_store.specs.Store.{View, LeavesFront, MovesOn, Logs, MayLog, KeepsRoom, LeavesPage};
ghost use Rattle.ctr_walk.specs.OneRecord.{LogsOne, AnswersLog};

use ctr_disk::{Disk, StoreFault};
use ctr_store::{Lsn, Origin, Record as LogRecord, Store};

/// Behind a page that was read another call goes on from what stood before: what a crash leaves, what is logged, and
/// the room that is kept are those of both together.
pub fn pages_read_join<D: Disk, S, T>()
    ensures moments { (a b c : View D) → Logs [] a b → MovesOn D.Disk a b → LeavesFront D.Disk a b → LeavesFront D.Disk b c → LeavesFront D.Disk a c }
    ensures logs { (rs : List Record) (a b c : View D) → Logs [] a b → Logs rs b c → Logs rs a c }
    ensures room { (a b c : View D) → KeepsRoom a b → KeepsRoom b c → KeepsRoom a c }
    ensures time { (a b c : View D) → MovesOn D.Disk a b → MovesOn D.Disk b c → MovesOn D.Disk a c }
    // Another page that is read, or isn't.
    ensures pages { (first : Image) (x : S) (a b c : View D) (result : Result T StoreFault)
        → LeavesPage first D.Disk a b (Ok x) → LeavesPage first D.Disk b c result → LeavesPage first D.Disk a c result }
{}

/// A record that is logged behind a page that was read: what may be logged before the reading may be logged behind it, and
/// what both calls leave together is one record, or why there is none.
pub fn a_record_behind_a_page<D: Disk, S, T>()
    ensures may { (r : Record) (a b : View D) → KeepsRoom a b → b.stopped ≡ false → MayLog r a → MayLog r b }
    ensures logged { (first : Image) (r : Record) (a b c : View D) (x : S) (y : T) (lsn : ℕ)
        → LeavesPage first D.Disk a b (Ok x) → AnswersLog first D.Disk r b c (Ok lsn) → LogsOne first D.Disk r a c (Ok y) }
    ensures refused { (first : Image) (r : Record) (a b c : View D) (x : S) (e : StoreFault) (result : Result T StoreFault)
        → LeavesPage first D.Disk a b (Ok x) → AnswersLog first D.Disk r b c (Err e) → result ≡ Err e → LogsOne first D.Disk r a c result }
    // Where the page wasn't read nothing is logged.
    ensures unread { (first : Image) (r : Record) (a b : View D) (e : StoreFault) (page : Result S StoreFault) (result : Result T StoreFault)
        → LeavesPage first D.Disk a b page → page ≡ Err e → result ≡ Err e → LogsOne first D.Disk r a b result }
    // A call that logs one record, behind a page that was read, leaves one record.
    ensures behind { (first : Image) (r : Record) (a b c : View D) (x : S) (result : Result T StoreFault)
        → LeavesPage first D.Disk a b (Ok x) → LogsOne first D.Disk r b c result → LogsOne first D.Disk r a c result }
{}

/// Adds a record to a store, and answers its number: all that is answered of it is one fact.
pub fn log_record<D: Disk, O: Origin>(
    store: &mut Store<D, O>,
    rec: &LogRecord,
) -> Result<Lsn, StoreFault>
    requires { MayLog rec.now store.old }
    ensures { AnswersLog O.first D.Disk rec.now store.old store.new result }
{
    store.log(rec)
}
