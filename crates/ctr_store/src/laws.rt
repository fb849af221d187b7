// How the redo of a log begins and ends, that what a crash leaves can be opened, and where strays come. A call does nothing: what it
// ensures is the law.
ghost use Rattle.std.specs.Prelude.{◌≡◌, ◌+◌, ℕ, List, [], length, take, ⊤, Result};
ghost use Rattle.ctr_disk.specs.Image.{Image};
ghost use Rattle.ctr_base.specs.redo_States.{State};
ghost use Rattle.ctr_base.specs.redo_Images.{FoldsFront, FoldsGrown, IsNewDatabase};
ghost use Rattle.ctr_rec.specs.declared.record.Record.{Record};
ghost use Rattle.ctr_base.specs.meta_Effects.{effect, tables_of};
ghost use Rattle.ctr_base.specs.declared.base.Base.{Base as Under};
ghost use Rattle.ctr_base.specs.Base.{stored_of, IsSoundImage, StandsQuiet};
ghost use Rattle.ctr_store.specs.declared.parts.Parts.{Parts as Whole};
ghost use Rattle.ctr_store.specs.Parts.{IsFold};
ghost use Rattle.ctr_store.specs.Redo.{StartsRedo, RedoesPages, IsNextRecord};
ghost use Rattle.ctr_store.specs.Store.{View, LeavesFront, MovesOn, MayLog, TakesRecord, CountsUp, StraysOnlyLong};
ghost use Rattle.ctr_disk.specs.declared.fault.StoreFault.{StoreFault};

use ctr_base::Origin;
use ctr_disk::Disk;

/// Over a log and homes on which nothing is pending, a pool without a page has redone none of the log's records. Once it has
/// redone all of them, and the tables are theirs, pages and tables are the fold of the log; each record takes the tables on by its effect.
pub fn redo_makes_the_fold<D: Disk, O: Origin>()
    ensures begins { (s : Whole D O) → StandsQuiet O.first D.Disk s.base → StartsRedo O.first D.Disk s.base → s.pool.frames ≡ [] → s.base.log.buffered ≡ [] → RedoesPages O.first D.Disk s.base 0 s }
    ensures tables { (start : Under D O) (n : ℕ) (r : Record) → IsNextRecord D.Disk start n r
        → effect r (tables_of (take n (stored_of D.Disk start).records)) ≡ tables_of (take (n + 1) (stored_of D.Disk start).records) }
    ensures ends { (start : Under D O) (n : ℕ) (s : Whole D O) → RedoesPages O.first D.Disk start n s → (IsSoundImage O.first → n ≡ length (stored_of D.Disk start).records)
        → (IsSoundImage O.first → s.meta.tables ≡ tables_of (take n (stored_of D.Disk start).records)) → IsFold O.first D.Disk s }
{}

/// What a crash leaves at any moment of a call is sound: it can be opened again, and isn't refused as damaged.
pub fn what_a_crash_leaves_is_sound()
    ensures front { (s : State) (rs : List Record) (image : Image) → FoldsFront s rs image → IsSoundImage image }
    ensures grown { (s : State) (image : Image) → FoldsGrown s image → IsSoundImage image }
    ensures made { (image : Image) → IsNewDatabase image → IsSoundImage image }
{}

/// However a call ends, strays come only where each image that a crash leaves of it has a file of the log of 2^62 bytes: of a call that
/// logs nothing and of one whose record was refused, behind which the log ends where it did; of one that logged a record; and of a growth,
/// in which none come.
pub fn strays_come_only_of_long_logs<D: Disk>()
    ensures call { (a b : View D) → LeavesFront D.Disk a b → MovesOn D.Disk a b → b.gate ≡ a.gate → StraysOnlyLong D.Disk a b }
    ensures logged { (r : Record) (lsn : ℕ) (a b : View D) → MayLog r a → LeavesFront D.Disk a b → MovesOn D.Disk a b → TakesRecord r lsn a b → StraysOnlyLong D.Disk a b }
    ensures growth { (a b : View D) (result : Result ⊤ StoreFault) → CountsUp D.Disk a b result → StraysOnlyLong D.Disk a b }
{}
