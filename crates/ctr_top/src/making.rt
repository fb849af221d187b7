// Makes the empty database.
ghost use Rattle.std.specs.Prelude.{◌≢◌, ◌≤◌};
ghost use Rattle.ctr_top.specs.declared.ending.Ending.TheVariants.{OutOfMemory};
ghost use Rattle.ctr_top.specs.Top.{Makes};

use crate::ending::made;
use crate::outcome::Outcome;
use ctr_database::create;
use ctr_disk::Disk;
use std::alloc::Global;

/// Makes the empty database on a disk that has none.
pub fn make<D: Disk>(alloc: Global, disk: D) -> Outcome<D>
    ensures makes { Makes D.Disk disk result }
    // It takes no memory.
    ensures taken { result.ending ≢ OutOfMemory }
    ensures faults { D.faults_of disk ≤ D.faults_of result.left.disk }
    ensures later { D.moment_of disk ≤ D.moment_of result.left.disk }
{
    match create(disk) {
        Ok(disk) => Outcome::without_tape(alloc, made(Ok(())), disk),
        Err((error, disk)) => Outcome::without_tape(alloc, made(Err(error)), disk),
    }
}
