// A write that is synced before it returns.
ghost use Rattle.std.specs.Prelude.{◌≡◌, ◌≤◌, ◌<◌, ◌+◌, IsTrue, length, OnOk};
ghost use Rattle.ctr_disk.specs.Image.{write_of, TornImage};
ghost use Rattle.ctr_types.specs.Faults.{HasCause};
ghost use Rattle.ctr_disk.specs.Crash.{Tears, HasStray, Ticks};
ghost use Rattle.ctr_disk.specs.Device.{LeavesOnly, IsDurable};

use crate::{Disk, Failed};
use ctr_types::File;

/// Writes bytes at a place of a file and syncs.
///
/// A crash at any moment of the call leaves what it might have left before, torn by this write.
pub fn write_through<D: Disk>(disk: &mut D, file: File, at: u64, bytes: &[u8]) -> Result<(), Failed>
    ensures told { IsTrue D.tells → OnOk result (D.reads disk.new ≡ write_of file at bytes.now (D.reads disk.old)) }
    ensures durable { OnOk result (IsDurable D.Disk disk.new) }
    ensures any_moment { LeavesOnly D.Disk disk.old disk.new (Tears file at (length bytes.now) (D.images disk.old)) }
    ensures torn { IsTrue D.tells → TornImage file at (length bytes.now) (D.reads disk.old) (D.reads disk.new) }
    ensures ticks { Ticks (D.moment_of disk.old) (D.moment_of disk.new) result }
    ensures cause { HasCause (D.faults_of disk.old) (D.faults_of disk.new) result }
    ensures stray { HasStray (D.strays_of disk.old) (D.strays_of disk.new) (at + length bytes.now) result }
{
    disk.write(file, at, bytes)?;
    disk.sync()
}
