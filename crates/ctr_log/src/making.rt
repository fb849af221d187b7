// Makes the logs of a new database.
ghost use Rattle.std.specs.Prelude.{OnOk};
ghost use Rattle.ctr_home.specs.disk_Device.{WhereTold, LeavesOnly, IsDurable, IsSettled, Counts};
ghost use Rattle.ctr_log.specs.Fresh.{LogsAreReady, AreEmptied, SameRoot};

use crate::log::write_batch;
use ctr_home::{Disk, Failed};
use ctr_types::File;

/// The log of a new database behind its first gate: one batch of one record, the checkpoint of
/// nothing, and a closed gate.
const FRESH: [u8; 63] = [
    42, 0, 0, 0, 0, 0, 0, 0, 1, 0, 0, 0, 0, 0, 0, 0, 1, 0, 0, 0, 34, 0, 0, 0, 0, 0, 0, 0, 1, 1, 0,
    0, 0, 0, 0, 0, 0, 0, 0, 0, 0, 0, 0, 0, 0, 0, 0, 0, 0, 0, 0, 0, 0, 0, 0, 0, 0, 0, 0, 0, 0, 0, 0,
];

/// Makes the logs of a new database, before its root: LogA with the one batch of the first checkpoint, and
/// LogB with none. A crash at any moment leaves the root and the pages as they were.
pub fn make_logs<D: Disk>(disk: &mut D) -> Result<(), Failed>
    ensures any_moment { IsSettled D.Disk disk.old → LeavesOnly D.Disk disk.old disk.new (SameRoot (D.reads disk.old)) }
    ensures made { WhereTold D.Disk (OnOk result (LogsAreReady (D.reads disk.old) (D.reads disk.new))) }
    ensures durable { OnOk result (IsDurable D.Disk disk.new) }
    ensures counts { Counts D.Disk disk.old disk.new result }
{
    empty_logs(disk)?;
    write_batch(disk, File::LogA, 0, &FRESH)
}

// Closes the first gate of both logs.
fn empty_logs<D: Disk>(disk: &mut D) -> Result<(), Failed>
    ensures any_moment { IsSettled D.Disk disk.old → LeavesOnly D.Disk disk.old disk.new (SameRoot (D.reads disk.old)) }
    ensures made { WhereTold D.Disk (OnOk result (AreEmptied (D.reads disk.old) (D.reads disk.new))) }
    ensures durable { OnOk result (IsDurable D.Disk disk.new) }
    ensures counts { Counts D.Disk disk.old disk.new result }
{
    disk.write(File::LogA, 0, &[0])?;
    disk.write(File::LogB, 0, &[0])?;
    disk.sync()
}
