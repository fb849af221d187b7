// Pages as they stand at home.
ghost use Rattle.std.specs.Prelude.{◌≡◌, ◌≤◌, ◌<◌, Some, Ok, length, IfOk, IfErr, OnOk};
ghost use Rattle.ctr_disk.specs.declared.fault.StoreFault.TheVariants.{Fault};
ghost use Rattle.ctr_disk.specs.Device.{WhereTold, OnlyReads, CountsAs};
ghost use Rattle.ctr_redo.specs.home_Block_TheVariants.{Page};
ghost use Rattle.ctr_redo.specs.home_Blocks.{BlockValue, value_of, page_at_home};
ghost use Rattle.ctr_redo.specs.home_Reading.{IsMisnumbered, IsFaultOr};

use ctr_disk::{Disk, StoreFault};
use ctr_redo::{Block, read_home};

/// Reads a page of a disk in which so many pages are counted, as it stands at home, and answers its LSN. A page that isn't
/// counted is blank; one that is has its number there, or that is damage.
pub fn read_numbered<D: Disk>(
    disk: &mut D,
    counted: u32,
    page: u32,
    into: &mut [u8],
) -> Result<u64, StoreFault>
    requires { length into.old ≡ 4096 }
    ensures told { WhereTold D.Disk (IfOk result (λ lsn. page_at_home counted page (D.reads disk.old) ≡ record { lsn = lsn; bytes = into.new })) }
    ensures numbered { WhereTold D.Disk (page < counted → OnOk result ((v : BlockValue) → value_of (Page page) (D.reads disk.old) ≡ Some v → v.number ≡ page)) }
    ensures refused { WhereTold D.Disk (IfErr result (IsFaultOr (IsMisnumbered (Page page) (D.reads disk.old)))) }
    ensures uncounted { counted ≤ page → result ≡ Ok 0 }
    ensures quiet { OnlyReads D.Disk disk.old disk.new }
    ensures counts { CountsAs D.Disk Fault disk.old disk.new result }
{
    if page >= counted {
        into.fill(0);
        return Ok(0);
    }
    let stamp = read_home(disk, Block::Page(page), into)?;
    Ok(stamp.unwrap_or(0))
}
