// Making a database: its logs, blank pages, and the root last.
ghost use Rattle.std.specs.Prelude.{◌≡◌, ◌≤◌, ◌⊎◌, ◌↔◌, IsTrue, IsSome, None, Ok, Err, IfOk, OnOk, OnErr};
ghost use Rattle.ctr_types.specs.Faults.{HasFault};
ghost use Rattle.ctr_disk.specs.declared.fault.StoreFault.TheVariants.{Fault};
ghost use Rattle.ctr_disk.specs.Device.{WhereTold, LeavesOnly, IsDurable, IsSettled, OnlyReads, CountsAs};
ghost use Rattle.ctr_base.specs.ctr_home.declared.block.Block.TheVariants.{Root as RootBlock};
ghost use Rattle.ctr_base.specs.ctr_home.Blocks.{value_of};
ghost use Rattle.ctr_base.specs.redo_Images.{IsNewDatabase};
ghost use Rattle.ctr_store.specs.Creating.{IsNoneOrNew, IsEmptyStore, IsNoneOrEmptyStore, AnswersCreate, disk_made, making_told};
ghost use Rattle.ctr_store.specs.declared.creating.CreateError.TheVariants.{Fault as CreateFault};
ghost use Rattle.ctr_store.specs.declared.creating.Making.TheVariants.{Made, Exists};

use ctr_base::{Block, EXTENT, Root, clear_pages, is_open, make_logs, write_root};
use ctr_disk::{Disk, StoreFault};

/// No database was made.
#[derive(Clone, Copy, Debug, PartialEq, Eq)]
pub enum CreateError {
    /// A root home was open already, and nothing was written.
    Exists,
    /// The disk failed.
    Fault,
}

// How the making of a database ended.
enum Making {
    Made,
    // A root home was open already, and nothing was written.
    Exists,
}

// On a disk on which nothing is pending and no root home is open: the logs, the pages, the root last.
fn lay<D: Disk>(disk: &mut D) -> Result<(), StoreFault>
    requires { IsTrue D.tells → value_of RootBlock (D.reads disk.old) ≡ None }
    ensures any_moment { IsSettled D.Disk disk.old → LeavesOnly D.Disk disk.old disk.new IsNoneOrNew }
    ensures made { WhereTold D.Disk (OnOk result (IsNewDatabase (D.reads disk.new))) }
    ensures durable { OnOk result (IsDurable D.Disk disk.new) }
    ensures refused { OnErr result (result ≡ Err Fault) }
    ensures counts { CountsAs D.Disk Fault disk.old disk.new result }
{
    make_logs(disk)?;
    clear_pages(disk, 0, EXTENT)?;
    let root = Root {
        stamp: 1,
        format: 1,
        file: 0,
        first: 1,
        pages: EXTENT,
    };
    write_root(disk, &root)
}

// The same where no root home is open.
fn make<D: Disk>(disk: &mut D) -> Result<Making, StoreFault>
    ensures exists { WhereTold D.Disk (IfOk result (λ end. (end ≡ Exists) ↔ IsSome (value_of RootBlock (D.reads disk.old)))) }
    ensures untouched { WhereTold D.Disk (IsSome (value_of RootBlock (D.reads disk.old)) → OnlyReads D.Disk disk.old disk.new) }
    ensures any_moment { WhereTold D.Disk (value_of RootBlock (D.reads disk.old) ≡ None → LeavesOnly D.Disk disk.old disk.new (λ c. D.images disk.old c ⊎ IsNoneOrNew c)) }
    ensures made { WhereTold D.Disk (result ≡ Ok Made → IsNewDatabase (D.reads disk.new)) }
    ensures durable { OnOk result (IsDurable D.Disk disk.new) }
    ensures refused { OnErr result (result ≡ Err Fault) }
    ensures counts { CountsAs D.Disk Fault disk.old disk.new result }
{
    disk.sync()?;
    if is_open(disk, Block::Root)? {
        return Ok(Making::Exists);
    }
    lay(disk)?;
    Ok(Making::Made)
}

/// Makes an empty database on a disk where no root home is open. It begins with a sync; from there on a crash at any
/// moment leaves no open root home, or the empty database. It takes no memory.
pub fn create<D: Disk>(disk: D) -> Result<D, (CreateError, D)>
    ensures answer { WhereTold D.Disk (AnswersCreate (D.reads disk) result) }
    ensures untouched { WhereTold D.Disk (IsSome (value_of RootBlock (D.reads disk)) → OnlyReads D.Disk disk (disk_made result)) }
    ensures any_moment { WhereTold D.Disk (value_of RootBlock (D.reads disk) ≡ None → LeavesOnly D.Disk disk (disk_made result) (λ c. D.images disk c ⊎ IsNoneOrEmptyStore c)) }
    ensures made { WhereTold D.Disk (IfOk result (λ d. IsEmptyStore (D.reads d))) }
    ensures durable { IfOk result (IsDurable D.Disk) }
    ensures faults { HasFault CreateFault (D.faults_of disk) (D.faults_of (disk_made result)) (making_told result) }
    // The clock doesn't go back, and no call goes past the last place of a file.
    ensures moves { (D.moment_of disk ≤ D.moment_of (disk_made result)) × (D.strays_of (disk_made result) ≡ D.strays_of disk) }
{
    let mut disk = disk;
    match make(&mut disk) {
        Ok(Making::Made) => Ok(disk),
        Ok(Making::Exists) => Err((CreateError::Exists, disk)),
        Err(_) => Err((CreateError::Fault, disk)),
    }
}
