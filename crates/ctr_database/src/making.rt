// Makes a database.
ghost use Rattle.std.specs.Prelude.{◌≡◌, ◌≤◌, ◌⊎◌, [], IsSome, None, IfOk};
ghost use Rattle.ctr_types.specs.Faults.{HasFault};
ghost use Rattle.ctr_disk.specs.Device.{WhereTold, LeavesOnly, OnlyReads};
ghost use Rattle.ctr_disk.specs.Image.{Image};
ghost use Rattle.ctr_home.specs.declared.block.Block.TheVariants.{Root as RootBlock};
ghost use Rattle.ctr_home.specs.Blocks.{value_of};
ghost use Rattle.ctr_redo.specs.Images.{new_state};
ghost use Rattle.ctr_survey.specs.stops_Fronts.{rows_of_state};
ghost use Rattle.ctr_store.specs.Creating.{AnswersCreate, IsEmptyStore, disk_made, making_told};
ghost use Rattle.ctr_store.specs.declared.creating.CreateError.TheVariants.{Fault};
ghost use Rattle.ctr_database.specs.Database.{IsNewlyMade, IsNoneOrNewlyMade};

use ctr_area::new_database;
use ctr_disk::Disk;
use ctr_store::{CreateError, create as create_store};

/// What a new store's files hold is a database that can be opened, without tables. A call does nothing: what it ensures is the law.
pub fn a_new_database_is_empty()
    ensures stands { (image : Image) → IsEmptyStore image → IsNewlyMade image }
    ensures rows { rows_of_state new_state ≡ [] }
{
    new_database();
}

/// Makes the empty database on a disk where no root home is open. It begins with a sync; from there on a crash at any moment leaves no
/// open root home, or the empty database, which can be opened. It takes no memory.
pub fn create<D: Disk>(disk: D) -> Result<D, (CreateError, D)>
    ensures answer { WhereTold D.Disk (AnswersCreate (D.reads disk) result) }
    ensures untouched { WhereTold D.Disk (IsSome (value_of RootBlock (D.reads disk)) → OnlyReads D.Disk disk (disk_made result)) }
    ensures any_moment { WhereTold D.Disk (value_of RootBlock (D.reads disk) ≡ None
        → LeavesOnly D.Disk disk (disk_made result) (λ c. D.images disk c ⊎ IsNoneOrNewlyMade c)) }
    // At the end a crash leaves nothing else.
    ensures made { WhereTold D.Disk (IfOk result (λ d. (c : Image) → D.since d (D.moment_of d) c → IsNewlyMade c)) }
    ensures faults { HasFault Fault (D.faults_of disk) (D.faults_of (disk_made result)) (making_told result) }
    ensures moves { (D.moment_of disk ≤ D.moment_of (disk_made result)) × (D.strays_of (disk_made result) ≡ D.strays_of disk) }
{
    a_new_database_is_empty();
    create_store(disk)
}
