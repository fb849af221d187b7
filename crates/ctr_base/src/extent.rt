// Zeros over the homes of pages: before a root counts them they are blank.
ghost use Rattle.std.specs.Prelude.{◌≡◌, ◌≤◌, ◌*◌, ℕ, IsTrue, length, OnOk};
ghost use Rattle.ctr_disk.specs.Image.{Image};
ghost use Rattle.ctr_redo.specs.home_Root.{Root};
ghost use Rattle.ctr_disk.specs.Device.{WhereTold, LeavesOnly, IsDurable, IsSettled, Counts};
ghost use Rattle.ctr_redo.specs.home_Roots.{IsRoot};
ghost use Rattle.ctr_redo.specs.States.{state_of};
ghost use Rattle.ctr_redo.specs.Images.{stored_in, IsSound, CanCount};
ghost use Rattle.ctr_base.specs.declared.growing.TheConstants.{MOST_PAGES};
ghost use Rattle.ctr_base.specs.Extent.{KeepsPageBytes, AreCleared};

use ctr_disk::{Disk, Failed};
use ctr_types::File;

/// Writes zeros over the homes of the pages from one to below another, and syncs. A crash at any moment leaves
/// what stands before them as it was, and the other files. It takes no memory.
pub fn clear_pages<D: Disk>(disk: &mut D, from: u32, to: u32) -> Result<(), Failed>
    requires order { from ≤ to }
    requires low { to ≤ MOST_PAGES }
    requires long { IsTrue D.tells → 8256 * from ≤ length (D.reads disk.old).pages }
    ensures any_moment { IsSettled D.Disk disk.old → LeavesOnly D.Disk disk.old disk.new (KeepsPageBytes (8256 * from) (D.reads disk.old)) }
    ensures cleared { WhereTold D.Disk (OnOk result (AreCleared from to (D.reads disk.old) (D.reads disk.new))) }
    ensures durable { OnOk result (IsDurable D.Disk disk.new) }
    ensures counts { Counts D.Disk disk.old disk.new result }
{
    let mut page = from;
    while page < to {
        disk.write(File::Pages, page as u64 * 8256, &[0; 8256])?;
        page += 1;
    }
    disk.sync()
}

/// While pages behind the counted ones are cleared, whatever stands there then, an image stays sound and folds to the same
/// state. Once they are, a root that says the rest as before can count them.
pub fn clearing_leaves_the_state()
    ensures same { (root : Root) (old new : Image) → IsSound root old → KeepsPageBytes (8256 * root.pages) old new → IsSound root new × (state_of (stored_in root new) ≡ state_of (stored_in root old)) }
    ensures keeps { (from to : ℕ) (old new : Image) → from ≤ to → 8256 * from ≤ length old.pages → AreCleared from to old new → KeepsPageBytes (8256 * from) old new }
    ensures counts { (root more : Root) (old new : Image) → IsSound root old → IsRoot more → more.file ≡ root.file → more.first ≡ root.first → root.pages ≤ more.pages
        → AreCleared root.pages more.pages old new → CanCount root more new }
{}
