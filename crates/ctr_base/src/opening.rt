// The root of a disk, with which opening begins.
ghost use Rattle.std.specs.Prelude.{◌≡◌, ◌*◌, [], ◌∷◌, Ok, IfOk, IfErr, IfSome, OnOk, MatchResult};
ghost use Rattle.ctr_types.specs.declared.file.File.TheVariants.{Pages};
ghost use Rattle.ctr_disk.specs.declared.fault.StoreFault.TheVariants.{Fault};
ghost use Rattle.ctr_disk.specs.Image.{content};
ghost use Rattle.ctr_disk.specs.Device.{WhereTold, IsDurable, OnlyReads, CountsAs};
ghost use Rattle.ctr_redo.specs.home_Checks.{TellsApart, judged};
ghost use Rattle.ctr_redo.specs.home_Reading.{IsFaultOr};
ghost use Rattle.ctr_redo.specs.home_Roots.{IsRoot};
ghost use Rattle.ctr_base.specs.Opening.{size_check, FindsRoot, IsRootDamage};

use ctr_disk::{Disk, StoreFault};
use ctr_redo::{Check, Root, judge, read_root};
use ctr_types::File;

/// How many bytes of the file of pages each page has.
const PAGE_SIZE: u64 = 8256;

// The file of pages has all that are counted.
fn check_size<D: Disk>(disk: &mut D, pages: u32) -> Result<(), StoreFault>
    ensures row { WhereTold D.Disk (MatchResult result (λ _. judged Pages (size_check pages (content Pages (D.reads disk.old)) ∷ []) ≡ Ok tt)
        (IsFaultOr (λ e. judged Pages (size_check pages (content Pages (D.reads disk.old)) ∷ []) ≡ Err e))) }
    ensures differs { IfErr result TellsApart }
    ensures quiet { OnlyReads D.Disk disk.old disk.new }
    ensures counts { CountsAs D.Disk Fault disk.old disk.new result }
{
    let size = disk.size(File::Pages)?;
    let check = Check {
        at: 0,
        want: size.max(pages as u64 * PAGE_SIZE),
        got: size,
    };
    judge(File::Pages, &[check])
}

// The root and its checks, that of the file of pages behind them.
fn read_checked<D: Disk>(disk: &mut D) -> Result<Option<Root>, StoreFault>
    ensures found { WhereTold D.Disk (MatchResult result (FindsRoot (D.reads disk.old)) (IsFaultOr (IsRootDamage (D.reads disk.old)))) }
    ensures checked { IfOk result (λ o. IfSome o IsRoot) }
    ensures differs { IfErr result TellsApart }
    ensures quiet { OnlyReads D.Disk disk.old disk.new }
    ensures counts { CountsAs D.Disk Fault disk.old disk.new result }
{
    let Some(root) = read_root(disk)? else {
        return Ok(None);
    };
    check_size(disk, root.pages)?;
    Ok(Some(root))
}

/// Begins an opening, with a sync: answers the root of a disk whose checks pass and whose file of pages has all that
/// are counted; none exactly where no root home is open. It writes nothing.
pub fn find_root<D: Disk>(disk: &mut D) -> Result<Option<Root>, StoreFault>
    ensures found { WhereTold D.Disk (MatchResult result (FindsRoot (D.reads disk.old)) (IsFaultOr (IsRootDamage (D.reads disk.old)))) }
    ensures checked { IfOk result (λ o. IfSome o IsRoot) }
    ensures differs { IfErr result TellsApart }
    ensures quiet { OnlyReads D.Disk disk.old disk.new }
    ensures durable { OnOk result (IsDurable D.Disk disk.new) }
    ensures counts { CountsAs D.Disk Fault disk.old disk.new result }
{
    disk.sync()?;
    read_checked(disk)
}
