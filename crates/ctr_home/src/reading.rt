// Reads of a block: the value is in the open home with the greater stamp.
ghost use Rattle.std.specs.Prelude.{◌≡◌, ◌≢◌, ◌↔◌, ◌≤◌, ◌+◌, [], ◌∷◌, IsTrue, IsSome, length, slice_index, Some, None, Ok, IfOk, IfErr, OnOk};
ghost use Rattle.ctr_disk.specs.declared.fault.StoreFault.TheVariants.{Fault};
ghost use Rattle.ctr_disk.specs.Image.{content};
ghost use Rattle.ctr_disk.specs.Device.{OnlyReads, Counts, CountsAs};
ghost use Rattle.ctr_home.specs.declared.block.Block.TheVariants.{Page};
ghost use Rattle.ctr_bytes.specs.Fields.{field};
ghost use Rattle.ctr_home.specs.Blocks.{BlockValue, file_of, block_number, body_len, home_place, held_at, stamp_in, value_of, page_at_home, zero_bytes};
ghost use Rattle.ctr_home.specs.Checks.{TellsApart, check_of, judged};
ghost use Rattle.ctr_home.specs.Reading.{ReadsBlock, IsMisnumbered, IsFaultOr, FindsHome};

use crate::block::{Block, Home};
use crate::checks::{Check, judge};
use ctr_bytes::{get_u32, get_u64};
use ctr_disk::{Disk, Failed, Stamp, StoreFault};

/// Reads the value of a block into `into`, which has the length of its body, and answers its stamp;
/// zeros where neither home is open.
pub fn read_home<D: Disk>(
    disk: &mut D,
    block: Block,
    into: &mut [u8],
) -> Result<Option<Stamp>, StoreFault>
    requires { length into.old ≡ body_len block }
    ensures answer { IsTrue D.tells → ReadsBlock block (D.reads disk.old) into.new result }
    ensures differs { IfErr result TellsApart }
    ensures quiet { OnlyReads D.Disk disk.old disk.new }
    ensures counts { CountsAs D.Disk Fault disk.old disk.new result }
{
    let Some((home, stamp)) = find_home(disk, block)? else {
        clear(into);
        return Ok(None);
    };
    let number = read_number(disk, block, home)?;
    check_number(block, home, number)?;
    read_body(disk, block, home, into)?;
    Ok(Some(stamp))
}

// The number in a home is the block's.
fn check_number(block: Block, home: Home, number: u32) -> Result<(), StoreFault>
    ensures row { result ≡ judged (file_of block) (check_of (home_place block home + 1) (block_number block) number ∷ []) }
    ensures differs { IfErr result TellsApart }
{
    let check = Check {
        at: block.at(home) + 1,
        want: block.number() as u64,
        got: number as u64,
    };
    judge(block.file(), &[check])
}

/// Reads a page of a disk in which so many pages are counted, as it stands at home, and answers its
/// LSN. A page that isn't counted is blank, whatever stands in the file.
pub fn read_page<D: Disk>(
    disk: &mut D,
    counted: u32,
    page: u32,
    into: &mut [u8],
) -> Result<u64, StoreFault>
    requires { length into.old ≡ 4096 }
    ensures told { IsTrue D.tells → IfOk result (λ lsn. page_at_home counted page (D.reads disk.old) ≡ record { lsn = lsn; bytes = into.new }) }
    ensures refused { IsTrue D.tells → IfErr result (IsFaultOr (IsMisnumbered (Page page) (D.reads disk.old))) }
    ensures uncounted { counted ≤ page → result ≡ Ok 0 }
    ensures differs { IfErr result TellsApart }
    ensures quiet { OnlyReads D.Disk disk.old disk.new }
    ensures counts { CountsAs D.Disk Fault disk.old disk.new result }
{
    if page >= counted {
        clear(into);
        return Ok(0);
    }
    let stamp = read_home(disk, Block::Page(page), into)?;
    Ok(stamp.unwrap_or(0))
}

/// Fills the bytes with zeros.
pub fn clear(into: &mut [u8])
    ensures { into.new ≡ zero_bytes (length into.old) }
{
    into.fill(0);
}

/// Whether a home of a block is open.
pub fn is_open<D: Disk>(disk: &mut D, block: Block) -> Result<bool, Failed>
    ensures told { IsTrue D.tells → IfOk result (λ b. IsTrue b ↔ IsSome (value_of block (D.reads disk.old))) }
    ensures quiet { OnlyReads D.Disk disk.old disk.new }
    ensures counts { Counts D.Disk disk.old disk.new result }
{
    Ok(find_home(disk, block)?.is_some())
}

/// The home of a block's value and its stamp, where a home is open.
pub fn find_home<D: Disk>(disk: &mut D, block: Block) -> Result<Option<(Home, Stamp)>, Failed>
    ensures told { IsTrue D.tells → IfOk result (FindsHome block (content (file_of block) (D.reads disk.old))) }
    ensures quiet { OnlyReads D.Disk disk.old disk.new }
    ensures counts { Counts D.Disk disk.old disk.new result }
{
    let first = open_stamp(disk, block, Home::First)?;
    let second = open_stamp(disk, block, Home::Second)?;
    Ok(match (first, second) {
        (None, None) => None,
        (Some(a), None) => Some((Home::First, a)),
        (None, Some(b)) => Some((Home::Second, b)),
        (Some(a), Some(b)) => {
            if a < b {
                Some((Home::Second, b))
            } else {
                Some((Home::First, a))
            }
        }
    })
}

/// The stamp of a home, where that is open.
pub fn open_stamp<D: Disk>(disk: &mut D, block: Block, home: Home) -> Result<Option<Stamp>, Failed>
    ensures told { IsTrue D.tells → IfOk result (λ s. s ≡ stamp_in (held_at block home (content (file_of block) (D.reads disk.old)))) }
    ensures quiet { OnlyReads D.Disk disk.old disk.new }
    ensures counts { Counts D.Disk disk.old disk.new result }
{
    if disk.size(block.file())? < block.at(home) + block.home_len() as u64 {
        return Ok(None);
    }
    let mut head = [0; 13];
    disk.read(block.file(), block.at(home), &mut head)?;
    Ok(stamp_behind(&head))
}

// The stamp behind an open gate.
fn stamp_behind(head: &[u8; 13]) -> Option<Stamp>
    ensures open { slice_index head.now 0 ≡ 1 → result ≡ Some (field 8 5 head.now) }
    ensures shut { slice_index head.now 0 ≢ 1 → result ≡ None }
{
    if head[0] != 1 {
        return None;
    }
    Some(get_u64(head, 5))
}

/// The number that stands in a home.
pub fn read_number<D: Disk>(disk: &mut D, block: Block, home: Home) -> Result<u32, Failed>
    ensures told { (v : BlockValue) → IsTrue D.tells → held_at block home (content (file_of block) (D.reads disk.old)) ≡ Some v → IfOk result (λ n. n ≡ v.number) }
    ensures quiet { OnlyReads D.Disk disk.old disk.new }
    ensures counts { Counts D.Disk disk.old disk.new result }
{
    let mut bytes = [0; 4];
    disk.read(block.file(), block.at(home) + 1, &mut bytes)?;
    Ok(get_u32(&bytes, 0))
}

/// Reads the body that stands in a home.
pub fn read_body<D: Disk>(
    disk: &mut D,
    block: Block,
    home: Home,
    into: &mut [u8],
) -> Result<(), Failed>
    requires { length into.old ≡ body_len block }
    ensures told { (v : BlockValue) → IsTrue D.tells → held_at block home (content (file_of block) (D.reads disk.old)) ≡ Some v → OnOk result (into.new ≡ v.body) }
    ensures quiet { OnlyReads D.Disk disk.old disk.new }
    ensures counts { Counts D.Disk disk.old disk.new result }
{
    disk.read(block.file(), block.at(home) + 13, into)
}
