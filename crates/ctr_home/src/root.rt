// The root: which file has the oldest generation of the log that is kept, and how many pages count.
ghost use Rattle.std.specs.Prelude.{◌≡◌, ◌≤◌, IsTrue, Err, IfOk, IfErr, IfSome, OnOk, OnErr};
ghost use Rattle.ctr_disk.specs.types_File.TheVariants.{Root as RootFile};
ghost use Rattle.ctr_disk.specs.declared.fault.StoreFault.TheVariants.{Fault};
ghost use Rattle.ctr_disk.specs.Device.{LeavesOnly, IsDurable, IsSettled, OnlyReads, CountsAs};
ghost use Rattle.ctr_home.specs.declared.block.Block.TheVariants.{Root as RootBlock};
ghost use Rattle.ctr_home.specs.Blocks.{value_of};
ghost use Rattle.ctr_home.specs.Checks.{TellsApart, bounded, check_of, judged};
ghost use Rattle.ctr_home.specs.Roots.{ReadsRoot, IsRoot, SaysOrRefuses, root_body, root_block, root_checks};
ghost use Rattle.ctr_home.specs.Writing.{IsAbove, IsOldOrNewValue, IsNewValue};

use crate::block::{Block, Home};
use crate::checks::{Check, judge};
use crate::reading::{find_home, read_body, read_number};
use crate::writing::write_home;
use ctr_bytes::{get_u8, get_u32, get_u64, put_u8, put_u32, put_u64};
use ctr_disk::{Disk, File, Stamp, StoreFault};

/// The bytes `CTRDB001` as a number in 8 bytes.
const MAGIC: u64 = 0x3130_3042_4452_5443;

/// The version of the format of the files.
const FORMAT: u32 = 1;

/// How many pages are counted at least: as many as a database is made with.
const LEAST_PAGES: u64 = 64;

/// How many pages are counted at most.
const MOST_PAGES: u64 = 30_000;

/// What the value of the root says.
#[derive(Clone, Copy, Debug, PartialEq, Eq)]
pub struct Root {
    pub stamp: Stamp,
    /// The version of the format of the files.
    pub format: u32,
    /// The file of the oldest generation of the log that is kept: 0 for LogA, 1 for LogB.
    pub file: u8,
    /// The first LSN of that generation.
    pub first: u64,
    /// How many pages are counted.
    pub pages: u32,
}

/// Reads the root, where a home of it is open.
pub fn read_root<D: Disk>(disk: &mut D) -> Result<Option<Root>, StoreFault>
    ensures answer { IsTrue D.tells → ReadsRoot (D.reads disk.old) result }
    ensures checked { IfOk result (λ o. IfSome o IsRoot) }
    ensures differs { IfErr result TellsApart }
    ensures quiet { OnlyReads D.Disk disk.old disk.new }
    ensures counts { CountsAs D.Disk Fault disk.old disk.new result }
{
    let Some((home, stamp)) = find_home(disk, Block::Root)? else {
        return Ok(None);
    };
    let number = read_number(disk, Block::Root, home)?;
    let mut body = [0; 25];
    read_body(disk, Block::Root, home, &mut body)?;
    let root = root_of(Block::Root.at(home), number, stamp, &body)?;
    Ok(Some(root))
}

// The root that a value says, whose home begins at a place, where its checks pass.
fn root_of(home: u64, number: u32, stamp: Stamp, body: &[u8; 25]) -> Result<Root, StoreFault>
    requires { home ≤ 64 }
    ensures answer { SaysOrRefuses home (record { number = number; stamp = stamp; body = body.now }) result }
    ensures differs { IfErr result TellsApart }
{
    check_root(home, number, stamp, body)?;
    Ok(Root {
        stamp,
        format: get_u32(body, 8),
        file: get_u8(body, 12),
        first: get_u64(body, 13),
        pages: get_u32(body, 21),
    })
}

// The checks in their order.
fn check_root(home: u64, number: u32, stamp: Stamp, body: &[u8; 25]) -> Result<(), StoreFault>
    requires { home ≤ 64 }
    ensures row { result ≡ judged RootFile (root_checks home (record { number = number; stamp = stamp; body = body.now })) }
    ensures differs { IfErr result TellsApart }
{
    let first = get_u64(body, 13);
    let pages = get_u32(body, 21) as u64;
    let checks = [
        check(home + 1, 0, number as u64),
        check(home + 13, MAGIC, get_u64(body, 0)),
        check(home + 21, FORMAT as u64, get_u32(body, 8) as u64),
        inside(home + 25, 0, 1, get_u8(body, 12) as u64),
        inside(home + 26, 1, 1 << 63, first),
        inside(home + 34, LEAST_PAGES, MOST_PAGES, pages),
        inside(home + 5, 0, first.saturating_add(pages), stamp),
    ];
    judge(File::Root, &checks)
}

fn check(at: u64, want: u64, got: u64) -> Check
    ensures { result ≡ check_of at want got }
{
    Check { at, want, got }
}

// The number at a place is in these bounds.
fn inside(at: u64, least: u64, most: u64, got: u64) -> Check
    ensures { result ≡ check_of at (bounded least most got) got }
{
    Check {
        at,
        want: got.min(most).max(least),
        got,
    }
}

/// Writes the root, with a stamp above that of its value. A crash at any moment leaves the old or
/// the new value.
pub fn write_root<D: Disk>(disk: &mut D, root: &Root) -> Result<(), StoreFault>
    requires { IsTrue D.tells → IsAbove root.now.stamp (value_of RootBlock (D.reads disk.old)) }
    ensures any_moment { IsSettled D.Disk disk.old → LeavesOnly D.Disk disk.old disk.new (IsOldOrNewValue RootBlock (root_block root.now) (D.reads disk.old)) }
    ensures written { IsTrue D.tells → OnOk result (IsNewValue RootBlock (root_block root.now) (D.reads disk.old) (D.reads disk.new)) }
    ensures durable { OnOk result (IsDurable D.Disk disk.new) }
    ensures refused { OnErr result (result ≡ Err Fault) }
    ensures counts { CountsAs D.Disk Fault disk.old disk.new result }
{
    let body = spell_root(root);
    write_home(disk, Block::Root, root.stamp, &body)
}

fn spell_root(root: &Root) -> [u8; 25]
    ensures { result ≡ root_body root.now }
{
    let mut body = [0; 25];
    put_u64(&mut body, 0, MAGIC);
    put_u32(&mut body, 8, root.format);
    put_u8(&mut body, 12, root.file);
    put_u64(&mut body, 13, root.first);
    put_u32(&mut body, 21, root.pages);
    body
}
