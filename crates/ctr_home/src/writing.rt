// The writing of a block: its value stays in the one home while the other is written.
ghost use Rattle.std.specs.Prelude.{◌≡◌, ◌≤◌, ◌<◌, ◌+◌, ◌↔◌, ◌++◌, IsTrue, length, drop, Err, IfOk, OnOk, OnErr};
ghost use Rattle.ctr_disk.specs.declared.fault.StoreFault.TheVariants.{Fault};
ghost use Rattle.ctr_disk.specs.Image.{content};
ghost use Rattle.ctr_disk.specs.Device.{LeavesOnly, IsDurable, IsSettled, OnlyReads, Counts, CountsAs};
ghost use Rattle.ctr_bytes.specs.Fields.{spelled};
ghost use Rattle.ctr_home.specs.Blocks.{BlockValue, file_of, block_number, body_len, home_len, first_place, home_place, value_behind, behind_gate, value_of};
ghost use Rattle.ctr_home.specs.Writing.{IsAbove, chosen_in, IsShut, KeepsHome, MakesHome, KeepsOrMakesHome, IsOldOrNewValue, IsNewValue, with_body};

use crate::block::{Block, Home};
use crate::reading::{clear, open_stamp};
use ctr_bytes::{put_u32, put_u64};
use ctr_disk::{Disk, Failed, Stamp, StoreFault, write_through};

/// Writes a block, whose body this is, with a stamp above that of its value. A crash at any moment
/// leaves the old value or the new one, and all other blocks as they were.
pub fn write_home<D: Disk>(
    disk: &mut D,
    block: Block,
    stamp: Stamp,
    body: &[u8],
) -> Result<(), StoreFault>
    requires body { length body.now ≡ body_len block }
    // The file isn't shorter than the place of the first home.
    requires place { IsTrue D.tells → first_place block ≤ length (content (file_of block) (D.reads disk.old)) }
    requires above { IsTrue D.tells → IsAbove stamp (value_of block (D.reads disk.old)) }
    ensures any_moment { IsSettled D.Disk disk.old → LeavesOnly D.Disk disk.old disk.new (IsOldOrNewValue block (with_body block stamp body.now) (D.reads disk.old)) }
    ensures written { IsTrue D.tells → OnOk result (IsNewValue block (with_body block stamp body.now) (D.reads disk.old) (D.reads disk.new)) }
    ensures durable { OnOk result (IsDurable D.Disk disk.new) }
    ensures refused { OnErr result (result ≡ Err Fault) }
    ensures counts { CountsAs D.Disk Fault disk.old disk.new result }
{
    let home = choose_home(disk, block)?;
    shut_gate(disk, block, home)?;
    put_home(disk, block, home, stamp, body)?;
    Ok(())
}

// The home to write: the closed one, or the one with the smaller stamp.
fn choose_home<D: Disk>(disk: &mut D, block: Block) -> Result<Home, Failed>
    ensures told { IsTrue D.tells → IfOk result (λ h. h ≡ chosen_in block (content (file_of block) (D.reads disk.old))) }
    ensures quiet { OnlyReads D.Disk disk.old disk.new }
    ensures counts { Counts D.Disk disk.old disk.new result }
{
    let first = open_stamp(disk, block, Home::First)?;
    let second = open_stamp(disk, block, Home::Second)?;
    Ok(match (first, second) {
        (None, _) => Home::First,
        (Some(_), None) => Home::Second,
        (Some(a), Some(b)) => { if a < b { Home::First } else { Home::Second } }
    })
}

// Closes a gate that is open or lies past the file's end. Another gate isn't written: before the
// sync a written byte may be any, 1 too.
fn shut_gate<D: Disk>(disk: &mut D, block: Block, home: Home) -> Result<(), Failed>
    ensures any_moment { IsSettled D.Disk disk.old → home_place block home ≤ length (content (file_of block) (D.reads disk.old))
        → LeavesOnly D.Disk disk.old disk.new (KeepsHome block home (D.reads disk.old)) }
    ensures shut { IsTrue D.tells → home_place block home ≤ length (content (file_of block) (D.reads disk.old))
        → OnOk result (KeepsHome block home (D.reads disk.old) (D.reads disk.new) × IsShut block home (content (file_of block) (D.reads disk.new))) }
    ensures durable { IsDurable D.Disk disk.old → OnOk result (IsDurable D.Disk disk.new) }
    ensures counts { Counts D.Disk disk.old disk.new result }
{
    if is_shut(disk, block, home)? {
        return Ok(());
    }
    write_through(disk, block.file(), block.at(home), &[0])
}

fn is_shut<D: Disk>(disk: &mut D, block: Block, home: Home) -> Result<bool, Failed>
    ensures told { IsTrue D.tells → IfOk result (λ b. IsTrue b ↔ IsShut block home (content (file_of block) (D.reads disk.old))) }
    ensures quiet { OnlyReads D.Disk disk.old disk.new }
    ensures counts { Counts D.Disk disk.old disk.new result }
{
    if disk.size(block.file())? <= block.at(home) {
        return Ok(false);
    }
    let mut gate = [0];
    disk.read(block.file(), block.at(home), &mut gate)?;
    Ok(gate[0] != 1)
}

// Writes all but the gate, and then opens it.
fn put_home<D: Disk>(
    disk: &mut D,
    block: Block,
    home: Home,
    stamp: Stamp,
    body: &[u8],
) -> Result<(), Failed>
    requires { length body.now ≡ body_len block }
    ensures any_moment { IsSettled D.Disk disk.old → IsShut block home (content (file_of block) (D.reads disk.old))
        → LeavesOnly D.Disk disk.old disk.new (KeepsOrMakesHome block home (with_body block stamp body.now) (D.reads disk.old)) }
    ensures made { IsTrue D.tells → IsShut block home (content (file_of block) (D.reads disk.old))
        → OnOk result (MakesHome block home (with_body block stamp body.now) (D.reads disk.old) (D.reads disk.new)) }
    ensures durable { OnOk result (IsDurable D.Disk disk.new) }
    ensures counts { Counts D.Disk disk.old disk.new result }
{
    let mut bytes = [0; MOST_BEHIND];
    let behind = &mut bytes[..block.home_len() - 1];
    spell(block, stamp, body, behind);
    write_through(disk, block.file(), block.at(home) + 1, behind)?;
    write_through(disk, block.file(), block.at(home), &[1])
}

/// How many bytes a home has behind its gate at most: those of a page's.
const MOST_BEHIND: usize = 4127;

// The bytes behind the gate of a home.
fn spell(block: Block, stamp: Stamp, body: &[u8], behind: &mut [u8])
    requires body { length body.now ≡ body_len block }
    requires behind { length behind.old + 1 ≡ home_len block }
    ensures value { value_behind block behind.new ≡ with_body block stamp body.now }
    ensures whole { behind.new ≡ behind_gate block (with_body block stamp body.now) }
    ensures long { length behind.new + 1 ≡ home_len block }
{
    clear(behind);
    put_u32(behind, 0, block.number());
    put_u64(behind, 4, stamp);
    behind[12..12 + body.len()].copy_from_slice(body);
}
