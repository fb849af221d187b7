// The Checkpoint that begins a generation of the log: the tables as they are kept.
ghost use Rattle.std.specs.Prelude.{◌≡◌, ◌≤◌, ◌<◌, ◌+◌, ◌*◌, ◌^◌, [], Ok, Err, length, IfOk, IfErr, OnOk, ⊤};
ghost use Rattle.std.specs.List.{AllByRecursion};
ghost use Rattle.ctr_base.specs.log_Kept.{next_file};
ghost use Rattle.ctr_rec.specs.Damage.{at_most};
ghost use Rattle.ctr_rec.specs.Members.{XidFits, item_xid};
ghost use Rattle.ctr_store.specs.declared.checkpoint.Unmade.TheVariants.{OutOfMemory as NoMemory, Unfit};
ghost use Rattle.ctr_store.specs.Checkpoints.{heads_need, checkpoint_need, SpellsTables, IsUnmade};

use ctr_base::Meta;
use ctr_rec::{BadRecord, SlogItem, encode_checkpoint};
use ctr_types::{File, OutOfMemory, Xid};
use std::alloc::Global;

/// How many heads a transaction has at most that a Checkpoint lists.
const MOST_HEADS: u64 = 1 << 62;

/// More transactions than memory can have.
const MOST_XIDS: usize = 1 << 58;

/// Where the first record of a generation stands in its file.
pub const FIRST_PLACE: u64 = 29;

/// Why a Checkpoint wasn't made.
#[derive(Debug, Drop)]
pub enum Unmade {
    OutOfMemory,
    /// The row that the tables fail.
    Unfit(BadRecord),
}

impl From<OutOfMemory> for Unmade {
    ghost from_gives = { λ e r. r ≡ NoMemory };

    fn from(_: OutOfMemory) -> Unmade {
        Unmade::OutOfMemory
    }
}

impl From<BadRecord> for Unmade {
    ghost from_gives = { λ e r. r ≡ Unfit e };

    fn from(bad: BadRecord) -> Unmade {
        Unmade::Unfit(bad)
    }
}

/// The file of a generation behind one in this file.
pub fn file_behind(file: File) -> File
    ensures { result ≡ next_file file }
{
    match file {
        File::LogA => File::LogB,
        _ => File::LogA,
    }
}

#[tactic(auto, unfolding(ctr_rec::specs::Damage::at_most))]
fn check_few(at: u64, heads: u64) -> Result<(), BadRecord>
    ensures { result ≡ at_most at (2 ^ 62) heads }
{
    if MOST_HEADS < heads {
        return Err(BadRecord {
            at,
            want: MOST_HEADS as u128,
            got: heads as u128,
        });
    }
    Ok(())
}

// The heads of transactions are few enough for a Checkpoint, in which those of the first stand at this place.
fn check_heads(pairs: &[(Xid, u64)], at: u64) -> Result<(), BadRecord>
    requires { at + 16 * length pairs.now < 2 ^ 64 }
    ensures { result ≡ heads_need at pairs.now }
{
    let mut place = at;
    for pair in pairs {
        check_few(place, pair.1)?;
        place += 16;
    }
    Ok(())
}

// The transaction of an item, 0 where it has none.
fn xid_of(item: &SlogItem) -> Xid
    ensures { result ≡ item_xid item.now }
{
    match *item {
        SlogItem::AllocOf(x, _) => x,
        SlogItem::FreeOf(_) => 0,
        SlogItem::CreateOf(x, _) => x,
        SlogItem::DropOf(x, _) => x,
    }
}

// How many items there are. The transaction of each is a number of 8 bytes.
fn count_items(items: &[SlogItem]) -> usize
    ensures count { result ≡ length items.now }
    ensures fit { AllByRecursion XidFits items.now }
{
    for item in items {
        let _x = xid_of(item);
    }
    items.len()
}

/// The bytes of the Checkpoint of tables, where each transaction has 2^62 heads at most.
pub fn spell_checkpoint(alloc: Global, meta: &Meta) -> Result<Vec<u8>, Unmade>
    requires { meta.now.tables.next ≤ 2 ^ 63 + 2 ^ 62 }
    ensures made { IfOk result (λ v. SpellsTables meta.now.tables v.items) }
    ensures fits { OnOk result (checkpoint_need meta.now.tables ≡ Ok tt) }
    ensures unmade { IfErr result (IsUnmade meta.now.tables) }
{
    let opens = meta.opens(alloc)?;
    let aborted = meta.aborted(alloc)?;
    if opens.len() >= MOST_XIDS || aborted.len() >= MOST_XIDS {
        return Err(Unmade::OutOfMemory);
    }
    check_heads(&opens, 25)?;
    check_heads(&aborted, 33 + 16 * opens.len() as u64)?;
    let _count = count_items(meta.items());
    let bytes = encode_checkpoint(alloc, meta.next(), &opens, &aborted, meta.items())?;
    Ok(bytes)
}
