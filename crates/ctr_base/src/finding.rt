// The home of a page's value.
ghost use Rattle.std.specs.Prelude.{◌≡◌, ◌<◌, ◌^◌, Option, Err, IfOk, OnErr};
ghost use Rattle.ctr_types.specs.declared.file.File.TheVariants.{Pages};
ghost use Rattle.ctr_disk.specs.Image.{content};
ghost use Rattle.ctr_disk.specs.Device.{WhereTold, OnlyReads, Counts, CountsAs};
ghost use Rattle.ctr_disk.specs.declared.fault.StoreFault.TheVariants.{Fault};
ghost use Rattle.ctr_redo.specs.home_Block_TheVariants.{Page};
ghost use Rattle.ctr_redo.specs.home_Blocks.{BlockValue, held_at, stamp_in, greater, value_home, page_with};
ghost use Rattle.ctr_base.specs.Homes.{FindsValue};

use crate::base::Base;
use crate::origin::Origin;
use ctr_bytes::get_u64;
use ctr_disk::{Disk, Failed, Stamp, StoreFault};
use ctr_redo::{Block, Home, PageNo};
use ctr_types::File;

/// How many bytes each home of a page has.
const HOME: u64 = 4128;

// The stamp of a home of a page, where that is open.
fn stamp_at<D: Disk>(disk: &mut D, page: PageNo, home: Home) -> Result<Option<Stamp>, Failed>
    ensures told { WhereTold D.Disk (IfOk result (λ s. s ≡ stamp_in (held_at (Page page) home (content Pages (D.reads disk.old))))) }
    ensures quiet { OnlyReads D.Disk disk.old disk.new }
    ensures counts { Counts D.Disk disk.old disk.new result }
{
    let at = Block::Page(page).at(home);
    if disk.size(File::Pages)? < at + HOME {
        return Ok(None);
    }
    let mut head = [0; 13];
    disk.read(File::Pages, at, &mut head)?;
    if head[0] != 1 {
        return Ok(None);
    }
    Ok(Some(get_u64(&head, 5)))
}

// The home of the value, and its stamp, by those of the two homes that are open.
fn greater_of(first: Option<Stamp>, second: Option<Stamp>) -> (Home, Stamp)
    ensures home { result.0 ≡ value_home first second }
    ensures stamp { (a b : Option BlockValue) → first ≡ stamp_in a → second ≡ stamp_in b → result.1 ≡ (page_with (greater a b)).lsn }
{
    match (first, second) {
        (None, None) => (Home::First, 0),
        (Some(a), None) => (Home::First, a),
        (None, Some(b)) => (Home::Second, b),
        (Some(a), Some(b)) => {
            if a < b {
                (Home::Second, b)
            } else {
                (Home::First, a)
            }
        }
    }
}

impl<D: Disk, O: Origin> Base<D, O> {
    /// Where the home begins in the file of pages whose value a page has there, and the stamp of that value; the first home
    /// and 0 where none is open.
    pub fn find_value(&mut self, page: PageNo) -> Result<(u64, Stamp), StoreFault>
        ensures told { WhereTold D.Disk (IfOk result (FindsValue page (D.reads self.old.disk))) }
        ensures low { IfOk result (λ found. found.0 < 2 ^ 46) }
        ensures read { OnlyReads D.Disk self.old.disk self.new.disk }
        ensures same { self.new ≡ record self.old { disk = self.new.disk } }
        ensures refused { OnErr result (result ≡ Err Fault) }
        ensures counts { CountsAs D.Disk Fault self.old.disk self.new.disk result }
    {
        let first = stamp_at(&mut self.disk, page, Home::First)?;
        let second = stamp_at(&mut self.disk, page, Home::Second)?;
        let (home, stamp) = greater_of(first, second);
        Ok((Block::Page(page).at(home), stamp))
    }
}
