// The version entries of a page.
ghost use Rattle.std.specs.Prelude.{◌≡◌, ◌≤◌, ◌<◌, length};
ghost use Rattle.ctr_page.specs.declared.table.TheConstants.{PAGE_SIZE};
ghost use Rattle.ctr_pvs.specs.Entries.{EndsFree};

use ctr_page::{BadPage, Use, check_version, kept_size, kinds_width, read_version, room_for};
use ctr_types::Kind;
use ctr_walk::PageSought;

/// A version entry that isn't used is sought.
#[derive(Clone, Copy, Debug, PartialEq, Eq)]
pub(crate) struct FreeEntry;

impl PageSought for FreeEntry {
    ghost ends = { λ _. EndsFree };

    fn search(&self, kinds: &[Kind], counted: u32, page: &[u8]) -> Result<Option<u16>, BadPage> {
        free_entry_on(kinds, counted, page)
    }
}

/// The first version entry of a page that isn't used, in rows whose columns behind the key are of these kinds, where so many pages are
/// counted; or the damage of the first that fails its checks. No version entry behind it is looked at. It takes no memory.
pub fn free_entry_on(kinds: &[Kind], counted: u32, page: &[u8]) -> Result<Option<u16>, BadPage>
    requires some { 0 < counted }
    requires few { length kinds.now ≤ 7 }
    requires whole { length page.now ≡ PAGE_SIZE }
    ensures { EndsFree kinds.now counted page.now result }
{
    let w = kinds_width(kinds);
    let count = room_for(kept_size(w)) as u16;
    for number in 0..count {
        check_version(kinds, counted, number, page)?;
        if read_version(page, w, number).used == Use::FREE {
            return Ok(Some(number));
        }
    }
    Ok(None)
}
