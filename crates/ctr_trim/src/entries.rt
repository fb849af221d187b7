// What is left of a version entry behind which its chain is cut, and its bytes.
ghost use Rattle.std.specs.Prelude.{◌≡◌, ◌≤◌, length, take};
ghost use Rattle.ctr_page.specs.Making.{kept_bytes, IsEntry};
ghost use Rattle.ctr_pvs.specs.Lending.{entry_lent};
ghost use Rattle.ctr_trim.specs.Cutting.{entry_left, IsBytesOfEntry};

use ctr_page::{Place, VersionEntry, make_version};
use ctr_pvs::LentVersion;

/// The most bytes of a version entry.
pub(crate) const ENTRY_MOST: usize = 2_072;

/// The place that names none.
const NOWHERE: Place = Place { page: 0, slot: 0 };

/// What is laid over a version entry.
#[derive(Drop)]
pub(crate) struct EntryLaid {
    /// The width of its rows.
    pub(crate) w: usize,
    /// How many bytes it has.
    pub(crate) size: usize,
    /// Its bytes, at the front of others.
    pub(crate) bytes: [u8; ENTRY_MOST],
}

/// A version entry that leads nowhere.
fn cut(entry: VersionEntry) -> VersionEntry
    ensures { result ≡ entry_left entry.entry }
{
    let VersionEntry {
        used,
        key,
        version,
        older: _,
    } = entry;
    VersionEntry {
        used,
        key,
        version,
        older: NOWHERE,
    }
}

/// The bytes of a version entry that is lent, where it leads nowhere.
pub(crate) fn cut_bytes(lent: &LentVersion) -> EntryLaid
    requires width { length lent.now.payload.now ≤ 2048 }
    requires fits { IsEntry (length lent.now.payload.now) (entry_lent lent.now) }
    ensures { IsBytesOfEntry (entry_lent lent.now) result }
{
    let w = lent.payload.len();
    let entry = cut(lent.entry());
    let mut bytes = [0; ENTRY_MOST];
    let size = make_version(w, &entry, &mut bytes);
    EntryLaid { w, size, bytes }
}
