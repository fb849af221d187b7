// The entry of the table of a generated script.
ghost use Rattle.std.specs.Prelude.{◌≡◌, ◌<◌, false, IfOk, IfErr, IfSome};
ghost use Rattle.ctr_disk.specs.declared.fault.StoreFault.TheVariants.{Fault};
ghost use Rattle.ctr_base.specs.Base.{WhereSound};
ghost use Rattle.ctr_area.specs.Areas.{Title};
ghost use Rattle.ctr_area.specs.Images.{is_committed_in};
ghost use Rattle.ctr_record_effects.specs.States.{area_in};
ghost use Rattle.ctr_record_effects.specs.Standing.{IsDatabaseState};
ghost use Rattle.ctr_walk.specs.Damage.{ReadsPages};
ghost use Rattle.ctr_titles.specs.Titles.{IsTitle};
ghost use Rattle.ctr_totals.specs.Finding.{TellsLoad, FindsLoad};

use crate::facts::is_committed;
use ctr_base::Origin;
use ctr_disk::{Disk, StoreFault};
use ctr_meta::Meta;
use ctr_page::EntryState;
use ctr_store::Store;
use ctr_titles::{ShortName, TitleRead, title_at};

/// The entries of the catalog.
const ENTRIES: u8 = 32;

/// Whether the table of a title stands, and is named `load`.
fn is_load(meta: &Meta, title: &TitleRead) -> bool
    ensures { (there : Title) → IsTitle there title.now → TellsLoad (is_committed_in meta.now.tables) there result }
{
    if title.state != EntryState::LIVE {
        return false;
    }
    if !is_committed(meta, title.creator) || is_committed(meta, title.dropper) {
        return false;
    }
    title.name.is(&ShortName::new(b"load"))
}

/// The same of an entry of the catalog.
fn load_at<D: Disk, O: Origin>(store: &mut Store<D, O>, entry: u8) -> Result<bool, StoreFault>
    requires going { store.old.stopped ≡ false }
    requires there { entry < 32 }
    ensures tells { WhereSound O.first D.Disk (IfOk result (TellsLoad (is_committed_in store.old.now.tables) ((area_in store.old.now).title entry))) }
    ensures refused { WhereSound O.first D.Disk (IsDatabaseState store.old.now → IfErr result (λ e. e ≡ Fault)) }
    ensures leaves { ReadsPages O.first D.Disk store.old store.new result }
{
    match title_at(store, entry) {
        Err(fault) => Err(fault),
        Ok(title) => Ok(is_load(store.meta(), &title)),
    }
}

/// The entry whose table stands and is named `load`, if any. Each entry is checked as it is read. It logs nothing, and takes no memory.
pub(crate) fn find<D: Disk, O: Origin>(store: &mut Store<D, O>) -> Result<Option<u8>, StoreFault>
    requires going { store.old.stopped ≡ false }
    ensures finds { WhereSound O.first D.Disk (IfOk result (FindsLoad (is_committed_in store.old.now.tables) (area_in store.old.now))) }
    ensures there { IfOk result (λ found. IfSome found (λ e. e < 32)) }
    ensures refused { WhereSound O.first D.Disk (IsDatabaseState store.old.now → IfErr result (λ e. e ≡ Fault)) }
    ensures leaves { ReadsPages O.first D.Disk store.old store.new result }
{
    for entry in 0..ENTRIES {
        match load_at(store, entry) {
            Err(fault) => return Err(fault),
            Ok(true) => return Ok(Some(entry)),
            Ok(false) => {}
        }
    }
    Ok(None)
}
