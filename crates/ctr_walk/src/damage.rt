// Damage of pages, told where it stands in the file of pages.
ghost use Rattle.std.specs.Prelude.{◌≡◌, ◌<◌, ◌^◌, false, IsTrue, Err, Result, OnOk, ⊤};
ghost use Rattle.ctr_types.specs.Faults.{HasFault};
ghost use Rattle.ctr_disk.specs.Image.{Image};
ghost use Rattle.ctr_disk.specs.declared.fault.StoreFault.{StoreFault};
ghost use Rattle.ctr_disk.specs.declared.fault.StoreFault.TheVariants.{Fault};
ghost use Rattle.ctr_store.specs.ctr_home.Reading.{IsFaultOr};
ghost use Rattle.ctr_store.specs.base_Base.{WhereSound, IsSoundImage};
ghost use Rattle.ctr_store.specs.Store.{View, LeavesPage};
ghost use Rattle.ctr_walk.specs.Damage.{damaged_page, damage_behind, damage_told, searched, TellsFound, ReadsPages};

use crate::fault::SearchFault;
use ctr_disk::{Disk, StoreFault};
use ctr_record_effects::BadChain;
use ctr_store::{Origin, PageNo, Store};
use ctr_types::{Damage, File};

// The page that damage is told of.
fn page_of(bad: BadChain) -> PageNo
    ensures { result ≡ damaged_page bad }
{
    match bad {
        BadChain::OnPage(page, _) => page,
        BadChain::TooLong { last, most: _ } => last,
    }
}

// Damage of a page whose home begins at this place.
fn damage_at(home: u64, bad: BadChain) -> StoreFault
    requires { home < 2 ^ 46 }
    ensures { result ≡ damage_behind home bad }
{
    match bad {
        BadChain::OnPage(_, bad) => StoreFault::Damaged(Damage {
            file: File::Pages,
            at: (home + 13).saturating_add(bad.at),
            want: bad.want,
            got: bad.got,
        }),
        BadChain::TooLong { last: _, most } => StoreFault::Damaged(Damage {
            file: File::Pages,
            at: home,
            want: most as u128,
            got: most as u128 + 1,
        }),
    }
}

// Damage that was found on a page of a store; or that of the reading of its home.
fn damage<D: Disk, O: Origin>(store: &mut Store<D, O>, bad: BadChain) -> StoreFault
    requires going { store.old.stopped ≡ false }
    ensures told { WhereSound O.first D.Disk (IsFaultOr (λ e. e ≡ damage_told D.Disk store.new bad) result) }
    ensures leaves { ReadsPages {T = ⊤} O.first D.Disk store.old store.new (Err result) }
{
    match store.home_of(page_of(bad)) {
        Ok(home) => damage_at(home, bad),
        Err(fault) => fault,
    }
}

/// Tells what calls have found on pages of a store: their answer, or damage as damage of the file of pages, by the home
/// that the page's value stands in. A page that was changed in its frame since it was written home is told in its first home.
pub fn tell<D: Disk, O: Origin, T>(
    store: &mut Store<D, O>,
    found: Result<T, SearchFault>,
) -> Result<T, StoreFault>
    requires going { OnOk (searched found) (store.old.stopped ≡ false) }
    ensures told { TellsFound (IsTrue D.tells × IsSoundImage O.first) (damage_told D.Disk store.new) found result }
    // It goes on from what those calls left.
    ensures leaves { (a : View D) → LeavesPage O.first D.Disk a store.old (searched found) → ReadsPages O.first D.Disk a store.new result }
{
    match found {
        Ok(answer) => Ok(answer),
        Err(fault) => match fault {
            SearchFault::Store(fault) => Err(fault),
            SearchFault::Bad(bad) => Err(damage(store, bad)),
        },
    }
}

/// A call that reads pages tells that the disk failed where the disk counts one fault more; whatever else it answers, damage too, the disk counts
/// as many as before.
pub fn a_fault_of_reading_is_counted<D: Disk, T>()
    ensures { (first : Image) (a b : View D) (result : Result T StoreFault) → ReadsPages first D.Disk a b result
        → HasFault Fault (D.faults_of a.disk) (D.faults_of b.disk) result }
{}
