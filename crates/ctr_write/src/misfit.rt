// What stands on a page has no place for what is to be laid there.
ghost use Rattle.std.specs.Prelude.{◌≡◌, false, Ok, OnOk, ⊤};
ghost use Rattle.ctr_extend.specs.store_Store.{View, LeavesPage};
ghost use Rattle.ctr_extend.specs.walk_Damage.{ReadsPages};

use ctr_base::Origin;
use ctr_disk::{Disk, StoreFault};
use ctr_extend::{SearchFault, Store, tell};
use ctr_page::{BadChain, BadPage};
use ctr_rec::PageNo;

/// What is to be laid on a page doesn't fit what stands there: damage of the page, which is told where it stands in the file of pages. In
/// a state that may be a database's nobody calls this: the clause `refused` of each caller says that its turn tells no damage there.
pub(crate) fn misfit<D: Disk, O: Origin, T>(
    store: &mut Store<D, O>,
    page: PageNo,
    want: u64,
    got: u64,
) -> Result<T, StoreFault>
    requires going { store.old.stopped ≡ false }
    ensures fails { OnOk result ⊥ }
    // It goes on from pages that were read.
    ensures leaves { (a : View D) → LeavesPage {T = ⊤} O.first D.Disk a store.old (Ok tt) → ReadsPages O.first D.Disk a store.new result }
{
    let bad = BadPage {
        at: 0,
        want: want as u128,
        got: got as u128,
    };
    tell(store, Err(SearchFault::Bad(BadChain::OnPage(page, bad))))
}
