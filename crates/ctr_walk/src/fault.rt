// Why a search on pages of a store has no answer.
ghost use Rattle.std.specs.Prelude.{◌≡◌};
ghost use Rattle.ctr_walk.specs.declared.fault.SearchFault.TheVariants.{Store as StoreFailed};
ghost use Rattle.ctr_walk.specs.Damage.{found_on};

use ctr_disk::StoreFault;
use ctr_record_effects::{BadChain, BadPage};
use ctr_store::PageNo;

/// Why a search on pages of a store has no answer.
#[derive(Clone, Copy, Debug, PartialEq, Eq)]
pub enum SearchFault {
    /// The store didn't give a page.
    Store(StoreFault),
    /// Damage was found on a page; it isn't told by its home yet.
    Bad(BadChain),
}

impl From<StoreFault> for SearchFault {
    ghost from_gives = { λ fault f. f ≡ StoreFailed fault };

    fn from(fault: StoreFault) -> SearchFault {
        SearchFault::Store(fault)
    }
}

/// What was found on a page, for a search: damage there is damage of this page.
pub fn found_on<T>(page: PageNo, found: Result<T, BadPage>) -> Result<T, SearchFault>
    ensures { result ≡ found_on page found }
{
    match found {
        Ok(answer) => Ok(answer),
        Err(bad) => Err(SearchFault::Bad(BadChain::OnPage(page, bad))),
    }
}
