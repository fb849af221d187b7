// A page that is allocated is made empty.
ghost use Rattle.std.specs.Prelude.{IfErr, ◌≡◌, ◌<◌, ◌≤◌, IfOk};
ghost use Rattle.ctr_disk.specs.declared.fault.StoreFault.TheVariants.{Fault};
ghost use Rattle.ctr_base.specs.Base.{WhereSound};
ghost use Rattle.ctr_page.specs.Making.{IsHeader};
ghost use Rattle.ctr_page_turns.specs.record_effects_Standing.{IsDatabaseState};
ghost use Rattle.ctr_page_turns.specs.walk_OneRecord.{HasRoomForOne};
ghost use Rattle.ctr_page_turns.specs.walk_Tables.{IsChain, first_of_chain};
ghost use Rattle.ctr_page_turns.specs.record_effects_States.{area_in};
ghost use Rattle.ctr_page_turns.specs.Turns.{Turns};
ghost use Rattle.ctr_extend.specs.declared.ways.OnWay.TheVariants.{Taken};
ghost use Rattle.ctr_extend.specs.Ways.{chain_header, IsOnWay};
ghost use Rattle.ctr_extend.specs.Steps.{MakesEmpty, IsCountedStep, LeavesRoom, MovesBy};
ghost use Rattle.ctr_extend.specs.declared.ways.Extended.TheVariants.{On as IsOn};
ghost use Rattle.ctr_extend.specs.declared.ways.OnWay.TheVariants.{Made as IsMade};

use crate::ways::{Extended, OnWay};
use ctr_base::Origin;
use ctr_disk::{Disk, StoreFault};
use ctr_page::{Chain, Header, PageKind};
use ctr_page_turns::{
    a_formatted_page_is_blank, a_record_acts, a_record_is_refused_by_the_disk_alone,
    a_turn_goes_on, an_action_gives_its_fact, pages_lie_as_their_actions, what_is_done_stays,
};
use ctr_rec::PageNo;
use ctr_stops::Store;
use ctr_types::Xid;
use ctr_undamaged::format;

// The header of a page of a chain.
fn header_of(chain: Chain, next: PageNo) -> Header
    ensures is { result ≡ chain_header chain next }
    ensures fits { IsHeader result }
{
    match chain {
        Chain::Rows { entry, bucket } => Header {
            kind: PageKind::ROWS,
            entry,
            bucket,
            next,
        },
        Chain::Versions { entry } => Header {
            kind: PageKind::VERSIONS,
            entry,
            bucket: 0,
            next,
        },
    }
}

/// A page that is a transaction's own is made empty, and leads on to a page of its chain.
pub(crate) fn make<D: Disk, O: Origin>(
    store: &mut Store<D, O>,
    x: Xid,
    chain: Chain,
    page: PageNo,
    next: PageNo,
) -> Result<Extended, StoreFault>
    requires room { HasRoomForOne 0 0 store.old }
    requires there { IsChain chain }
    requires counted { (3 ≤ page) × (page < store.old.now.counted) }
    ensures turns { Turns O.first D.Disk store.old store.new result }
    ensures inside { IfOk result (λ e. IsCountedStep e store.new.now.counted) }
    ensures left { IfOk result (λ e. LeavesRoom 0 e store.old.meta store.new.meta) }
    ensures numbers { IfOk result (λ e. MovesBy e store.old store.new) }
    ensures steps { WhereSound O.first D.Disk (IsDatabaseState store.old.now → IsOnWay x chain (Taken page) store.old.now → next ≡ first_of_chain (area_in store.old.now) chain
        → IfOk result (λ e. (e ≡ IsOn (IsMade page next)) × MakesEmpty x chain page next store.old.now store.new.now)) }
    ensures refused { WhereSound O.first D.Disk (IsDatabaseState store.old.now → IsOnWay x chain (Taken page) store.old.now → IfErr result (λ e. e ≡ Fault)) }
{
    store.counts_pages();
    let _tables = store.meta();
    a_record_is_refused_by_the_disk_alone::<D, ()>();
    a_turn_goes_on::<D, (), Extended>();
    a_record_acts::<D>();
    pages_lie_as_their_actions();
    a_formatted_page_is_blank();
    an_action_gives_its_fact();
    what_is_done_stays();
    match format(store, x, page, &header_of(chain, next)) {
        Ok(()) => Ok(Extended::On(OnWay::Made { page, next })),
        Err(fault) => Err(fault),
    }
}
