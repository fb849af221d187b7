// What a turn did, and a part of it.
ghost use Rattle.std.specs.Prelude.{◌≡◌};
ghost use Rattle.ctr_cleaner.specs.Parts.{turn_logged, done_step, done_reclaim, done_freed, done_unlinked};

use ctr_disk::StoreFault;
use ctr_emptying::{Emptied, Position, Step};

/// What a turn may do in a table that is dead.
#[derive(Clone, Copy, Debug, PartialEq, Eq)]
pub struct MayEmpty {
    /// Its pages may leave their chains: there is room for an item of the secondary log.
    pub unlink: bool,
    /// Its entry may be freed, once it has no page.
    pub free: bool,
}

/// What a turn of the cleaner did at its position.
#[derive(Clone, Copy, Debug, PartialEq, Eq)]
pub enum CleanTurn {
    /// One record was logged, which neither takes a page from its chain nor gives one back.
    Cleaned,
    /// A page left its chain, by one record: an item of the secondary log is added.
    Unlinked,
    /// A page that left its chain is free again, by one record: its item is gone.
    Reclaimed,
    /// There was nothing to do: the pass goes on there.
    Moved { to: Position },
    /// There was nothing to do, and the pass is over.
    Over,
    /// It wasn't seen whether there is anything to do: the pass goes on there, or is over.
    Left { to: Option<Position> },
}

/// What the record did that a part of a turn logged.
#[derive(Clone, Copy, Debug, PartialEq, Eq)]
pub(crate) enum Logged {
    Cleaned,
    Unlinked,
    Reclaimed,
}

/// What a part of a turn came to, where that wasn't nothing.
#[derive(Clone, Copy, Debug, PartialEq, Eq)]
pub(crate) enum Dealt {
    /// A record was logged.
    Logged(Logged),
    /// It wasn't seen whether there is anything to do.
    Unseen,
}

/// What a part of a turn did; none for nothing.
pub(crate) type Done = Option<Dealt>;

/// What a turn did that logged a record.
pub(crate) fn told(logged: Logged) -> CleanTurn
    ensures { result ≡ turn_logged logged }
{
    match logged {
        Logged::Cleaned => CleanTurn::Cleaned,
        Logged::Unlinked => CleanTurn::Unlinked,
        Logged::Reclaimed => CleanTurn::Reclaimed,
    }
}

/// A step at a place, in words of a turn.
pub(crate) fn stepped(step: Result<Step, StoreFault>) -> Result<Done, StoreFault>
    ensures { result ≡ done_step step }
{
    match step {
        Err(fault) => Err(fault),
        Ok(Step::Cleaned) => Ok(Some(Dealt::Logged(Logged::Cleaned))),
        Ok(Step::Nothing) => Ok(None),
        Ok(Step::Beyond) => Ok(Some(Dealt::Unseen)),
    }
}

/// The same of a page that was given back.
pub(crate) fn reclaimed(step: Result<Step, StoreFault>) -> Result<Done, StoreFault>
    ensures { result ≡ done_reclaim step }
{
    match step {
        Err(fault) => Err(fault),
        Ok(Step::Cleaned) => Ok(Some(Dealt::Logged(Logged::Reclaimed))),
        Ok(Step::Nothing) => Ok(None),
        Ok(Step::Beyond) => Ok(Some(Dealt::Unseen)),
    }
}

/// The same of an entry that was freed.
pub(crate) fn freed(step: Result<Emptied, StoreFault>) -> Result<Done, StoreFault>
    ensures { result ≡ done_freed step }
{
    match step {
        Err(fault) => Err(fault),
        Ok(Emptied::OneRecord) => Ok(Some(Dealt::Logged(Logged::Cleaned))),
        Ok(Emptied::Nothing) => Ok(None),
    }
}

/// The same of a page that left its chain.
pub(crate) fn unlinked(step: Result<Emptied, StoreFault>) -> Result<Done, StoreFault>
    ensures { result ≡ done_unlinked step }
{
    match step {
        Err(fault) => Err(fault),
        Ok(Emptied::OneRecord) => Ok(Some(Dealt::Logged(Logged::Unlinked))),
        Ok(Emptied::Nothing) => Ok(None),
    }
}
