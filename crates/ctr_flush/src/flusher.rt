// One turn of the flusher.
ghost use Rattle.std.specs.Prelude.{◌≡◌, ◌≢◌, ◌<◌, ◌-◌, ◌^◌, ◌↔◌, IsTrue, true, false, [], Ok, Err, IfOk, OnOk, OnErr, ⊤};
ghost use Rattle.ctr_disk.specs.declared.fault.StoreFault.TheVariants.{Fault};
ghost use Rattle.ctr_base.specs.Base.{WhereSound};
ghost use Rattle.ctr_store.specs.Store.{KeepsFrames, WritesHome};
ghost use Rattle.ctr_store.specs.Generations.{CanEnd, AnswersEnd};
ghost use Rattle.ctr_store.specs.Checkpoints.{checkpoint_need};
ghost use Rattle.ctr_flush.specs.declared.flusher.FlushTurn.TheVariants.{Idle as AnsweredIdle};
ghost use Rattle.ctr_flush.specs.Turns.{KeepsPages, SameLog, AnswersTurn, AnswersDue, AnswersRest, AnswersOr, IsIdle};

use ctr_base::Origin;
use ctr_disk::{Disk, StoreFault};
use ctr_store::{Generation, Store};
use std::alloc::Global;

/// What a turn of the flusher answers.
#[derive(Clone, Copy, Debug, PartialEq, Eq)]
pub enum FlushTurn {
    Wrote,
    Idle,
    /// Nothing was to be done but a generation, for which memory was refused.
    Short,
}

/// Whether a generation was begun.
#[derive(Clone, Copy, Debug, PartialEq, Eq)]
pub enum Due {
    Begun,
    Refused,
    NotYet,
}

// Begins a generation of the log, where one is due and the log is durable.
fn begin_due<D: Disk, O: Origin>(alloc: Global, store: &mut Store<D, O>) -> Result<Due, StoreFault>
    requires going { store.old.stopped ≡ false }
    requires number { store.old.next < 2 ^ 63 - 1 }
    ensures due { AnswersDue store.old store.new result }
    ensures keeps { KeepsPages O.first D.Disk store.old store.new result }
    ensures refused { checkpoint_need store.old.meta.tables ≡ Ok tt → OnErr result (result ≡ Err Fault) }
    ensures stopped { checkpoint_need store.old.meta.tables ≡ Ok tt → OnErr result (store.new.stopped ≡ true) }
{
    store.rests();
    let _room = store.room();
    if !store.due() || !store.is_hardened() {
        return Ok(Due::NotYet);
    }
    match store.begin_checkpoint(alloc) {
        Ok(Generation::Begun) => Ok(Due::Begun),
        Ok(Generation::OutOfMemory) => Ok(Due::Refused),
        Err(fault) => Err(fault),
    }
}

// Makes the log durable, which isn't.
fn harden<D: Disk, O: Origin>(store: &mut Store<D, O>) -> Result<(), StoreFault>
    requires { store.old.stopped ≡ false }
    ensures none { OnOk result (store.new.waiting ≡ []) }
    ensures frames { KeepsFrames store.old store.new × SameLog store.old store.new }
    ensures keeps { KeepsPages O.first D.Disk store.old store.new result }
    ensures refused { OnErr result (result ≡ Err Fault) }
    ensures stopped { OnErr result (store.new.stopped ≡ true) }
{
    store.harden()
}

// Writes the page home that is changed the longest, or answers false, exactly where none is changed.
fn write_home<D: Disk, O: Origin>(store: &mut Store<D, O>) -> Result<bool, StoreFault>
    requires { store.old.stopped ≡ false }
    ensures wrote { IfOk result (λ wrote. wrote ≡ store.old.dirty) }
    ensures home { IfOk result (λ wrote. WritesHome store.old store.new wrote) }
    ensures log { SameLog store.old store.new }
    ensures keeps { KeepsPages O.first D.Disk store.old store.new result }
    ensures refused { WhereSound O.first D.Disk (OnErr result (result ≡ Err Fault)) }
    ensures stopped { OnErr result (store.new.stopped ≡ true) }
{
    let wrote = store.write_one_dirty()?;
    store.rests();
    Ok(wrote)
}

// Drops the older generation, where it can go.
fn drop_older<D: Disk, O: Origin>(store: &mut Store<D, O>) -> Result<bool, StoreFault>
    requires { store.old.stopped ≡ false }
    ensures dropped { IfOk result (λ dropped. IsTrue dropped ↔ CanEnd store.old) }
    ensures ends { AnswersEnd store.old store.new result }
    ensures keeps { KeepsPages O.first D.Disk store.old store.new result }
    ensures refused { OnErr result (result ≡ Err Fault) }
    ensures stopped { OnErr result (store.new.stopped ≡ true) }
{
    store.end_checkpoint()
}

// Does the first of the other cases that applies.
fn do_rest<D: Disk, O: Origin>(store: &mut Store<D, O>) -> Result<bool, StoreFault>
    requires { store.old.stopped ≡ false }
    ensures rest { AnswersRest store.old store.new result }
    ensures keeps { KeepsPages O.first D.Disk store.old store.new result }
    ensures refused { WhereSound O.first D.Disk (OnErr result (result ≡ Err Fault)) }
    ensures stopped { OnErr result (store.new.stopped ≡ true) }
{
    if drop_older(store)? {
        return Ok(true);
    }
    if !store.is_hardened() {
        harden(store)?;
        return Ok(true);
    }
    write_home(store)
}

// The same, and what is answered where none applies.
fn rest_or<D: Disk, O: Origin>(
    store: &mut Store<D, O>,
    none: FlushTurn,
) -> Result<FlushTurn, StoreFault>
    requires { store.old.stopped ≡ false }
    ensures rest { AnswersOr none store.old store.new result }
    ensures keeps { KeepsPages O.first D.Disk store.old store.new result }
    ensures refused { WhereSound O.first D.Disk (OnErr result (result ≡ Err Fault)) }
    ensures stopped { OnErr result (store.new.stopped ≡ true) }
{
    match do_rest(store) {
        Ok(true) => Ok(FlushTurn::Wrote),
        Ok(false) => Ok(none),
        Err(fault) => Err(fault),
    }
}

/// One turn of the flusher does the first of these that applies: it begins a generation of the log where one is due and the
/// log is durable; drops the older one where no page has been changed since before the current one that isn't home; makes
/// the log durable where it isn't; writes the page home that is changed the longest. Where memory is refused for a
/// generation the turn goes on to the next case. No page or table of the fold changes.
pub fn turn<D: Disk, O: Origin>(
    alloc: Global,
    store: &mut Store<D, O>,
) -> Result<FlushTurn, StoreFault>
    requires going { store.old.stopped ≡ false }
    requires number { store.old.next < 2 ^ 63 - 1 }
    ensures turn { AnswersTurn store.old store.new result }
    ensures idle { IsIdle store.old → IfOk result (λ t. t ≡ AnsweredIdle) }
    ensures keeps { KeepsPages O.first D.Disk store.old store.new result }
    ensures refused { WhereSound O.first D.Disk (checkpoint_need store.old.meta.tables ≡ Ok tt → OnErr result (result ≡ Err Fault)) }
    ensures stopped { checkpoint_need store.old.meta.tables ≡ Ok tt → OnErr result (store.new.stopped ≡ true) }
{
    match begin_due(alloc, store)? {
        Due::Begun => Ok(FlushTurn::Wrote),
        Due::Refused => rest_or(store, FlushTurn::Short),
        Due::NotYet => rest_or(store, FlushTurn::Idle),
    }
}
