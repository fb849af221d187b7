// COMMIT's answer.
ghost use Rattle.std.specs.Prelude.{◌≡◌, ◌-◌, false, None, [], length, OnOk, OnErr, IfSome, Err};
ghost use Rattle.ctr_disk.specs.declared.fault.StoreFault.TheVariants.{Fault};
ghost use Rattle.ctr_base.specs.Base.{WhereSound};
ghost use Rattle.ctr_writing.specs.ctr_session_world.kept_Turns.{Start};
ghost use Rattle.ctr_writing.specs.ctr_session_world.kept_Walk.{Mind};
ghost use Rattle.ctr_store.specs.Store.{KeepsRoom, LeavesPage, turns_for_room};
ghost use Rattle.ctr_writing.specs.ctr_session_world.txn_Steps.{AnswersNext};
ghost use Rattle.ctr_control.specs.Answers.{IsWorld, IsAnswered};
ghost use Rattle.ctr_writing.specs.ctr_session_world.Ready.{StandOver};
ghost use Rattle.ctr_writing.specs.ctr_session_world.World.{SessionsHeld, InWorld};

use ctr_base::Origin;
use ctr_disk::{Disk, StoreFault};
use ctr_locks::{KeyLocks, key_locks_show};
use ctr_store::Store;
use ctr_writing::session_world::told::a_commit_that_is_answered_is_told;
use ctr_writing::session_world::{
    Asked, Txns, pages_that_are_read_keep_a_world, the_run_is_of_the_sessions,
};

/// Makes all that waits in the log durable, so that the commits that were asked for may be answered, whoever asked. In a World nothing else
/// changes, and nothing is told. It is refused by the disk alone. It takes no memory.
pub fn flush<D: Disk, O: Origin>(store: &mut Store<D, O>) -> Result<(), StoreFault>
    requires going { store.old.stopped ≡ false }
    ensures none { OnOk result (store.new.waiting ≡ []) }
    ensures kept { (c : Start) (opened : D) (h : SessionsHeld) (w : Mind) → WhereSound O.first D.Disk (InWorld D.Disk c opened store.old h w → OnOk result (InWorld D.Disk c opened store.new h w)) }
    ensures leaves { LeavesPage O.first D.Disk store.old store.new result }
    ensures refused { OnErr result (result ≡ Err Fault) }
    // Tables and their room are as they were, so that whoever stands over the store does still.
    ensures keeps { KeepsRoom store.old store.new }
{
    pages_that_are_read_keep_a_world::<D>();
    store.harden()
}

/// A turn for room: makes what waits durable where the log's buffer is short, or else writes the page home that is changed the longest. There
/// is room for a turn of a session after at most three. In a World nothing else changes, and nothing is told. It takes no memory.
pub fn make_room<D: Disk, O: Origin>(store: &mut Store<D, O>) -> Result<(), StoreFault>
    requires going { store.old.stopped ≡ false }
    ensures nearer { OnOk result (turns_for_room store.new ≡ turns_for_room store.old - 1) }
    ensures kept { (c : Start) (opened : D) (h : SessionsHeld) (w : Mind) → WhereSound O.first D.Disk (InWorld D.Disk c opened store.old h w → OnOk result (InWorld D.Disk c opened store.new h w)) }
    ensures leaves { LeavesPage O.first D.Disk store.old store.new result }
    // Where the first image is sound, it is refused by the disk alone.
    ensures refused { WhereSound O.first D.Disk (OnErr result (result ≡ Err Fault)) }
    // Tables and their room are as they were, so that whoever stands over the store does still.
    ensures keeps { KeepsRoom store.old store.new }
{
    pages_that_are_read_keep_a_world::<D>();
    let made = store.make_room();
    store.rests();
    made
}

/// Where nothing waits in the log, the commit that was asked for first of those that aren't answered is answered: its session is told so, its
/// transaction ends, and its locks are free. The store is as it was, so all that wait are answered at one moment, call by call. None where
/// all are answered, or a record waits. It takes no memory.
pub fn answer_one<D: Disk, O: Origin>(
    store: &Store<D, O>,
    txns: &mut Txns,
    locks: &mut KeyLocks,
) -> Option<(u8, Asked)>
    // None is answered where a record waits, or all are, and then nothing changes.
    ensures none { result ≡ None → (txns.new ≡ txns.old) × (locks.new ≡ locks.old) × (store.now.waiting ≡ [] → txns.old.answered ≡ length txns.old.numbers.commits) }
    ensures next { IfSome result (λ r. AnswersNext r.0 r.1 txns.old txns.new × (store.now.waiting ≡ [])) }
    ensures over { StandOver txns.old store.now → StandOver txns.new store.now }
    ensures told { (c : Start) (opened : D) → WhereSound O.first D.Disk (store.now.stopped ≡ false → (before : IsWorld D.Disk c opened store.now (record { txns = txns.old; locks = locks.old }))
        → IfSome result (λ r. IsAnswered before r (record { txns = txns.new; locks = locks.new }))) }
{
    a_commit_that_is_answered_is_told::<D>();
    the_run_is_of_the_sessions();
    key_locks_show();
    store.rests();
    txns.numbers_commits();
    match txns.answer_hardened(store) {
        None => None,
        Some((s, asked)) => {
            locks.release_all(s);
            Some((s, asked))
        }
    }
}
