// The turns of the cleaner in a World.
ghost use Rattle.std.specs.Prelude.{◌≡◌, ◌<◌, ◌≤◌, ◌+◌, ◌-◌, ◌^◌, ℕ, true, false, IfOk, OnOk};
ghost use Rattle.ctr_base.specs.Base.{WhereSound};
ghost use Rattle.ctr_redo.specs.States.{State};
ghost use Rattle.ctr_store.specs.declared.store.TheConstants.{TURN_BYTES};
ghost use Rattle.ctr_pass.specs.txn_Held.{txn_of};
ghost use Rattle.ctr_pass.specs.session_world_Ready.{LeavesDisk};
ghost use Rattle.ctr_pass.specs.exec_Sessions.{AreAnswers, OrFails};
ghost use Rattle.ctr_world.specs.Held.{running};
ghost use Rattle.ctr_world.specs.World.{IsWorldReady, KeepsPassIn, Shows};
ghost use Rattle.ctr_world.specs.Cleaning.{CleansHere, CleansOnward, CleansOrReads, IsIdlePass, ReadsAlone, ReadsWhereNone, noted_pass};
ghost use Rattle.ctr_world.specs.Turns.{AddsUnlessFails, CleanerEnds, LogsOneAtMost};

use crate::engine::Engine;
use crate::left::nobody_inside;
use crate::opening::Opening;
use ctr_base::Origin;
use ctr_disk::{Disk, StoreFault};
use ctr_pass::{
    MayEmpty, Pass, Sessions, a_pass_is_kept_beside_others, a_pass_is_kept_by_its_turn,
    an_idle_pass_is_kept, clean_from, keeps_room, nobody_inside_locks_nothing,
    pages_that_are_read_keep_a_world, read_for, room_for_the_cleaner_leaves_the_sessions,
    what_was_cleaned_leaves_the_sessions,
};
use ctr_types::Turn;
use ctr_undo::{a_turn_of_undo_is_kept, names_of_what_is_left_stay};

/// At how many positions of its pass a turn of the cleaner looks, at most: where versions are kept faster than lines are run, most entries that a pass comes by
/// are of rows that it hasn't come to again.
const POSITIONS: usize = 16;

/// How many pages a turn of the cleaner reads, at most, for the row of the version entry that its pass is at, before it takes a step there: all of the row's bucket would be an eighth of
/// its table.
const READS: u32 = 16;

/// How many pages a turn may read for a position, for which so many were read, in a store that counts so many: one more than those isn't read.
fn reads_left(read: u32, counted: u32) -> u32
    ensures few { 0 < result → read < counted }
    ensures most { result ≤ READS }
    ensures sum { read + result < 2 ^ 32 }
{
    if read >= counted {
        return 0;
    }
    let left = counted - read;
    if left < READS { left } else { READS }
}

/// How many pages were read for a position, behind so many more: where none are left a step is taken there, and they aren't counted any longer.
fn read_behind(more: bool, read: u32, most: u32) -> u32
    requires sum { read + most < 2 ^ 32 }
    ensures more { more ≡ true → result ≡ read + most }
    ensures none { more ≡ false → result ≡ 0 }
{
    if more { read + most } else { 0 }
}

/// What the cleaner may do in a table that is dead: a page may leave its chain while room is kept for an item of the cleaner's, and an entry is freed where
/// nobody is in a transaction.
fn may_empty(sessions: &Sessions) -> MayEmpty
    ensures unlink { result.unlink ≡ sessions.now.txns.cleaner }
    ensures free { result.free ≡ true → (s : ℕ) → txn_of s sessions.now.txns ≡ None }
    ensures rest { ((s : ℕ) → txn_of s sessions.now.txns ≡ None) → result.free ≡ true }
{
    MayEmpty {
        unlink: sessions.txns.keeps_cleaners(),
        free: nobody_inside(&sessions.txns, 1),
    }
}

impl<D: Disk, B: Origin + Opening> Engine<D, B> {
    // A step in the cleaner's pass, which isn't idle once it has looked at what happened since its last one.
    fn clean_next(&mut self, noted: Pass) -> Result<(), StoreFault>
        requires ready { IsWorldReady B.Opening D.Disk (running self.old) }
        requires room { (TURN_BYTES ≤ self.old.store.room) × (self.old.store.next < 2 ^ 63 - 1) }
        requires noted { noted ≡ noted_pass (running self.old) }
        requires goes { IsIdlePass (running self.old) → ⊥ }
        ensures ready { OnOk result (IsWorldReady B.Opening D.Disk (running self.new)) }
        ensures kept { (s : State) → WhereSound B.first D.Disk (Shows B.Opening B.first D.Disk s (running self.old) → KeepsPassIn B.Opening s (running self.old)
            → OrFails (Shows B.Opening B.first D.Disk s (running self.new) × KeepsPassIn B.Opening s (running self.new)) result) }
        ensures cleans { OnOk result (CleansHere (running self.old) (running self.new)) }
        ensures page { OnOk result (ReadsWhereNone B.first D.Disk self.old.store self.new.store) }
        ensures same { self.new ≡ record self.old { store = self.new.store; sessions = record self.old.sessions { txns = self.new.sessions.txns }; pass = self.new.pass } }
        ensures disk { LeavesDisk B.first D.Disk self.old.store self.new.store result }
    {
        a_pass_is_kept_by_its_turn();
        a_turn_of_undo_is_kept::<D>();
        names_of_what_is_left_stay();
        nobody_inside_locks_nothing::<D>();
        pages_that_are_read_keep_a_world::<D>();
        room_for_the_cleaner_leaves_the_sessions::<D>();
        what_was_cleaned_leaves_the_sessions::<D>();
        let may = may_empty(&self.sessions);
        let low = self.sessions.txns.low_mark(self.store.meta());
        let stayed = self.pass.next == self.store.next();
        let cleaned = clean_from(
            &mut self.store,
            &self.sessions.locks,
            low,
            self.undo.items_left(),
            may,
            self.pass.at,
            stayed,
        );
        match cleaned {
            Ok(went) => {
                self.store.rests();
                self.sessions
                    .txns
                    .keep_cleaners(keeps_room(may.unlink, went.did));
                self.pass = noted.behind(went, may.unlink, self.store.next());
                Ok(())
            }
            Err(fault) => Err(fault),
        }
    }

    // Pages are read for the row of the version entry that the pass is at, so many at most. Where more may be left they are counted; else a step is taken there.
    fn read_ahead(&mut self, most: u32) -> Result<bool, StoreFault>
        requires ready { IsWorldReady B.Opening D.Disk (running self.old) }
        requires sum { self.old.read + most < 2 ^ 32 }
        ensures ready { OnOk result (IsWorldReady B.Opening D.Disk (running self.new)) }
        ensures kept { (s : State) → WhereSound B.first D.Disk (Shows B.Opening B.first D.Disk s (running self.old) → KeepsPassIn B.Opening s (running self.old)
            → OrFails (Shows B.Opening B.first D.Disk s (running self.new) × KeepsPassIn B.Opening s (running self.new)) result) }
        ensures more { IfOk result (λ more. more ≡ true → (0 < most) × (self.new.read ≡ self.old.read + most)) }
        ensures none { IfOk result (λ more. more ≡ false → self.new.read ≡ 0) }
        ensures page { OnOk result (ReadsAlone B.first D.Disk self.old.store self.new.store) }
        ensures same { self.new ≡ record self.old { store = self.new.store; read = self.new.read } }
        ensures disk { LeavesDisk B.first D.Disk self.old.store self.new.store result }
    {
        pages_that_are_read_keep_a_world::<D>();
        let low = self.sessions.txns.low_mark(self.store.meta());
        let stayed = self.pass.next == self.store.next();
        let read = read_for(&mut self.store, low, self.pass.at, stayed, most);
        match read {
            Ok(more) => {
                self.store.rests();
                self.read = read_behind(more, self.read, most);
                Ok(more)
            }
            Err(fault) => Err(fault),
        }
    }

    // A step in the cleaner's pass, and from there along version entries until one logged a record, there is no room, a page is to be read first, or so many were taken as a turn may take.
    fn clean_onward(&mut self, noted: Pass) -> Result<(), StoreFault>
        requires ready { IsWorldReady B.Opening D.Disk (running self.old) }
        requires unread { self.old.read ≡ 0 }
        requires room { (TURN_BYTES ≤ self.old.store.room) × (self.old.store.next < 2 ^ 63 - 1) }
        requires noted { noted ≡ noted_pass (running self.old) }
        requires goes { IsIdlePass (running self.old) → ⊥ }
        ensures ready { OnOk result (IsWorldReady B.Opening D.Disk (running self.new)) }
        ensures kept { (s : State) → WhereSound B.first D.Disk (Shows B.Opening B.first D.Disk s (running self.old) → KeepsPassIn B.Opening s (running self.old)
            → OrFails (Shows B.Opening B.first D.Disk s (running self.new) × KeepsPassIn B.Opening s (running self.new)) result) }
        ensures cleans { OnOk result (CleansOnward (running self.old) (running self.new) × (self.new.read ≤ 1)) }
        ensures one { OnOk result (LogsOneAtMost (running self.old) (running self.new)) }
        ensures same { self.new ≡ record self.old { store = self.new.store; sessions = record self.old.sessions { txns = self.new.sessions.txns }; pass = self.new.pass; read = self.new.read } }
        ensures disk { LeavesDisk B.first D.Disk self.old.store self.new.store result }
    {
        let next = self.store.next();
        match self.clean_next(noted) {
            Ok(()) => {}
            Err(fault) => return Err(fault),
        }
        for taken in 1..POSITIONS {
            if self.store.next() != next {
                break;
            }
            if !self.pass.is_at_version() || !self.store.room() {
                break;
            }
            let noted = self.pass.noted(self.store.next(), &self.sessions.tape);
            if noted.is_idle() {
                break;
            }
            match self.read_ahead(1) {
                Ok(false) => {}
                Ok(true) => return Ok(()),
                Err(fault) => return Err(fault),
            }
            match self.clean_next(noted) {
                Ok(()) => {}
                Err(fault) => return Err(fault),
            }
        }
        Ok(())
    }

    // Pages are read for the position that the cleaner's pass is at, or steps are taken from there.
    fn read_or_clean(&mut self, noted: Pass) -> Result<(), StoreFault>
        requires ready { IsWorldReady B.Opening D.Disk (running self.old) }
        requires room { (TURN_BYTES ≤ self.old.store.room) × (self.old.store.next < 2 ^ 63 - 1) }
        requires noted { noted ≡ noted_pass (running self.old) }
        requires goes { IsIdlePass (running self.old) → ⊥ }
        ensures ready { OnOk result (IsWorldReady B.Opening D.Disk (running self.new)) }
        ensures kept { (s : State) → WhereSound B.first D.Disk (Shows B.Opening B.first D.Disk s (running self.old) → KeepsPassIn B.Opening s (running self.old)
            → OrFails (Shows B.Opening B.first D.Disk s (running self.new) × KeepsPassIn B.Opening s (running self.new)) result) }
        ensures cleans { OnOk result (CleansOrReads (running self.old) (running self.new)) }
        ensures one { OnOk result (LogsOneAtMost (running self.old) (running self.new)) }
        ensures same { self.new ≡ record self.old { store = self.new.store; sessions = record self.old.sessions { txns = self.new.sessions.txns }; pass = self.new.pass; read = self.new.read } }
        ensures disk { LeavesDisk B.first D.Disk self.old.store self.new.store result }
    {
        let most = reads_left(self.read, self.store.counted());
        match self.read_ahead(most) {
            Err(fault) => Err(fault),
            Ok(true) => Ok(()),
            Ok(false) => self.clean_onward(noted),
        }
    }

    /// A turn of the cleaner: it is idle where its pass is; else a turn for room, where the store has none; or pages are read for the row that its pass has come to; or steps in its pass
    /// until one logged a record. All commits that are durable then are answered.
    pub(crate) fn clean(&mut self) -> Result<Turn, StoreFault>
        requires ready { IsWorldReady B.Opening D.Disk (running self.old) }
        requires number { self.old.store.next < 2 ^ 63 - 1 }
        ensures ready { OnOk result (IsWorldReady B.Opening D.Disk (running self.new)) }
        ensures kept { (s : State) → WhereSound B.first D.Disk (Shows B.Opening B.first D.Disk s (running self.old) → KeepsPassIn B.Opening s (running self.old)
            → OrFails (Shows B.Opening B.first D.Disk s (running self.new) × KeepsPassIn B.Opening s (running self.new)) result) }
        ensures adds { AddsUnlessFails AreAnswers (D.moment_of self.new.store.disk) (running self.old) (running self.new) result }
        ensures went { IfOk result (CleanerEnds (running self.old) (running self.new)) }
        ensures one { OnOk result (LogsOneAtMost (running self.old) (running self.new)) }
        ensures same { self.new ≡ record self.old { store = self.new.store; sessions = self.new.sessions; pass = self.new.pass; read = self.new.read } }
        ensures disk { LeavesDisk B.first D.Disk self.old.store self.new.store result }
    {
        a_pass_is_kept_beside_others();
        an_idle_pass_is_kept();
        let noted = self.pass.noted(self.store.next(), &self.sessions.tape);
        if noted.is_idle() {
            self.store.rests();
            self.pass = noted;
            return Ok(Turn::Idle);
        }
        if !self.store.room() {
            return match self.made_room() {
                Ok(()) => Ok(Turn::Went),
                Err(fault) => Err(fault),
            };
        }
        match self.read_or_clean(noted) {
            Ok(()) => {
                self.answer();
                Ok(Turn::Went)
            }
            Err(fault) => Err(fault),
        }
    }
}
