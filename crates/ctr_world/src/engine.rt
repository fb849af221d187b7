// What a World is made of, and the turns of its actors, which a fault ends.
ghost use Rattle.std.specs.Prelude.{◌≡◌, ◌≢◌, ◌<◌, ◌≤◌, ◌+◌, ◌-◌, ◌^◌, ℕ, [], false, OnOk, IfOk};
ghost use Rattle.ctr_types.specs.declared.tape.Actor.TheVariants as who;
ghost use Rattle.ctr_base.specs.Base.{WhereSound};
ghost use Rattle.ctr_undo.specs.kept_Turns.{Start};
ghost use Rattle.ctr_undo.specs.kept_Walk.{Mind};
ghost use Rattle.ctr_redo.specs.States.{State};
ghost use Rattle.ctr_store.specs.Store.{HasTurnRoom, turns_for_room};
ghost use Rattle.ctr_flush.specs.Turns.{AnswersTurn, KeepsPages};
ghost use Rattle.ctr_undo.specs.Left.{UndoLeft, Goes, left_in};
ghost use Rattle.ctr_pass.specs.session_world_Ready.{LeavesDisk};
ghost use Rattle.ctr_pass.specs.session_world_World.{SessionsHeld, InWorld};
ghost use Rattle.ctr_pass.specs.exec_Order.{IsTapeOrdered};
ghost use Rattle.ctr_pass.specs.exec_Sessions.{AreAnswers, AreOfTurn, AreSeated, OrFails, turns_left};
ghost use Rattle.ctr_world.specs.Held.{running};
ghost use Rattle.ctr_world.specs.Cleaning.{LeavesPass};
ghost use Rattle.ctr_totals.specs.Totals.{AreTotals};
ghost use Rattle.ctr_model.specs.Database.{after_all};
ghost use Rattle.ctr_undo.specs.kept_Turns.{state_now};
ghost use Rattle.ctr_undo.specs.stops_World.{KeepsWorld};
ghost use Rattle.ctr_undo.specs.walk_Damage.{ReadsPages};
ghost use Rattle.ctr_world.specs.World.{HoldsLeft, IsWorldReady, Shows, rows_asked};
ghost use Rattle.ctr_world.specs.Turns.{HasStatementLeft, AreAnswered, AreEntriesBy, AreReleases, AddsEntries, AddsUnlessFails, ComesNearer, FlusherEnds, LetsNameGo, LogsOneAtMost, RollsBack};

use crate::laws::undo_leaves_the_sessions;
use crate::names::name_gone;
use crate::opening::Opening;
use ctr_base::Origin;
use ctr_disk::{Disk, StoreFault};
use ctr_flush::{FlushTurn, a_sound_state_can_be_listed, turn as flush_store};
use ctr_pass::{Pass, Sessions, flush, make_room, pages_that_are_read_keep_a_world};
use ctr_store::Store;
use ctr_tally::Steps;
use ctr_totals::{Totals, totals};
use ctr_types::{Name, Turn};
use ctr_undo::{
    UndoItem, UndoList, UndoTurn, a_name_is_released_with_its_last_item, a_turn_of_undo_is_kept,
    names_of_what_is_left_stay, recovery_is_in_no_transaction, turn, undo_takes_a_turn_an_item,
};
use std::alloc::Global;
use std::marker::Brand;
use std::sync::ledger::{Blank, Ledger};

/// What a World is made of, where nothing stopped it.
#[derive(Drop)]
pub(crate) struct Engine<D: Disk, B: Origin> {
    pub(crate) store: Store<D, B>,
    /// The sessions at the statements of the script, with the tape.
    pub(crate) sessions: Sessions,
    /// What is left of undo.
    pub(crate) undo: UndoList,
    /// The names of the tables of its items, in their order.
    pub(crate) names: Vec<Name>,
    /// How much undo there was at the start: the items, and the transactions that were open.
    pub(crate) size: usize,
    /// The cleaner's pass.
    pub(crate) pass: Pass,
    /// How many pages were read for the position that it is at, since it came there.
    pub(crate) read: u32,
}

impl<D: Disk, B: Origin + Opening> Engine<D, B> {
    // All commits that are durable are answered.
    pub(crate) fn answer(&mut self)
        requires ready { IsWorldReady B.Opening D.Disk (running self.old) }
        ensures ready { IsWorldReady B.Opening D.Disk (running self.new) }
        ensures shows { (s : State) → WhereSound B.first D.Disk (Shows B.Opening B.first D.Disk s (running self.old) → Shows B.Opening B.first D.Disk s (running self.new)) }
        ensures adds { AddsEntries AreAnswers (D.moment_of self.old.store.disk) (running self.old) (running self.new) }
        ensures same { self.new ≡ record self.old { sessions = self.new.sessions } }
        ensures nearer { turns_left self.new.sessions self.new.store ≤ turns_left self.old.sessions self.old.store }
        ensures answered { AreAnswered (running self.new) }
    {
        self.sessions.answer(&self.store);
    }

    // A turn of a session that isn't over, whose steps are counted.
    fn act<L: Ledger>(&mut self, alloc: Global, s: u8, blank: Blank) -> Result<(), StoreFault>
        requires name { blank.name ≡ L.name }
        requires parts { (blank.parts ≡ L.parts) × (0 < blank.parts) }
        requires ready { IsWorldReady B.Opening D.Disk (running self.old) }
        requires left { HasStatementLeft s self.old.sessions }
        requires number { self.old.store.next < 2 ^ 63 - 1 }
        ensures ready { OnOk result (IsWorldReady B.Opening D.Disk (running self.new)) }
        ensures shows { (s : State) → WhereSound B.first D.Disk (Shows B.Opening B.first D.Disk s (running self.old) → OrFails (Shows B.Opening B.first D.Disk s (running self.new)) result) }
        ensures adds { AddsUnlessFails (AreOfTurn s) (D.moment_of self.new.store.disk) (running self.old) (running self.new) result }
        ensures nearer { OnOk result (turns_left self.new.sessions self.new.store < turns_left self.old.sessions self.old.store) }
        ensures one { OnOk result (LogsOneAtMost (running self.old) (running self.new)) }
        ensures rolls { (t : State) → WhereSound B.first D.Disk (Shows B.Opening B.first D.Disk t (running self.old) → OnOk result (RollsBack s (running self.old) (running self.new))) }
        ensures same { self.new ≡ record self.old { store = self.new.store; sessions = self.new.sessions } }
        ensures disk { LeavesDisk B.first D.Disk self.old.store self.new.store result }
    {
        a_turn_of_undo_is_kept::<D>();
        names_of_what_is_left_stay();
        let mut steps = Steps::<L>::new(blank);
        match self.sessions.turn(alloc, &mut self.store, s, &mut steps) {
            Ok(_) => Ok(()),
            Err(fault) => Err(fault),
        }
    }

    /// A turn of a session that isn't over, and the answers of all commits that are durable then.
    pub(crate) fn serve(&mut self, alloc: Global, s: u8) -> Result<(), StoreFault>
        requires ready { IsWorldReady B.Opening D.Disk (running self.old) }
        requires left { HasStatementLeft s self.old.sessions }
        requires number { self.old.store.next < 2 ^ 63 - 1 }
        ensures ready { OnOk result (IsWorldReady B.Opening D.Disk (running self.new)) }
        ensures shows { (s : State) → WhereSound B.first D.Disk (Shows B.Opening B.first D.Disk s (running self.old) → OrFails (Shows B.Opening B.first D.Disk s (running self.new)) result) }
        ensures adds { AddsUnlessFails (AreEntriesBy (who.Session s)) (D.moment_of self.new.store.disk) (running self.old) (running self.new) result }
        ensures nearer { OnOk result (ComesNearer (who.Session s) (running self.old) (running self.new)) }
        ensures one { OnOk result (LogsOneAtMost (running self.old) (running self.new)) }
        ensures rolls { (t : State) → WhereSound B.first D.Disk (Shows B.Opening B.first D.Disk t (running self.old) → OnOk result (RollsBack s (running self.old) (running self.new))) }
        ensures same { self.new ≡ record self.old { store = self.new.store; sessions = self.new.sessions } }
        ensures disk { LeavesDisk B.first D.Disk self.old.store self.new.store result }
    {
        match self.act::<Brand>(alloc, s, Blank::new(1)) {
            Ok(()) => {
                self.answer();
                Ok(())
            }
            Err(fault) => Err(fault),
        }
    }

    // The name of the table goes of which an item was undone: recovery releases it at this moment, where no other item has it.
    fn let_go(&mut self, alloc: Global, undone: UndoItem)
        requires seats { (counted : ℕ) × AreSeated self.old.sessions counted }
        requires held { HoldsLeft (running self.old) }
        ensures goes { LetsNameGo undone (D.moment_of self.old.store.disk) self.old.names.items self.new.names.items self.old.sessions self.new.sessions }
        ensures same { self.new ≡ record self.old { sessions = self.new.sessions; names = self.new.names } }
        ensures seats { (counted : ℕ) → AreSeated self.old.sessions counted → AreSeated self.new.sessions counted }
        ensures held { HoldsLeft (running self.new) }
        ensures order { (start before : ℕ) → before ≤ D.moment_of self.old.store.disk → IsTapeOrdered start before self.old.sessions → IsTapeOrdered start (D.moment_of self.old.store.disk) self.new.sessions }
    {
        if let Some(name) = name_gone(&mut self.names, undone) {
            self.sessions.release(alloc, name, self.store.moment());
        }
    }

    // What is next in undo's list is undone, and steps are counted; where it was the last of its table's name, recovery releases that.
    fn undo_next<L: Ledger>(
        &mut self,
        alloc: Global,
        next: UndoItem,
        blank: Blank,
    ) -> Result<(), StoreFault>
        requires name { blank.name ≡ L.name }
        requires parts { (blank.parts ≡ L.parts) × (0 < blank.parts) }
        requires ready { IsWorldReady B.Opening D.Disk (running self.old) }
        requires room { HasTurnRoom self.old.store × (self.old.store.next < 2 ^ 63 - 1) }
        requires next { (v : UndoLeft) × Goes next self.old.undo v }
        ensures ready { OnOk result (IsWorldReady B.Opening D.Disk (running self.new)) }
        ensures shows { (s : State) → WhereSound B.first D.Disk (Shows B.Opening B.first D.Disk s (running self.old) → OrFails (Shows B.Opening B.first D.Disk s (running self.new)) result) }
        ensures adds { AddsUnlessFails AreReleases (D.moment_of self.new.store.disk) (running self.old) (running self.new) result }
        ensures one { OnOk result (left_in self.new.undo + 1 ≡ left_in self.old.undo) }
        ensures fewer { OnOk result (turns_left self.new.sessions self.new.store < turns_left self.old.sessions self.old.store) }
        ensures left { (self.new.size ≡ self.old.size) × (left_in self.new.undo ≤ left_in self.old.undo) }
        ensures logs { OnOk result (self.new.store.next ≡ self.old.store.next + 1) }
        ensures pass { self.new.pass ≡ self.old.pass }
        ensures read { self.new.read ≡ self.old.read }
        ensures disk { LeavesDisk B.first D.Disk self.old.store self.new.store result }
    {
        a_name_is_released_with_its_last_item();
        a_turn_of_undo_is_kept::<D>();
        names_of_what_is_left_stay();
        recovery_is_in_no_transaction();
        undo_leaves_the_sessions::<D>();
        undo_takes_a_turn_an_item();
        let mut steps = Steps::<L>::new(blank);
        match turn(&mut self.store, &mut self.undo, &mut steps) {
            Ok(UndoTurn::Over) => Ok(()),
            Ok(UndoTurn::Undone) => {
                self.store.rests();
                self.let_go(alloc, next);
                Ok(())
            }
            Err(fault) => Err(fault),
        }
    }

    // Behind a turn that logged nothing all commits that are durable are answered.
    pub(crate) fn made_room(&mut self) -> Result<(), StoreFault>
        requires ready { IsWorldReady B.Opening D.Disk (running self.old) }
        requires short { HasTurnRoom self.old.store → ⊥ }
        ensures ready { OnOk result (IsWorldReady B.Opening D.Disk (running self.new)) }
        ensures shows { (s : State) → WhereSound B.first D.Disk (Shows B.Opening B.first D.Disk s (running self.old) → OrFails (Shows B.Opening B.first D.Disk s (running self.new)) result) }
        ensures adds { AddsUnlessFails AreAnswers (D.moment_of self.new.store.disk) (running self.old) (running self.new) result }
        ensures nearer { OnOk result (turns_for_room self.new.store < turns_for_room self.old.store) }
        ensures fewer { OnOk result (turns_left self.new.sessions self.new.store < turns_left self.old.sessions self.old.store) }
        ensures answered { OnOk result (AreAnswered (running self.new)) }
        ensures none { OnOk result (self.new.store.next ≡ self.old.store.next) }
        ensures same { self.new ≡ record self.old { store = self.new.store; sessions = self.new.sessions } }
        ensures disk { LeavesDisk B.first D.Disk self.old.store self.new.store result }
    {
        match make_room(&mut self.store) {
            Ok(()) => {
                self.answer();
                Ok(())
            }
            Err(fault) => Err(fault),
        }
    }

    /// Makes all that waits in the log durable.
    pub(crate) fn settle(&mut self) -> Result<(), StoreFault>
        requires ready { IsWorldReady B.Opening D.Disk (running self.old) }
        ensures ready { OnOk result (IsWorldReady B.Opening D.Disk (running self.new)) }
        ensures shows { (s : State) → WhereSound B.first D.Disk (Shows B.Opening B.first D.Disk s (running self.old) → OrFails (Shows B.Opening B.first D.Disk s (running self.new)) result) }
        ensures none { OnOk result (self.new.store.waiting ≡ []) }
        ensures same { self.new ≡ record self.old { store = self.new.store } }
        ensures disk { LeavesDisk B.first D.Disk self.old.store self.new.store result }
    {
        flush(&mut self.store)
    }

    /// The totals of the loaded table. It takes no memory.
    pub(crate) fn count(&mut self) -> Result<Totals, StoreFault>
        requires ready { IsWorldReady B.Opening D.Disk (running self.old) }
        ensures ready { OnOk result (IsWorldReady B.Opening D.Disk (running self.new)) }
        ensures shows { (s : State) → WhereSound B.first D.Disk (Shows B.Opening B.first D.Disk s (running self.old) → OrFails (Shows B.Opening B.first D.Disk s (running self.new)) result) }
        ensures counts { (s : State) → WhereSound B.first D.Disk (Shows B.Opening B.first D.Disk s (running self.old)
            → IfOk result (AreTotals (rows_asked B.Opening s self.old.sessions.tape.items))) }
        ensures none { WhereSound B.first D.Disk (self.old.store.waiting ≡ [] → OnOk result (self.new.store.waiting ≡ [])) }
        ensures same { self.new ≡ record self.old { store = self.new.store } }
        ensures disk { LeavesDisk B.first D.Disk self.old.store self.new.store result }
    {
        count_loaded(&mut self.store)
    }

    /// A turn of undo, where this is next: a turn for room, where the store has none, or it is undone. All commits that are durable then are
    /// answered.
    pub(crate) fn undo(&mut self, alloc: Global, next: UndoItem) -> Result<(), StoreFault>
        requires ready { IsWorldReady B.Opening D.Disk (running self.old) }
        requires number { self.old.store.next < 2 ^ 63 - 1 }
        requires next { (v : UndoLeft) × Goes next self.old.undo v }
        ensures ready { OnOk result (IsWorldReady B.Opening D.Disk (running self.new)) }
        ensures shows { (s : State) → WhereSound B.first D.Disk (Shows B.Opening B.first D.Disk s (running self.old) → OrFails (Shows B.Opening B.first D.Disk s (running self.new)) result) }
        ensures adds { AddsUnlessFails (AreEntriesBy who.Undo) (D.moment_of self.new.store.disk) (running self.old) (running self.new) result }
        ensures nearer { OnOk result (ComesNearer who.Undo (running self.old) (running self.new)) }
        ensures left { (self.new.size ≡ self.old.size) × (left_in self.new.undo ≤ left_in self.old.undo) }
        ensures pass { OnOk result (LeavesPass (running self.old) (running self.new)) }
        ensures one { OnOk result (LogsOneAtMost (running self.old) (running self.new)) }
        ensures disk { LeavesDisk B.first D.Disk self.old.store self.new.store result }
    {
        if !self.store.room() {
            return self.made_room();
        }
        match self.undo_next::<Brand>(alloc, next, Blank::new(1)) {
            Ok(()) => {
                self.answer();
                Ok(())
            }
            Err(fault) => Err(fault),
        }
    }

    // What the flusher does next to the store.
    fn flush(&mut self, alloc: Global) -> Result<FlushTurn, StoreFault>
        requires ready { IsWorldReady B.Opening D.Disk (running self.old) }
        requires number { self.old.store.next < 2 ^ 63 - 1 }
        ensures ready { OnOk result (IsWorldReady B.Opening D.Disk (running self.new)) }
        ensures shows { (s : State) → WhereSound B.first D.Disk (Shows B.Opening B.first D.Disk s (running self.old) → OrFails (Shows B.Opening B.first D.Disk s (running self.new)) result) }
        ensures ends { AnswersTurn self.old.store self.new.store result }
        ensures same { self.new ≡ record self.old { store = self.new.store } }
        ensures disk { LeavesDisk B.first D.Disk self.old.store self.new.store result }
    {
        write_next(alloc, &mut self.store)
    }

    /// A turn of the flusher: the first of its four things that there is to do, and the answers of all commits that are durable then; where there
    /// is none it is idle, or fell short, where memory was refused for a generation of the log that is due.
    pub(crate) fn write_behind(&mut self, alloc: Global) -> Result<Turn, StoreFault>
        requires ready { IsWorldReady B.Opening D.Disk (running self.old) }
        requires number { self.old.store.next < 2 ^ 63 - 1 }
        ensures ready { OnOk result (IsWorldReady B.Opening D.Disk (running self.new)) }
        ensures shows { (s : State) → WhereSound B.first D.Disk (Shows B.Opening B.first D.Disk s (running self.old) → OrFails (Shows B.Opening B.first D.Disk s (running self.new)) result) }
        ensures adds { AddsUnlessFails AreAnswers (D.moment_of self.new.store.disk) (running self.old) (running self.new) result }
        ensures went { IfOk result (FlusherEnds (running self.old) (running self.new)) }
        ensures one { OnOk result (LogsOneAtMost (running self.old) (running self.new)) }
        ensures same { self.new ≡ record self.old { store = self.new.store; sessions = self.new.sessions } }
        ensures disk { LeavesDisk B.first D.Disk self.old.store self.new.store result }
    {
        match self.flush(alloc) {
            Ok(FlushTurn::Wrote) => {
                self.answer();
                Ok(Turn::Went)
            }
            Ok(FlushTurn::Idle) => Ok(Turn::Idle),
            Ok(FlushTurn::Short) => Ok(Turn::Short),
            Err(fault) => Err(fault),
        }
    }
}

// The totals of the loaded table. In a World nothing changes, and nothing is told.
fn count_loaded<D: Disk, O: Origin>(store: &mut Store<D, O>) -> Result<Totals, StoreFault>
    requires going { store.old.stopped ≡ false }
    ensures kept { (c : Start) (opened : D) (h : SessionsHeld) (w : Mind) → WhereSound O.first D.Disk (InWorld D.Disk c opened store.old h w → OrFails (InWorld D.Disk c opened store.new h w) result) }
    ensures counts { (c : Start) (opened : D) (w : Mind) → WhereSound O.first D.Disk (KeepsWorld D.Disk c opened store.old w → IfOk result (AreTotals (after_all (state_now c w).asked (state_now c w).base))) }
    ensures leaves { ReadsPages O.first D.Disk store.old store.new result }
{
    pages_that_are_read_keep_a_world::<D>();
    let counted = totals(store);
    store.rests();
    counted
}

// A turn of the flusher over the store. In a World nothing else changes, and nothing is told.
fn write_next<D: Disk, O: Origin>(
    alloc: Global,
    store: &mut Store<D, O>,
) -> Result<FlushTurn, StoreFault>
    requires going { store.old.stopped ≡ false }
    requires number { store.old.next < 2 ^ 63 - 1 }
    ensures ends { AnswersTurn store.old store.new result }
    ensures kept { (c : Start) (opened : D) (h : SessionsHeld) (w : Mind) → WhereSound O.first D.Disk (InWorld D.Disk c opened store.old h w → OrFails (InWorld D.Disk c opened store.new h w) result) }
    ensures leaves { KeepsPages O.first D.Disk store.old store.new result }
{
    pages_that_are_read_keep_a_world::<D>();
    a_sound_state_can_be_listed();
    let _tables = store.meta();
    flush_store(alloc, store)
}
