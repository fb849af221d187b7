// The turns of a World's actors, and how a fault stops it.
ghost use Rattle.std.specs.Prelude.{◌≡◌, ◌≢◌, ◌≤◌, ◌<◌, ◌-◌, ◌^◌, ℕ, [], true, false, IsTrue, None};
ghost use Rattle.ctr_types.specs.declared.tape.Actor.TheVariants as who;
ghost use Rattle.ctr_types.specs.declared.tape.Turn.TheVariants.{Went, Stopped};
ghost use Rattle.ctr_pass.specs.exec_Sessions.{turns_left};
ghost use Rattle.ctr_world.specs.Held.{held};
ghost use Rattle.ctr_world.specs.World.{Kept, stop_by};
ghost use Rattle.ctr_base.specs.Base.{WhereSound};
ghost use Rattle.ctr_redo.specs.States.{State};
ghost use Rattle.ctr_record_effects.specs.Standing.{StandsForDatabase};
ghost use Rattle.ctr_world.specs.Counted.{TotalsAre};
ghost use Rattle.ctr_world.specs.Turns.{EndsTurn, FinishesBy, HasStatementLeft, IsWorldOver, RollsBack, TakesFirst};

use crate::engine::Engine;
use crate::left::{first_left, has_left};
use crate::opening::Opening;
use ctr_base::Origin;
use ctr_disk::{Disk, Stop, StoreFault};
use ctr_pass::{a_pass_is_kept_beside_others, a_turn_that_ends_leaves_a_prefix};
use ctr_totals::Totals;
use ctr_types::{Actor, Turn};
use std::alloc::Global;

/// The number of a record that there can't be.
const LAST: u64 = (1 << 63) - 1;

/// A World's engine, and why it stopped, if it did.
#[derive(Drop)]
pub(crate) struct Parts<D: Disk, B: Origin> {
    pub(crate) engine: Engine<D, B>,
    pub(crate) stop: Option<Stop>,
}

// Why a World stops, by what it met.
fn stop_by(fault: StoreFault) -> Stop
    ensures { result ≡ stop_by fault }
{
    match fault {
        StoreFault::Fault => Stop::Fault,
        StoreFault::Damaged(damage) => Stop::Damaged(damage),
    }
}

impl<D: Disk, B: Origin + Opening> Parts<D, B> {
    // Whether no record more can have a number.
    fn is_worn(&self) -> bool
        ensures yes { result ≡ true → 2 ^ 63 - 1 ≤ self.now.engine.store.next }
        ensures no { result ≡ false → self.now.engine.store.next < 2 ^ 63 - 1 }
    {
        self.engine.store.next() >= LAST
    }

    /// Every session's statements are finished. A World that is stopped isn't asked for more.
    pub(crate) fn done(&self) -> bool
        requires kept { Kept B.Opening B.first D.Disk (held self.now) }
        ensures yes { result ≡ true → (self.now.stop ≡ None) × ((s : ℕ) → HasStatementLeft s self.now.engine.sessions → ⊥) }
        ensures no { result ≡ false → self.now.stop ≡ None → (s : ℕ) × HasStatementLeft s self.now.engine.sessions }
    {
        if self.stop.is_some() {
            return false;
        }
        match first_left(&self.engine.sessions, 0) {
            None => true,
            Some(_) => false,
        }
    }

    // The World stops, as its records have come to the last number.
    fn wear(&mut self) -> Turn
        requires going { self.old.stop ≡ None }
        requires worn { 2 ^ 63 - 1 ≤ self.old.engine.store.next }
        requires kept { Kept B.Opening B.first D.Disk (held self.old) }
        ensures kept { Kept B.Opening B.first D.Disk (held self.new) }
        ensures stopped { (result ≡ Stopped) × (self.new.stop ≢ None) × (self.new.engine ≡ self.old.engine) }
    {
        self.stop = Some(Stop::Worn {
            lsn: self.engine.store.next(),
        });
        Turn::Stopped
    }

    // A turn of a session.
    fn serve(&mut self, alloc: Global, s: u8) -> Turn
        requires going { self.old.stop ≡ None }
        requires kept { Kept B.Opening B.first D.Disk (held self.old) }
        ensures kept { Kept B.Opening B.first D.Disk (held self.new) }
        ensures says { EndsTurn D.Disk result (who.Session s) (held self.old) (held self.new) }
        ensures rolls { (t : State) → IsTrue D.tells → StandsForDatabase B.first t → result ≡ Went → RollsBack s (held self.old).running (held self.new).running }
    {
        if !has_left(&self.engine.sessions, s) {
            return Turn::Over;
        }
        if self.is_worn() {
            return self.wear();
        }
        a_turn_that_ends_leaves_a_prefix::<D>();
        a_pass_is_kept_beside_others();
        match self.engine.serve(alloc, s) {
            Ok(()) => Turn::Went,
            Err(fault) => {
                self.stop = Some(stop_by(fault));
                Turn::Stopped
            }
        }
    }

    // A turn of undo.
    fn undo(&mut self, alloc: Global) -> Turn
        requires going { self.old.stop ≡ None }
        requires kept { Kept B.Opening B.first D.Disk (held self.old) }
        ensures kept { Kept B.Opening B.first D.Disk (held self.new) }
        ensures says { EndsTurn D.Disk result who.Undo (held self.old) (held self.new) }
    {
        let Some(next) = self.engine.undo.next() else {
            return Turn::Over;
        };
        if self.is_worn() {
            return self.wear();
        }
        a_turn_that_ends_leaves_a_prefix::<D>();
        a_pass_is_kept_beside_others();
        match self.engine.undo(alloc, next) {
            Ok(()) => Turn::Went,
            Err(fault) => {
                self.stop = Some(stop_by(fault));
                Turn::Stopped
            }
        }
    }

    // A turn of the flusher.
    fn write_behind(&mut self, alloc: Global) -> Turn
        requires going { self.old.stop ≡ None }
        requires kept { Kept B.Opening B.first D.Disk (held self.old) }
        ensures kept { Kept B.Opening B.first D.Disk (held self.new) }
        ensures says { EndsTurn D.Disk result who.Flusher (held self.old) (held self.new) }
    {
        if self.is_worn() {
            return self.wear();
        }
        a_turn_that_ends_leaves_a_prefix::<D>();
        a_pass_is_kept_beside_others();
        match self.engine.write_behind(alloc) {
            Ok(turn) => turn,
            Err(fault) => {
                self.stop = Some(stop_by(fault));
                Turn::Stopped
            }
        }
    }

    // A turn of the cleaner.
    fn clean(&mut self) -> Turn
        requires going { self.old.stop ≡ None }
        requires kept { Kept B.Opening B.first D.Disk (held self.old) }
        ensures kept { Kept B.Opening B.first D.Disk (held self.new) }
        ensures says { EndsTurn D.Disk result who.Cleaner (held self.old) (held self.new) }
    {
        if self.is_worn() {
            return self.wear();
        }
        a_turn_that_ends_leaves_a_prefix::<D>();
        match self.engine.clean() {
            Ok(turn) => turn,
            Err(fault) => {
                self.stop = Some(stop_by(fault));
                Turn::Stopped
            }
        }
    }

    /// A turn of an actor. After a stop it does nothing.
    pub(crate) fn step(&mut self, alloc: Global, actor: Actor) -> Turn
        requires kept { Kept B.Opening B.first D.Disk (held self.old) }
        ensures kept { Kept B.Opening B.first D.Disk (held self.new) }
        ensures says { EndsTurn D.Disk result actor (held self.old) (held self.new) }
        ensures rolls { (t : State) (s : ℕ) → IsTrue D.tells → StandsForDatabase B.first t → actor ≡ who.Session s → result ≡ Went → RollsBack s (held self.old).running (held self.new).running }
    {
        if self.stop.is_some() {
            return Turn::Stopped;
        }
        match actor {
            Actor::Session(s) => self.serve(alloc, s),
            Actor::Flusher => self.write_behind(alloc),
            Actor::Cleaner => self.clean(),
            Actor::Undo => self.undo(alloc),
        }
    }

    // A turn of the first session whose statements aren't finished, or of undo, where all are.
    fn step_next(&mut self, alloc: Global) -> Turn
        requires kept { Kept B.Opening B.first D.Disk (held self.old) }
        ensures kept { Kept B.Opening B.first D.Disk (held self.new) }
        ensures fewer { result ≡ Went → turns_left self.new.engine.sessions self.new.engine.store < turns_left self.old.engine.sessions self.old.engine.store }
        ensures over { result ≢ Went → self.new.stop ≡ None → IsWorldOver (held self.new) }
        ensures turn { result ≡ Went → TakesFirst D.Disk (held self.old) (held self.new) }
        ensures still { result ≢ Went → (held self.new).running.sessions.tape.items ≡ (held self.old).running.sessions.tape.items }
        ensures stopped { self.old.stop ≢ None → (result ≢ Went) × (self.new ≡ self.old) }
    {
        if self.stop.is_some() {
            return Turn::Stopped;
        }
        match first_left(&self.engine.sessions, 0) {
            Some(s) => self.serve(alloc, s),
            None => self.undo(alloc),
        }
    }

    // Steps each session whose statements aren't finished, in order of number, and then undo, until they are over, or the World stops.
    fn run(&mut self, alloc: Global)
        requires kept { Kept B.Opening B.first D.Disk (held self.old) }
        ensures kept { Kept B.Opening B.first D.Disk (held self.new) }
        ensures over { self.new.stop ≡ None → IsWorldOver (held self.new) }
        ensures turns { FinishesBy D.Disk (held self.old) (held self.new).running.sessions.tape.items }
        ensures stopped { self.old.stop ≢ None → self.new ≡ self.old }
    {
        while let Turn::Went = self.step_next(alloc) {}
    }

    // What waits in the log is made durable, where nothing has stopped the World.
    fn settle(&mut self)
        requires kept { Kept B.Opening B.first D.Disk (held self.old) }
        ensures kept { Kept B.Opening B.first D.Disk (held self.new) }
        ensures over { IsWorldOver (held self.old) → IsWorldOver (held self.new) }
        ensures none { self.new.stop ≡ None → self.new.engine.store.waiting ≡ [] }
        ensures tape { self.new.engine.sessions.tape.items ≡ self.old.engine.sessions.tape.items }
        ensures stopped { self.old.stop ≢ None → self.new ≡ self.old }
    {
        if self.stop.is_some() {
            return;
        }
        a_turn_that_ends_leaves_a_prefix::<D>();
        a_pass_is_kept_beside_others();
        match self.engine.settle() {
            Ok(()) => {}
            Err(fault) => {
                self.stop = Some(stop_by(fault));
            }
        }
    }

    // The totals of the loaded table, where nothing has stopped the World.
    fn count(&mut self) -> Totals
        requires kept { Kept B.Opening B.first D.Disk (held self.old) }
        ensures kept { Kept B.Opening B.first D.Disk (held self.new) }
        ensures over { IsWorldOver (held self.old) → IsWorldOver (held self.new) }
        ensures none { WhereSound B.first D.Disk (self.old.engine.store.waiting ≡ [] → self.new.stop ≡ None → self.new.engine.store.waiting ≡ []) }
        ensures counts { TotalsAre B.Opening B.first D.Disk true (held self.new) result }
        ensures tape { self.new.engine.sessions.tape.items ≡ self.old.engine.sessions.tape.items }
        ensures stopped { self.old.stop ≢ None → self.new ≡ self.old }
    {
        if self.stop.is_some() {
            return Totals::NONE;
        }
        a_turn_that_ends_leaves_a_prefix::<D>();
        a_pass_is_kept_beside_others();
        match self.engine.count() {
            Ok(totals) => totals,
            Err(fault) => {
                self.stop = Some(stop_by(fault));
                Totals::NONE
            }
        }
    }

    // That, where it is asked for.
    fn count_if(&mut self, totals: bool) -> Totals
        requires kept { Kept B.Opening B.first D.Disk (held self.old) }
        ensures kept { Kept B.Opening B.first D.Disk (held self.new) }
        ensures over { IsWorldOver (held self.old) → IsWorldOver (held self.new) }
        ensures none { WhereSound B.first D.Disk (self.old.engine.store.waiting ≡ [] → self.new.stop ≡ None → self.new.engine.store.waiting ≡ []) }
        ensures counts { TotalsAre B.Opening B.first D.Disk totals (held self.new) result }
        ensures tape { self.new.engine.sessions.tape.items ≡ self.old.engine.sessions.tape.items }
        ensures stopped { self.old.stop ≢ None → self.new ≡ self.old }
    {
        if totals { self.count() } else { Totals::NONE }
    }

    /// Goes on until all statements are finished and nothing is left of undo, and makes that durable; or until the World stops. One that is
    /// stopped is left as it is. Then it counts the rows of the loaded table, where that is asked for.
    pub(crate) fn finish(&mut self, alloc: Global, totals: bool) -> Totals
        requires kept { Kept B.Opening B.first D.Disk (held self.old) }
        ensures kept { Kept B.Opening B.first D.Disk (held self.new) }
        ensures over { self.new.stop ≡ None → IsWorldOver (held self.new) }
        ensures none { WhereSound B.first D.Disk (self.new.stop ≡ None → self.new.engine.store.waiting ≡ []) }
        ensures counts { TotalsAre B.Opening B.first D.Disk totals (held self.new) result }
        ensures turns { FinishesBy D.Disk (held self.old) (held self.new).running.sessions.tape.items }
        ensures stopped { self.old.stop ≢ None → self.new ≡ self.old }
    {
        self.run(alloc);
        self.settle();
        self.count_if(totals)
    }
}
