// The World: its type names what it was opened on, and keeps the tape legal and the disk's images in order.
ghost use Rattle.std.specs.Prelude.{◌≡◌, ◌≢◌, ◌⊎◌, ◌≤◌, ◌-◌, ◌^◌, ℕ, List, length, None, Some, IsTrue, true, false, IfOk, IfErr};
ghost use Rattle.ctr_disk.specs.declared.fault.Stop.TheVariants.{Worn};
ghost use Rattle.ctr_disk.specs.Device.{LeavesOnly};
ghost use Rattle.ctr_redo.specs.States.{State};
ghost use Rattle.ctr_record_effects.specs.Standing.{StandsForDatabase};
ghost use Rattle.ctr_base.specs.Base.{WhereSound};
ghost use Rattle.ctr_store.specs.Opening.{IsUndamaged};
ghost use Rattle.ctr_store.specs.StoreOpening.{OpensStore};
ghost use Rattle.ctr_undo.specs.Left.{left_in};
ghost use Rattle.ctr_pass.specs.exec_Order.{IsTapeOrdered};
ghost use Rattle.ctr_pass.specs.exec_Runners.{AreRunners, runner_at};
ghost use Rattle.ctr_world.specs.Opened.{IsOpenedOn, CanRun};
ghost use Rattle.ctr_area.specs.Sound.{IsBare};
ghost use Rattle.ctr_record_effects.specs.States.{area_in};
ghost use Rattle.ctr_types.specs.declared.tape.Actor.TheVariants.{Cleaner, Session};
ghost use Rattle.ctr_types.specs.declared.tape.Turn.TheVariants.{Idle, Went};
ghost use Rattle.ctr_world.specs.World.{HasNobodyLeft, IsTapeOf, StopsBy};
ghost use Rattle.ctr_world.specs.Turns.{HasStatementLeft, EndsTurn, FinishesBy, RollsBack};
ghost use Rattle.ctr_world.specs.Counted.{CountsLoaded};
ghost use Rattle.ctr_world.specs.Ended.{Ends, EndsInOrder, IsUnbegunWorld, PassesOpening, RefusesWith, RefusesWorld};

use crate::beginning::begin;
use crate::engine::Engine;
use crate::opening::Opening;
use crate::parts::Parts;
use ctr_base::Origin;
use ctr_disk::{Disk, Stop};
use ctr_log::OpenError;
use ctr_pass::{
    Sessions, a_pass_begins, a_script_begins_in_a_world, an_idle_pass_leaves_it_bare,
    nobody_inside_locks_nothing, pages_that_are_read_keep_a_world,
    room_for_the_cleaner_leaves_the_sessions,
};
use ctr_store::Store;
use ctr_totals::Totals;
use ctr_types::{Actor, Entry, List, Script, Tape, Turn};
use ctr_undo::{a_call_that_ends_leaves_a_prefix, a_world_begins};
use std::alloc::Global;
use std::marker::Model;

/// A database that runs a script of eight sessions, beside recovery's undo. Its tape is legal at every moment.
#[derive(Drop)]
pub struct World<D: Disk, B: Origin + Opening> {
    parts: Parts<D, B>,
}

impl<D: Disk, B: Origin + Opening> Model for World<D, B> {
    ghost use Rattle.ctr_world.specs.Held.{Held, held};

    ghost Value = { Held D };

    ghost view = { λ w. held w.parts };

    ghost use Rattle.ctr_world.specs.World.{Kept};

    ghost invariant = { λ w. Kept B.Opening B.first D.Disk (held w.parts) };
}

/// What a World leaves at its end.
#[derive(Drop)]
pub struct Finished<D> {
    /// Every act with its reply.
    pub tape: Tape,
    /// Why it stopped, if it did.
    pub stop: Option<Stop>,
    /// How many turns undo took.
    pub undone: usize,
    /// The rows of the loaded table, and the sum of its second column; both 0 where they weren't asked for, or it stopped.
    pub totals: Totals,
    /// The disk that it was opened on.
    pub disk: D,
}

impl<D: Disk, B: Origin + Opening> World<D, B> {
    /// Opens the database of a disk for a script, over so many frames, 8 to 4,096. Room for the whole tape is taken. Nothing is logged: pages may
    /// go home that the log's records are on. A refusal gives the disk back.
    pub fn open(
        alloc: Global,
        disk: D,
        frames: usize,
        script: Script,
    ) -> Result<World<D, B>, (OpenError, D)>
        requires named { IsOpenedOn B.Opening B.first D.Disk disk script.lines }
        requires frames { (8 ≤ frames) × (frames ≤ 4096) }
        requires runs { CanRun script.lines }
        ensures begins { IfOk result (IsUnbegunWorld script.lines) }
        // Nothing was logged, and a sound image stands behind it as it did; no fault was met.
        ensures stands { WhereSound B.first D.Disk (IfOk result (λ w. OpensStore B.first w.running.store)) }
        ensures counts { IfOk result (λ w. (D.moment_of disk ≤ D.moment_of w.running.store.disk) × (D.faults_of w.running.store.disk ≡ D.faults_of disk)) }
        // A database is refused by its numbers, for a fault, or for want of memory.
        ensures undamaged { (s : State) → IsTrue D.tells → StandsForDatabase B.first s → IfErr result (λ e. IsUndamaged e.0) }
        // No database, damage, or a worn number, is told where it is so; and none is where it isn't.
        ensures refused { IsTrue D.tells → IfErr result (λ e. RefusesWorld B.first e.0) }
        ensures passes { IsTrue D.tells → IfOk result (λ w. PassesOpening B.first) }
        // A crash in an opening that was refused leaves the database as it was, or what it might have left before.
        ensures left { (s : State) → IsTrue D.tells → StandsForDatabase B.first s
            → IfErr result (λ e. LeavesOnly D.Disk disk e.1 (λ c. D.images disk c ⊎ StandsForDatabase c s)) }
        ensures stays { IfErr result (λ e. RefusesWith D.Disk disk e.0 e.1) }
    {
        let mut store = match Store::<D, B>::open(alloc, disk, frames) {
            Ok(store) => store,
            Err(refused) => return Err(refused),
        };
        a_pass_begins();
        a_script_begins_in_a_world::<D>();
        a_world_begins::<D>();
        room_for_the_cleaner_leaves_the_sessions::<D>();
        pages_that_are_read_keep_a_world::<D>();
        match begin(alloc, &mut store, script) {
            Ok(begun) => {
                store.rests();
                Ok(World {
                    parts: Parts {
                        engine: Engine {
                            store,
                            sessions: begun.sessions,
                            undo: begun.undo,
                            names: begun.names,
                            size: begun.size,
                            pass: begun.pass,
                            read: 0,
                        },
                        stop: None,
                    },
                })
            }
            Err(error) => Err((error, store.into_disk())),
        }
    }

    /// So many keys of rows are remembered from now on at most, by which a row is found without a search. What is told of a World doesn't depend on
    /// it.
    pub fn allow_keys(&mut self, most: usize)
        ensures { self.new ≡ self.old }
    {
        self.parts.engine.store.allow_keys(most);
    }

    /// Every session's statements are finished, and nothing has stopped the World.
    pub fn done(&self) -> bool
        ensures yes { result ≡ true → (self.now.stop ≡ None) × ((s : ℕ) → HasStatementLeft s self.now.running.sessions → ⊥) }
        ensures no { result ≡ false → self.now.stop ≡ None → (s : ℕ) × HasStatementLeft s self.now.running.sessions }
    {
        self.parts.done()
    }

    /// How many of its statements a session has finished.
    pub fn finished(&self, session: u8) -> usize
        requires { 1 ≤ session }
        ensures { result ≡ (runner_at session self.now.running.sessions.runners.items).finished }
    {
        self.parts.engine.sessions.finished(session)
    }

    /// The tape stands in the order of the script, and has led each session to where it is; also where the World is stopped it stands in that order. The
    /// call does nothing: what it ensures holds of each World.
    pub fn stands_in_order(&self)
        ensures going { self.now.stop ≡ None → IsTapeOrdered B.start (D.moment_of self.now.running.store.disk) self.now.running.sessions }
        ensures seats { self.now.stop ≡ None → (length self.now.running.sessions.runners.items ≡ 8) × AreRunners B.lines 1 self.now.running.sessions.runners.items }
        ensures tape { IsTapeOf B.Opening (D.moment_of self.now.running.store.disk) self.now.running.sessions.tape.items }
        ensures lines { self.now.running.sessions.script.lines ≡ B.lines }
    {
        let _ = &self.parts;
    }

    /// Why the World stopped, if it did.
    pub fn stopped(&self) -> Option<Stop>
        ensures { result ≡ self.now.stop }
    {
        self.parts.stop
    }

    /// The tape so far.
    pub fn tape(&self) -> &[Entry]
        ensures { result.now ≡ self.now.running.sessions.tape.items }
    {
        &self.parts.engine.sessions.tape
    }

    /// A turn of an actor. After a stop it does nothing.
    pub fn step(&mut self, alloc: Global, actor: Actor) -> Turn
        ensures says { EndsTurn D.Disk result actor self.old self.new }
        // A session that rolls back goes by its items: rows are left as they are, however many it wrote.
        ensures rolls { (t : State) (s : ℕ) → IsTrue D.tells → StandsForDatabase B.first t → actor ≡ Session s → result ≡ Went → RollsBack s self.old.running self.new.running }
        // The cleaner is idle, while no session is in a transaction and undo is over, only where nothing is left to clean.
        ensures bare { (s : State) → IsTrue D.tells → StandsForDatabase B.first s → actor ≡ Cleaner → result ≡ Idle → HasNobodyLeft B.Opening s self.old.running
            → IsBare self.old.running.store.now.tables (area_in self.old.running.store.now) }
    {
        an_idle_pass_leaves_it_bare();
        nobody_inside_locks_nothing::<D>();
        self.parts.step(alloc, actor)
    }

    /// Steps each session whose statements aren't finished, in order of number, until they are, and then undo until nothing is left of it, and
    /// makes all durable; or until the World stops. One that is stopped is left as it is. Then, where that is asked for, the rows of the loaded
    /// table are counted, and the sum of its second column, which takes no memory.
    pub fn finish(self, alloc: Global, totals: bool) -> Finished<D>
        // Of a database that the first image stands for, what its tape and its undo are, and what a crash leaves.
        ensures ends { (s : State) → IsTrue D.tells → StandsForDatabase B.first s → Ends B.Opening D.Disk s result.tape.entries result.stop result.undone result.disk }
        // Whatever the disk tells, the tape stands in the order of the script.
        ensures order { EndsInOrder B.Opening D.Disk result.tape.entries result.stop result.disk }
        ensures stopped { self.stop ≢ None → (result.tape.entries ≡ self.running.sessions.tape.items) × (result.stop ≡ self.stop)
            × (result.undone ≡ self.running.size - left_in self.running.undo) × (result.disk ≡ self.running.store.disk) }
        // It goes by turns, each of the first session that has a statement left, or of undo where none has; each adds its entries at its own end.
        ensures turns { FinishesBy D.Disk self result.tape.entries }
        // What was counted: of a database that the first image stands for, where nothing stopped the World, the totals of all that asked for a commit.
        ensures counts { CountsLoaded B.Opening B.first D.Disk totals result }
        // A fault is the cause of a stop or none was met.
        ensures stops { StopsBy result.stop B.faults (D.faults_of result.disk) }
        ensures forward { (B.start ≤ D.moment_of result.disk) × (B.faults ≤ D.faults_of result.disk) }
        ensures worn { (lsn : ℕ) → result.stop ≡ Some (Worn lsn) → 2 ^ 63 - 1 ≤ lsn }
    {
        a_call_that_ends_leaves_a_prefix::<D>();
        let World { parts } = self;
        let mut parts = parts;
        let totals = parts.finish(alloc, totals);
        let Parts { engine, stop } = parts;
        let Engine {
            store,
            sessions,
            undo,
            names: _,
            size,
            pass: _,
            read: _,
        } = engine;
        let undone = size - undo.len();
        let Sessions { tape, .. } = sessions;
        Finished {
            tape: Tape {
                entries: List::from_vec(tape),
            },
            stop,
            undone,
            totals,
            disk: store.into_disk(),
        }
    }
}
